use mmc_bus::Part;
use mmc_requests::Kind;

/// An end of a request's sectors, at which an extent may be joined to them.
#[derive(Clone, Copy, Debug, PartialEq, Eq, PartialOrd, Ord)]
pub enum Edge {
    /// Its first sector.
    Start,
    /// The sector after its last one.
    End,
}

/// Where a request can be found by its sectors. The order is that of the fields.
#[derive(Clone, Copy, Debug, PartialEq, Eq, PartialOrd, Ord, Drop)]
pub struct Place {
    pub part: Part,
    pub kind: Kind,
    pub edge: Edge,
    pub sector: u64,
    pub ticket: u64,
}
