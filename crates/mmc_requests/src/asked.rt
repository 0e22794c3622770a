use crate::kind::Kind;
use mmc_bus::Part;

/// What a request asks for: sectors that lie next to each other in a partition.
#[derive(Clone, Copy, Debug, PartialEq, Eq)]
pub struct Asked {
    /// What is done with them.
    pub kind: Kind,
    /// The partition that they are of.
    pub part: Part,
    /// The first of them.
    pub start: u64,
    /// How many they are.
    pub count: u64,
}
