use crate::request::Request;
use mmc_bus::{Bytes, Part};
use std::alloc::Global;
use std::default::MadeWith;

/// A request that waits, with the room for what it reads.
#[derive(Debug, Drop)]
pub struct Entry {
    /// Its number. Tickets ascend in order of submission.
    pub ticket: u64,
    /// Whose request it is.
    pub client: u32,
    /// What is asked.
    pub request: Request,
    /// Where what a read reads goes: 512 bytes for each sector, and for another request none.
    pub buffer: Bytes,
}

// What stands in the places of a group that are free. It takes no memory.
impl MadeWith<Global> for Entry {
    fn made_with(alloc: Global) -> Entry {
        Entry {
            ticket: 0,
            client: 0,
            request: Request::Read {
                part: Part::User,
                start: 0,
                count: 0,
            },
            buffer: Bytes::new(Vec::new(alloc)),
        }
    }
}
