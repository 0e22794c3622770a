// A chunk of sectors. Those up to the last one that was written are there, and all after them are blank.
ghost use Rattle.std.specs.Prelude.{◌++◌, ◌-◌, ◌<◌, ◌≡◌, ◌≤◌, IfOk, length, replicate, slice_index_or, slice_set, []};
ghost use Rattle.std.specs.Prelude.{vec_capacity};

use std::alloc::{AllocError, Global};
use std::marker::Model;
use std::slice;

/// How many sectors a chunk has: 1 MiB.
pub const CHUNK: usize = 2048;

/// So many sectors of 512 bytes each. No write is refused, since there is room for all.
#[derive(Debug, Drop)]
pub struct Chunk {
    // The sectors that are there. Their room is touched only as they come.
    front: Vec<[u8; 512]>,
    blank: [u8; 512],
    // each byte of a blank one
    erased: u8,
}

impl Model for Chunk {
    ghost use Rattle.std.specs.Prelude.{List, ℕ, ◌≤◌, ◌≡◌, replicate, vec_len, vec_capacity};
    ghost use Rattle.sparse_sectors.specs.Chunks.{filled};
    ghost use Rattle.sparse_sectors.specs.declared.chunk.TheConstants.{CHUNK};

    ghost Value = { List (List ℕ) };

    ghost view = { λ c. filled c.blank c.front.items };

    ghost invariant = { λ c. (vec_len c.front ≤ CHUNK) × (CHUNK ≤ vec_capacity c.front) × (c.blank ≡ replicate 512 c.erased) };
}

// Adds blank sectors until there are so many.
fn grow(front: &mut Vec<[u8; 512]>, blank: &[u8; 512], count: usize)
    requires { count ≤ vec_capacity front.old }
    ensures grown { front.new.items ≡ front.old.items ++ replicate (count - length front.old.items) blank.now }
    ensures room { vec_capacity front.old ≤ vec_capacity front.new }
{
    while front.len() < count {
        front.extend_from_slice(slice::from_ref(blank)).unwrap();
    }
}

impl Chunk {
    /// A chunk of sectors that are all this byte. An error: there is no room in memory.
    pub fn new(alloc: Global, erased: u8) -> Result<Chunk, AllocError>
        ensures { IfOk result (λ chunk. chunk ≡ replicate CHUNK (replicate 512 erased)) }
    {
        let front = Vec::with_capacity(alloc, CHUNK)?;
        Ok(Chunk {
            front,
            blank: [erased; 512],
            erased,
        })
    }

    /// A sector.
    pub fn sector(&self, i: usize) -> &[u8; 512]
        requires { i < CHUNK }
        ensures { result.now ≡ slice_index_or self.now i [] }
    {
        match self.front.get(i) {
            Some(sector) => sector,
            None => &self.blank,
        }
    }

    /// Gives a sector another value. One after all that are there takes no memory if it stays blank.
    #[tactic(auto, using(crate::proofs::ChunkLemmas::filled_set, crate::proofs::ChunkLemmas::filled_grown))]
    pub fn put(&mut self, i: usize, sector: &[u8; 512])
        requires { i < CHUNK }
        ensures { self.new ≡ slice_set self.old i sector.now }
    {
        if i < self.front.len() {
            self.front[i].copy_from_slice(sector);
            return;
        }
        // one byte tells most that aren't blank
        if sector[0] == self.erased && *sector == self.blank {
            return;
        }
        grow(&mut self.front, &self.blank, i);
        self.front
            .extend_from_slice(slice::from_ref(sector))
            .unwrap();
    }

    /// Makes a sector all this byte. One after all that are there takes no memory if it stays blank.
    #[tactic(auto, using(crate::proofs::ChunkLemmas::filled_set))]
    pub fn fill(&mut self, i: usize, byte: u8)
        requires { i < CHUNK }
        ensures { self.new ≡ slice_set self.old i (replicate 512 byte) }
    {
        if i < self.front.len() {
            self.front[i].fill(byte);
            return;
        }
        if byte == self.erased {
            return;
        }
        grow(&mut self.front, &self.blank, i + 1);
        self.front[i].fill(byte);
    }
}
