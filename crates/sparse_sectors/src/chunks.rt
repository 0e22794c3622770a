// Sectors in chunks.
ghost use Rattle.std.specs.Prelude.{◌<◌, ◌^◌, ◌≡◌, ◌≤◌, IfOk, length, replicate, slice_index_or, slice_set, []};

use crate::chunk::{CHUNK, Chunk};
use std::alloc::{AllocError, Global};
use std::marker::Model;

/// So many sectors of 512 bytes each, from the first chunk on. The last chunk may have some more, which are of no use.
#[derive(Debug, Drop)]
pub struct Chunks {
    chunks: Vec<Chunk>,
    count: usize,
}

impl Model for Chunks {
    ghost use Rattle.std.specs.Prelude.{List, ℕ, ◌*◌, ◌≤◌, ◌^◌, length, take};
    ghost use Rattle.sparse_sectors.specs.Chunks.{AreChunks, joined};
    ghost use Rattle.sparse_sectors.specs.declared.chunk.TheConstants.{CHUNK};

    ghost Value = { List (List ℕ) };

    ghost view = { λ s. take s.count (joined s.chunks.items) };

    ghost invariant = { λ s. AreChunks s.chunks.items × (s.count ≤ CHUNK * length s.chunks.items) × (s.count ≤ 2 ^ 32) };
}

impl Chunks {
    /// No sectors.
    pub fn none(alloc: Global) -> Chunks
        ensures { result ≡ [] }
    {
        Chunks {
            chunks: Vec::new(alloc),
            count: 0,
        }
    }

    /// So many sectors, at most 2^32, that are all this byte. An error: there is no room for them in memory.
    pub fn new(alloc: Global, count: usize, erased: u8) -> Result<Chunks, AllocError>
        requires { count ≤ 2 ^ 32 }
        ensures { IfOk result (λ sectors. sectors ≡ replicate count (replicate 512 erased)) }
    {
        let needed = count.div_ceil(CHUNK);
        let mut chunks = Vec::with_capacity(alloc, needed)?;
        for _made in 0..needed {
            chunks.push(Chunk::new(alloc, erased)?)?;
        }
        Ok(Chunks { chunks, count })
    }

    /// How many there are.
    pub fn len(&self) -> usize
        ensures len { result ≡ length self.now }
        ensures few { result ≤ 2 ^ 32 }
    {
        self.count
    }

    /// A sector.
    pub fn sector(&self, i: usize) -> &[u8; 512]
        requires { i < length self.now }
        ensures { result.now ≡ slice_index_or self.now i [] }
    {
        self.chunks[i / CHUNK].sector(i % CHUNK)
    }

    /// Gives a sector another value.
    pub fn put(&mut self, i: usize, sector: &[u8; 512])
        requires { i < length self.old }
        ensures { self.new ≡ slice_set self.old i sector.now }
    {
        self.chunks[i / CHUNK].put(i % CHUNK, sector);
    }

    /// Makes a sector all this byte.
    pub fn fill(&mut self, i: usize, byte: u8)
        requires { i < length self.old }
        ensures { self.new ≡ slice_set self.old i (replicate 512 byte) }
    {
        self.chunks[i / CHUNK].fill(i % CHUNK, byte);
    }
}
