// Sectors in memory.
ghost use Rattle.std.specs.Prelude.{◌+◌, ◌<◌, ◌^◌, ◌≡◌, ◌≤◌, IfOk, length, replicate, slice_index_or, slice_set, []};
ghost use Rattle.mmc_bus.specs.Bytes.{blocks_in};
ghost use Rattle.sparse_sectors.specs.SectorLists.{with_values};

use crate::chunks::Chunks;
use mmc_bus::{Blocks, BlocksMut, Bytes};
use std::alloc::{AllocError, Global};
use std::marker::Model;

/// Sectors of 512 bytes each, that are written and read by their number, from 0 on. No write is refused.
#[derive(Debug, Drop)]
pub struct Sectors {
    // The first sectors, in the bytes of an image, and those after them.
    image: Bytes,
    rest: Chunks,
}

impl Model for Sectors {
    ghost use Rattle.std.specs.Prelude.{List, ℕ, ◌++◌};
    ghost use Rattle.mmc_bus.specs.Bytes.{blocks_in};

    ghost Value = { List (List ℕ) };

    ghost view = { λ s. blocks_in s.image ++ s.rest };
}

impl Sectors {
    /// So many sectors, at most 2^32, that are all this byte. They take memory as they are written, in chunks, whose room
    /// is taken here as address space. An error: there is no such room.
    pub fn new(alloc: Global, count: usize, erased: u8) -> Result<Sectors, AllocError>
        requires { count ≤ 2 ^ 32 }
        ensures { IfOk result (λ sectors. sectors ≡ replicate count (replicate 512 erased)) }
    {
        let rest = Chunks::new(alloc, count, erased)?;
        Ok(Sectors {
            image: Bytes::new(Vec::new(alloc)),
            rest,
        })
    }

    /// The sectors of an image, whose bytes are taken over without a copy; bytes after the last whole sector are none.
    pub fn from_image(alloc: Global, image: Bytes) -> Sectors
        ensures { result ≡ blocks_in image }
    {
        Sectors {
            image,
            rest: Chunks::none(alloc),
        }
    }

    // How many there are.
    fn len(&self) -> usize
        ensures { result ≡ length self.now }
    {
        self.image.as_slice().len() / 512 + self.rest.len()
    }

    /// A sector.
    pub fn sector(&self, i: usize) -> &[u8; 512]
        requires { i < length self.now }
        ensures { result.now ≡ slice_index_or self.now i [] }
    {
        let first = self.image.len();
        if i < first {
            return self.image.block(i);
        }
        self.rest.sector(i - first)
    }

    /// Gives a sector another value.
    pub fn put(&mut self, i: usize, sector: &[u8; 512])
        requires { i < length self.old }
        ensures { self.new ≡ slice_set self.old i sector.now }
    {
        let first = self.image.len();
        if i < first {
            self.image.block_mut(i).copy_from_slice(sector);
            return;
        }
        self.rest.put(i - first, sector);
    }

    /// Gives the sectors from this one on these values.
    pub fn put_all(&mut self, first: usize, sectors: &[[u8; 512]])
        requires { first + length sectors.now ≤ length self.old }
        ensures { self.new ≡ with_values self.old first sectors.now }
    {
        // So each sector's number fits.
        prove!(first <= self.len());
        for i in 0..sectors.len() {
            self.put(first + i, &sectors[i]);
        }
    }

    // Makes a sector all this byte, in its place.
    fn fill_one(&mut self, i: usize, byte: u8)
        requires { i < length self.old }
        ensures { self.new ≡ slice_set self.old i (replicate 512 byte) }
    {
        let first = self.image.len();
        if i < first {
            self.image.block_mut(i).fill(byte);
            return;
        }
        self.rest.fill(i - first, byte);
    }

    /// Makes so many sectors, from this one on, all this byte.
    pub fn fill(&mut self, first: usize, count: usize, erased: u8)
        requires { first + count ≤ length self.old }
        ensures { self.new ≡ with_values self.old first (replicate count (replicate 512 erased)) }
    {
        // So each sector's number fits.
        prove!(first <= self.len());
        for i in 0..count {
            self.fill_one(first + i, erased);
        }
    }
}
