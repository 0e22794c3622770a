ghost use Rattle.std.specs.Prelude.{◌≡◌, ◌+◌, ◌*◌, ◌≤◌, List, length, slice_range, ℕ};
ghost use Rattle.std.specs.Borrow.{Array, Lends, sem, u8 as byte};
ghost use Rattle.mmc_bus.specs.Bytes.{blocks_in, with_block, with_part};
ghost use Rattle.mmc_bus.specs.Lending.{IsRewritten};
ghost use Rattle.mmc_bus.specs.contracts.bytes.Bytes.{the_row};

use crate::blocks::{Blocks, BlocksMut};
use std::marker::Model;

/// Bytes of a request or an answer. Contracts see them as the list of the bytes.
#[derive(Debug, Drop)]
pub struct Bytes {
    items: Vec<u8>,
}

impl Model for Bytes {
    ghost use Rattle.std.specs.Prelude.{List, ℕ};

    ghost Value = { List ℕ };

    ghost view = { λ b. b.items.items };
}

impl Bytes {
    /// These bytes, taken over without a copy.
    pub fn new(items: Vec<u8>) -> Bytes
        ensures { result ≡ items.items }
    {
        Bytes { items }
    }

    /// The bytes.
    pub fn as_slice(&self) -> &[u8]
        ensures { result.now ≡ self.now }
    {
        self.items.as_slice()
    }

    /// The bytes, to be written.
    pub fn as_mut_slice(&mut self) -> &mut [u8]
        ensures* writes_back { sem 𝓛 (Lends the_row (Array byte 0) self.entry result (with_part self.old 0)) }
        ensures value { result.now ≡ self.old }
    {
        self.items.as_mut_slice()
    }

    // The bytes of this block.
    fn piece(&self, i: usize) -> &[u8; 512]
        requires room { 512 * i + 512 ≤ length self.now }
        ensures value { result.now ≡ slice_range self.now (512 * i) (512 * i + 512) }
    {
        match self.items[512 * i..512 * i + 512].as_array() {
            Some(block) => block,
            None => unreachable!(),
        }
    }

    fn slice_mut(&mut self, i: usize) -> &mut [u8]
        requires room { 512 * i + 512 ≤ length self.old }
        ensures* writes_back { sem 𝓛 (Lends the_row (Array byte 0) self.entry result (with_part self.old (512 * i))) }
        ensures value { result.now ≡ slice_range self.old (512 * i) (512 * i + 512) }
        ensures len { length result.now ≡ 512 }
    {
        self.items.slice_mut(512 * i..512 * i + 512)
    }

    fn piece_mut(&mut self, i: usize) -> &mut [u8; 512]
        requires room { 512 * i + 512 ≤ length self.old }
        ensures* writes_back { sem 𝓛 (Lends the_row (Array byte 0) self.entry result (with_part self.old (512 * i))) }
        ensures value { result.now ≡ slice_range self.old (512 * i) (512 * i + 512) }
    {
        as_block_mut(self.slice_mut(i))
    }

    /// The vector of the bytes, given back without a copy.
    pub fn into_vec(self) -> Vec<u8>
        ensures { result.items ≡ self }
    {
        let Bytes { items } = self;
        items
    }
}

// A slice of 512 bytes as a block.
fn as_block_mut(slice: &mut [u8]) -> &mut [u8; 512]
    requires { length slice.old ≡ 512 }
    ensures* writes_back { sem 𝓛 (Lends (Array byte 0) (Array byte 0) slice.entry result (λ left. left)) }
    ensures value { result.now ≡ slice.old }
{
    match slice.as_mut_array() {
        Some(block) => block,
        None => unreachable!(),
    }
}

/// A law: bytes that are lent as blocks keep their length. It does nothing.
pub fn lent_bytes_keep_their_length()
    ensures { (old new : List ℕ) → IsRewritten blocks_in with_block old new → length new ≡ length old }
{}

impl Blocks for Bytes {
    ghost use Rattle.mmc_bus.specs.Bytes.{blocks_in};

    ghost blocks = { blocks_in };

    /// Whole blocks: bytes after the last one aren't lent.
    fn len(&self) -> usize {
        self.as_slice().len() / 512
    }

    fn block(&self, i: usize) -> &[u8; 512] {
        self.piece(i)
    }
}

impl BlocksMut for Bytes {
    ghost use Rattle.mmc_bus.specs.Bytes.{with_block};
    ghost use Rattle.mmc_bus.specs.BlockLaws.{block_left, one_left, some_one};

    ghost with = { with_block };

    // One block at a time.
    ghost together = { λ bytes i most. 1 };

    ghost with_blocks = { λ bytes i most left. with_block bytes i left };

    fn block_mut(&mut self, i: usize) -> &mut [u8; 512] {
        self.piece_mut(i)
    }

    fn blocks_mut(&mut self, i: usize, most: usize) -> &mut [u8] {
        let _ = most;
        self.slice_mut(i)
    }

    ghost writes_one = { block_left };

    ghost has_some = { λ bytes i most some inside. some_one most some };

    ghost writes_all = { λ bytes i most left some inside long. one_left with_block bytes i left long };
}
