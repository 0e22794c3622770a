// The buffers of a group, lent as the blocks of its extent.
ghost use Rattle.std.specs.Prelude.{◌≡◌, ◌+◌, ◌-◌, ◌<◌, [], length, slice_index_or, MatchOption, None};
ghost use Rattle.std.specs.Borrow.{Array, Lends, sem, u8 as byte};
ghost use Rattle.mmc_bus.specs.Bytes.{blocks_in};
ghost use Rattle.mmc_queue.specs.contracts.entry.Entry.{the_row as entry_row};
ghost use Rattle.mmc_queue.specs.contracts.group.Group.{the_row as group_row};
ghost use Rattle.mmc_queue.specs.Lent.{IsFirst, IsPlace, block_at, blocks_held, entry_at, has_block, held_by, with_buffer, with_entry};

use crate::entry::Entry;
use crate::group::Group;
use crate::held::Held;
use crate::request::Request;
use mmc_bus::{Blocks, BlocksMut};

impl Entry {
    // How many blocks it has.
    fn blocks_len(&self, held: Held) -> usize
        ensures { result ≡ length (blocks_in (held_by held self.now)) }
    {
        match held {
            Held::Room => self.buffer.len(),
            Held::Bytes => match &self.request {
                Request::Write { bytes, .. } => bytes.len(),
                _ => 0,
            },
        }
    }

    fn block(&self, held: Held, i: usize) -> &[u8; 512]
        requires { i < length (blocks_in (held_by held self.now)) }
        ensures { result.now ≡ slice_index_or (blocks_in (held_by held self.now)) i [] }
    {
        match held {
            Held::Room => self.buffer.block(i),
            Held::Bytes => match &self.request {
                Request::Write { bytes, .. } => bytes.block(i),
                _ => unreachable!(),
            },
        }
    }

    // Whether it has a block for the sector.
    fn has_block(&self, held: Held, sector: u64) -> bool
        ensures { result ≡ has_block self.now (held_by held self.now) sector }
    {
        let start = self.request.start();
        start <= sector && (sector as u128) < start as u128 + self.blocks_len(held) as u128
    }

    fn block_mut(&mut self, i: usize) -> &mut [u8; 512]
        requires { i < length (blocks_in self.old.buffer) }
        ensures* writes_back { sem 𝓛 (Lends entry_row (Array byte 0) self.entry result (with_buffer self.old i)) }
        ensures value { result.now ≡ slice_index_or (blocks_in self.old.buffer) i [] }
    {
        self.buffer.block_mut(i)
    }

    // The same as a slice.
    fn bytes_mut(&mut self, i: usize) -> &mut [u8]
        requires { i < length (blocks_in self.old.buffer) }
        ensures* writes_back { sem 𝓛 (Lends entry_row (Array byte 0) self.entry result (with_buffer self.old i)) }
        ensures len { length result.now ≡ 512 }
    {
        self.buffer.blocks_mut(i, 1)
    }
}

impl Group {
    fn member(&self, k: usize) -> &Entry
        requires { k < length self.now.members.items }
        ensures { result.now ≡ entry_at self.now.members.items k }
    {
        &self.members[k]
    }

    fn member_mut(&mut self, k: usize) -> &mut Entry
        requires { k < length self.old.members.items }
        ensures* writes_back { sem 𝓛 (Lends group_row entry_row self.entry result (with_entry self.old k)) }
        ensures value { result.now ≡ entry_at self.old.members.items k }
    {
        match self.members.get_mut(k) {
            Some(member) => member,
            None => unreachable!(),
        }
    }

    fn member_block_mut(&mut self, k: usize, i: usize) -> &mut [u8; 512]
        requires member { k < length self.old.members.items }
        requires block { i < length (blocks_in (entry_at self.old.members.items k).buffer) }
        ensures* writes_back { sem 𝓛 (Lends group_row (Array byte 0) self.entry result (λ left. with_entry self.old k (with_buffer (entry_at self.old.members.items k) i left))) }
        ensures value { result.now ≡ slice_index_or (blocks_in (entry_at self.old.members.items k).buffer) i [] }
    {
        self.member_mut(k).block_mut(i)
    }

    fn member_bytes_mut(&mut self, k: usize, i: usize) -> &mut [u8]
        requires member { k < length self.old.members.items }
        requires block { i < length (blocks_in (entry_at self.old.members.items k).buffer) }
        ensures* writes_back { sem 𝓛 (Lends group_row (Array byte 0) self.entry result (λ left. with_entry self.old k (with_buffer (entry_at self.old.members.items k) i left))) }
        ensures len { length result.now ≡ 512 }
    {
        self.member_mut(k).bytes_mut(i)
    }

    // The first member that has a block for the sector.
    fn first_for(&self, held: Held, sector: u64) -> Option<usize>
        ensures { MatchOption result (block_at (held_by held) self.now.members.items sector ≡ None) (λ k. IsFirst held self.now.members.items sector k) }
    {
        for k in 0..self.members.len() {
            if self.member(k).has_block(held, sector) {
                return Some(k);
            }
        }
        None
    }

    // The member that has the block with this number, and which of its blocks it is.
    fn place(&self, held: Held, i: usize) -> (usize, usize)
        requires { i < length (blocks_held held self.now) }
        ensures { IsPlace held self.now.members.items (self.now.extent.start + i) result.0 result.1 }
    {
        let sector = self.extent.sector(i);
        match self.first_for(held, sector) {
            Some(k) => (k, (sector - self.member(k).request.start()) as usize),
            None => unreachable!(),
        }
    }

    fn count_held(&self, held: Held) -> usize
        ensures { result ≡ length (blocks_held held self.now) }
    {
        let mut len = 0;
        for sector in self.extent.start..self.extent.end {
            let Some(_) = self.first_for(held, sector) else {
                return len;
            };
            len += 1;
        }
        len
    }

    fn block_held(&self, held: Held, i: usize) -> &[u8; 512]
        requires { i < length (blocks_held held self.now) }
        ensures { result.now ≡ slice_index_or (blocks_held held self.now) i [] }
    {
        let (k, j) = self.place(held, i);
        self.member(k).block(held, j)
    }

    /// The bytes that the writes of a group bring, as the blocks of its extent.
    pub fn writes(&self) -> Writes<'_>
        ensures { result.group.now ≡ self.now }
    {
        Writes { group: self }
    }
}

/// The bytes that the writes of a group bring, as the blocks of its extent. Nothing is copied.
#[derive(Drop)]
pub struct Writes<'a> {
    group: &'a Group,
}

impl Blocks for Group {
    ghost use Rattle.mmc_queue.specs.Lent.{blocks_of};

    ghost blocks = { blocks_of };

    /// The sectors of the extent, up to the first for which no member has room: of a group of reads all.
    fn len(&self) -> usize {
        self.count_held(Held::Room)
    }

    fn block(&self, i: usize) -> &[u8; 512] {
        self.block_held(Held::Room, i)
    }
}

impl<'a> Blocks for Writes<'a> {
    ghost use Rattle.mmc_queue.specs.Lent.{write_blocks_of};

    ghost blocks = { λ w. write_blocks_of w.group.now };

    /// The sectors of the extent, up to the first for which no member brings bytes: of a group of writes all.
    fn len(&self) -> usize {
        self.group.count_held(Held::Bytes)
    }

    fn block(&self, i: usize) -> &[u8; 512] {
        self.group.block_held(Held::Bytes, i)
    }
}

impl BlocksMut for Group {
    ghost use Rattle.mmc_queue.specs.Lent.{with_lent};
    ghost use Rattle.mmc_bus.specs.BlockLaws.{one_left, some_one};
    ghost use Rattle.mmc_queue.specs.LentLaws.{one_written};

    ghost with = { with_lent };

    // One block at a time.
    ghost together = { λ group i most. 1 };

    ghost with_blocks = { λ group i most left. with_lent group i left };

    fn block_mut(&mut self, i: usize) -> &mut [u8; 512] {
        let (k, j) = self.place(Held::Room, i);
        self.member_block_mut(k, j)
    }

    fn blocks_mut(&mut self, i: usize, most: usize) -> &mut [u8] {
        let _ = most;
        let (k, j) = self.place(Held::Room, i);
        self.member_bytes_mut(k, j)
    }

    ghost writes_one = { one_written };

    ghost has_some = { λ group i most some inside. some_one most some };

    ghost writes_all = { λ group i most left some inside long. one_left with_lent group i left long };
}
