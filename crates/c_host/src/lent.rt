// Sectors in C's memory, lent to a run as blocks. Nothing is copied.
ghost use Rattle.std.specs.Prelude.{◌≡◌, ◌*◌, ◌+◌, ◌<◌, ◌≤◌, [], length, slice_index_or, slice_set};
ghost use Rattle.std.specs.Borrow.{Array, Lends, sem, u8 as byte};
ghost use Rattle.c_host.specs.Run.{holding, with_run};

use mmc_bus::{Blocks, BlocksMut};

/// Blocks that are written, or read into.
#[derive(Drop)]
pub struct SectorsMut<'a> {
    /// The caller's memory.
    pub blocks: &'a mut [[u8; 512]],
}

impl Blocks for SectorsMut<'_> {
    ghost blocks = { λ lent. lent.blocks.now };

    fn len(&self) -> usize {
        self.blocks.len()
    }

    fn block(&self, i: usize) -> &[u8; 512] {
        let blocks = &*self.blocks;
        &blocks[i]
    }
}

// These blocks of a slice, as bytes. Proved by hand, since a raw pointer is cast.
fn bytes_of(blocks: &mut [[u8; 512]], first: usize, count: usize) -> &mut [u8]
    requires { first + count ≤ length blocks.old }
    ensures* writes_back { sem 𝓛 (Lends (Array (Array byte 0) 0) (Array byte 0) blocks.entry result
        (with_run blocks.old first count)) }
    ensures len { length result.now ≡ 512 * count }
{
    unsafe {
        std::slice::from_raw_parts_mut(blocks.as_mut_ptr().add(first) as *mut u8, 512 * count)
    }
}

// The block with this number, of a slice.
fn at(blocks: &mut [[u8; 512]], i: usize) -> &mut [u8; 512]
    requires { i < length blocks.old }
    ensures* writes_back { sem 𝓛 (Lends (Array (Array byte 0) 0) (Array byte 0) blocks.entry result
        (slice_set blocks.old i)) }
    ensures value { result.now ≡ slice_index_or blocks.old i [] }
{
    &mut blocks[i]
}

impl BlocksMut for SectorsMut<'_> {
    ghost use Rattle.std.proofs.Common.{le_refl, refl};
    ghost use Rattle.c_host.specs.RunLaws.{run_left};

    ghost with = { λ lent i left. holding lent (slice_set lent.blocks.now i left) };

    ghost together = { λ lent i most. most };

    ghost with_blocks = { λ lent i most left. holding lent (with_run lent.blocks.now i most left) };

    // Proved by hand, since a slice is lent that a struct holds by a `&mut`.
    fn block_mut(&mut self, i: usize) -> &mut [u8; 512] {
        at(self.blocks, i)
    }

    fn blocks_mut(&mut self, i: usize, most: usize) -> &mut [u8] {
        bytes_of(self.blocks, i, most)
    }

    ghost writes_one = { λ lent i left inside long. refl };

    ghost has_some = { λ lent i most some inside. (some, le_refl most) };

    ghost writes_all = { λ lent i most left some inside long.
        run_left (λ lent i left. holding lent (slice_set lent.blocks.now i left)) (holding lent) (λ blocks i left. refl)
        lent.blocks.now i most left inside };
}
