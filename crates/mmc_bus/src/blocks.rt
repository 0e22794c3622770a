// Blocks that are lent to a transfer.
ghost use Rattle.std.specs.Prelude.{◌≡◌, ◌*◌, ◌+◌, ◌<◌, ◌≤◌, List, [], length, slice_index_or, slice_set, ℕ};
ghost use Rattle.std.specs.Borrow.{Array, Lends, sem, u8 as byte};
ghost use Rattle.mmc_bus.specs.Lending.{left_from};

/// A list of blocks of 512 bytes.
pub trait Blocks {
    ghost blocks: { Self → List (List ℕ) };

    /// How many blocks.
    fn len(&self) -> usize
        ensures { result ≡ length (blocks self.now) };

    /// The block with this number, counted from 0.
    fn block(&self, i: usize) -> &[u8; 512]
        requires { i < length (blocks self.now) }
        ensures { result.now ≡ slice_index_or (blocks self.now) i [] };
}

/// A list of blocks that can be written.
pub trait BlocksMut: Blocks {
    // The value after these bytes were left in a block.
    ghost with: { Self → ℕ → List ℕ → Self };

    // How many blocks from this one on are lent at once, of so many.
    ghost together: { Self → ℕ → ℕ → ℕ };

    // The value after these bytes were left in them.
    ghost with_blocks: { Self → ℕ → ℕ → List ℕ → Self };

    /// The block with this number, to be written.
    fn block_mut(&mut self, i: usize) -> &mut [u8; 512]
        requires { i < length (Self.blocks self.old) }
        ensures* writes_back { sem 𝓛 (Lends Self.row (Array byte 0) self.entry result (with self.old i)) }
        ensures value { result.now ≡ slice_index_or (Self.blocks self.old) i [] };

    /// As many of these blocks, from this number on, as lie next to each other in memory, one at least, as bytes to be written.
    fn blocks_mut(&mut self, i: usize, most: usize) -> &mut [u8]
        requires some { 0 < most }
        requires inside { i + most ≤ length (Self.blocks self.old) }
        ensures* writes_back { sem 𝓛 (Lends Self.row (Array byte 0) self.entry result (with_blocks self.old i most)) }
        ensures len { length result.now ≡ 512 * together self.old i most };

    // It changes that block and no other.
    ghost writes_one: { (s : Self) (i : ℕ) (left : List ℕ) → i < length (Self.blocks s) → length left ≡ 512
        → Self.blocks (with s i left) ≡ slice_set (Self.blocks s) i left };

    // It is one at least, and no more than were asked for.
    ghost has_some: { (s : Self) (i most : ℕ) → 0 < most → i + most ≤ length (Self.blocks s)
        → (0 < together s i most) × (together s i most ≤ most) };

    // It is as if each were left in its block, one after the other.
    ghost writes_all: { (s : Self) (i most : ℕ) (left : List ℕ) → 0 < most → i + most ≤ length (Self.blocks s)
        → length left ≡ 512 * together s i most
        → with_blocks s i most left ≡ left_from with s i left (together s i most) };
}
