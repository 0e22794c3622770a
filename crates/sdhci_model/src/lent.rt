// Memory that is lent to the controller for SDMA and ADMA2 (SD Host Controller Simplified Specification 3.00, sections 1.4 and 1.13).
ghost use Rattle.std.specs.Prelude.{[], ◌%◌, ◌<◌, ◌≡◌, ◌≤◌, IfSome, List, None, Some, false, length, slice_index_or, true, ℕ};
ghost use Rattle.mmc_host.specs.declared.data.Data.TheVariants as Data;
ghost use Rattle.mmc_sdhci.specs.Lending.{Fits, FitsTable, lends_table, unlent};
ghost use Rattle.mmc_sdhci.specs.Lent.{Come, Room, ToGo, size_of};
ghost use Rattle.sdhci_model.specs.Moves.{ChangesTo, LendsFrom, WritesTo};
ghost use Rattle.sdhci_model.specs.Shown.{lent_in, to_go};

use crate::state::State;
use crate::tables::names_just;
use arrayvec::ArrayVec;
use mmc_bus::Blocks;
use mmc_host::Data;
use mmc_sdhci::{Table, has_dma};

/// So many blocks are lent at most.
pub const MOST_BLOCKS: usize = 16;

/// Blocks of 512 bytes in memory that is lent.
pub type Memory = ArrayVec<[u8; 512], MOST_BLOCKS>;

// The bus address of a table by addresses of 32 bits, and of one by 64, beyond 32 itself: they are never elsewhere.
const TABLE: u32 = 0x2000_0000;

const WIDE_TABLE: u64 = 0x20_2000_0000;

// Memory is lent below it, so that all of it has bus addresses of 64 bits.
const HIGHEST: u64 = 0xffff_ffff_0000_0000;

/// Memory that is lent.
#[derive(Drop)]
pub enum Loan {
    Nothing,
    /// Room for so many blocks.
    Room(u16),
    /// The blocks that have come.
    Come(Memory),
    /// The blocks that are to go.
    ToGo(Memory),
}

impl Loan {
    /// How many bytes.
    pub fn size(&self) -> u32
        ensures value { result ≡ size_of (lent_in self.now) }
        ensures small { result ≤ 0x1fffe00 }
    {
        match self {
            Loan::Nothing => 0,
            Loan::Room(room) => 512 * u32::from(*room),
            Loan::Come(blocks) | Loan::ToGo(blocks) => 512 * blocks.len() as u32,
        }
    }
}

// A copy of a block, whose length the proofs know.
fn copied(block: &[u8; 512]) -> [u8; 512]
    ensures same { result ≡ block.now }
    ensures long { length result ≡ 512 }
{
    *block
}

// Copies of these blocks.
fn copies<D: Blocks>(blocks: &D) -> Memory
    requires { length (D.blocks blocks.now) ≤ 16 }
    ensures { result.items ≡ D.blocks blocks.now }
{
    let mut memory = Memory::new();
    for i in 0..blocks.len() {
        memory.push(*blocks.block(i));
    }
    memory
}

impl State {
    // Whether the memory stands at whole words, and all of it within 64 bits.
    fn is_placed(&self) -> bool
        ensures { result ≡ true → (self.now.memory % 4 ≡ 0) × (self.now.memory < 0xffffffff00000000) }
    {
        self.memory % 4 == 0 && self.memory < HIGHEST
    }

    // Whether so much of it can be lent: there is DMA, and nothing is at work or lent.
    fn can_lend(&self, count: usize) -> bool {
        let is_free = matches!(self.loan, Loan::Nothing);
        has_dma(self.capabilities) && is_free && self.is_at_rest() && count >= 1
    }

    /// Lends room for so many blocks of 512 bytes.
    pub fn lend_room(&mut self, count: usize) -> Option<u64>
        ensures lends { LendsFrom self.old (Room count) result self.new }
        ensures fits { Fits result count }
    {
        if count > MOST_BLOCKS || !self.is_placed() || !self.can_lend(count) {
            return None;
        }
        self.loan = Loan::Room(count as u16);
        self.table = None;
        self.wide_table = None;
        Some(self.memory)
    }

    /// Lends these blocks.
    pub fn lend_blocks<D: Blocks>(&mut self, blocks: &D) -> Option<u64>
        ensures lends { LendsFrom self.old (ToGo (D.blocks blocks.now)) result self.new }
        ensures fits { Fits result (length (D.blocks blocks.now)) }
    {
        let count = blocks.len();
        if count > MOST_BLOCKS || !self.is_placed() || !self.can_lend(count) {
            return None;
        }
        self.loan = Loan::ToGo(copies(blocks));
        self.table = None;
        self.wide_table = None;
        Some(self.memory)
    }

    /// Lends a descriptor table, and tells where it stands; `None` where it doesn't name just the memory that is lent.
    pub fn lend_table(&mut self, table: &Table) -> Option<u64>
        ensures lends { IfSome result (λ address. ChangesTo self.old
            (λ view. lends_table view table.now.is_wide address) self.new) }
        ensures fits { FitsTable table.now.is_wide result }
    {
        if self.is_moving || !names_just(table, self.memory, self.loan.size()) {
            return None;
        }
        if table.is_wide() {
            self.wide_table = Some(WIDE_TABLE);
            Some(WIDE_TABLE)
        } else {
            self.table = Some(TABLE);
            Some(u64::from(TABLE))
        }
    }

    /// Fills a block with what has come into its place. It tells whether there is such a place.
    pub fn fill(&self, index: usize, block: &mut [u8; 512]) -> bool
        ensures filled { result ≡ true → (come : List (List ℕ)) → lent_in self.now.loan ≡ Some (Come come)
            → block.new ≡ slice_index_or come index [] }
        ensures whole { length block.new ≡ 512 }
    {
        match &self.loan {
            Loan::Nothing | Loan::ToGo(_) => false,
            Loan::Room(room) => index < usize::from(*room),
            Loan::Come(blocks) => {
                if index >= blocks.len() {
                    return false;
                }
                *block = copied(&blocks.as_slice()[index]);
                true
            }
        }
    }

    /// How many blocks are to go.
    pub fn count_to_go(&self) -> usize
        ensures { result ≡ length (to_go self.now) }
    {
        match &self.loan {
            Loan::ToGo(blocks) => blocks.len(),
            Loan::Nothing | Loan::Room(_) | Loan::Come(_) => 0,
        }
    }

    /// The block to go with this number.
    pub fn block_to_go(&self, index: usize) -> [u8; 512]
        requires { index < length (to_go self.now) }
        ensures { result ≡ slice_index_or (to_go self.now) index [] }
    {
        match &self.loan {
            Loan::ToGo(blocks) => copied(&blocks.as_slice()[index]),
            Loan::Nothing | Loan::Room(_) | Loan::Come(_) => [0; 512],
        }
    }

    /// Takes back what is lent. It tells whether something is.
    pub fn take_back(&mut self) -> bool
        ensures { result ≡ true → ChangesTo self.old (λ view. unlent view) self.new }
    {
        if matches!(self.loan, Loan::Nothing) || !self.is_at_rest() {
            return false;
        }
        self.loan = Loan::Nothing;
        self.table = None;
        self.wide_table = None;
        true
    }

    /// SDMA System Address is written.
    pub fn set_sdma_address(&mut self, value: u32)
        ensures { WritesTo self.old 0x00 value self.new }
    {
        self.sdma_address = Some(value);
    }

    /// ADMA System Address is written, its lower 32 bits.
    pub fn set_address(&mut self, value: u32)
        ensures { WritesTo self.old 0x58 value self.new }
    {
        self.address = value;
    }

    /// Its upper ones are written.
    pub fn set_upper(&mut self, value: u32)
        ensures { WritesTo self.old 0x5c value self.new }
    {
        self.upper = value;
    }

    /// All blocks that were to come have come, with Transfer Complete.
    pub fn end_read(&mut self, blocks: Memory)
        ensures { self.new ≡ record self.old { status = 2; transfer = Data.Nothing; loan = Loan.Come blocks; is_moving = false } }
    {
        self.status = 2;
        self.transfer = Data::Nothing;
        self.loan = Loan::Come(blocks);
        self.is_moving = false;
    }

    /// All blocks that were to go have gone, with Transfer Complete.
    pub fn end_write(&mut self)
        ensures { self.new ≡ record self.old { status = 2; transfer = Data.Nothing; is_moving = false } }
    {
        self.status = 2;
        self.transfer = Data::Nothing;
        self.is_moving = false;
    }
}
