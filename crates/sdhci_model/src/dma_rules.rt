// What DMA wants where a command asks for it (bit 0 of Transfer Mode).
ghost use Rattle.std.specs.Prelude.{◌*◌, ◌+◌, ◌==◌, ◌≡◌, if◌then◌else◌};
ghost use Rattle.mmc_frame.specs.Field.{field};
ghost use Rattle.mmc_sdhci.specs.Accesses.{can_move, is_adma_set, is_dma_set, is_sdma_set};
ghost use Rattle.mmc_sdhci.specs.Lent.{is_lent_for, is_pointed};
ghost use Rattle.mmc_story.specs.Story.{Outcome};
ghost use Rattle.sdhci_model.specs.Shown.{shown};

use crate::lent::Loan;
use crate::rules::both;
use crate::state::State;
use mmc_host::Data;
use mmc_sdhci::crosses_none;

impl State {
    // Whether the memory that is lent is for just this data.
    fn is_lent_for(&self, transfer: Data) -> bool
        ensures { (outcome : Outcome) → result ≡ is_lent_for (shown outcome self.now).dma.lent transfer }
    {
        match (&self.loan, transfer) {
            (Loan::Room(room), Data::Read { length, blocks }) => length == 512 && *room == blocks,
            (Loan::ToGo(blocks), Data::Write { blocks: count }) => blocks.len() == count as usize,
            _ => false,
        }
    }

    // Whether the memory is at SDMA System Address.
    fn is_memory_pointed(&self) -> bool
        ensures { (outcome : Outcome) → result ≡ is_pointed (shown outcome self.now).dma.sdma_address self.now.memory }
    {
        match self.sdma_address {
            None => false,
            Some(address) => u64::from(address) == self.memory,
        }
    }

    // Whether there is SDMA (bit 22 of Capabilities), and the memory is where it looks for it, and is such as it moves.
    fn is_sdma_set(&self) -> bool
        ensures { (outcome : Outcome) → result ≡ is_sdma_set (shown outcome self.now) }
    {
        both(
            self.capabilities / 0x40_0000 % 2 == 1,
            both(
                self.is_memory_pointed(),
                crosses_none(self.memory, self.loan.size()),
            ),
        )
    }

    // Whether the table is at ADMA System Address: that which Host Control 1 selects.
    fn is_table_pointed(&self) -> bool
        ensures { (outcome : Outcome) → result ≡ (if field 4 3 self.now.control == 2
            then is_pointed (shown outcome self.now).dma.table self.now.address
            else is_pointed (shown outcome self.now).dma.wide_table (self.now.address + 0x100000000 * self.now.upper)) }
    {
        if self.control / 8 % 4 == 2 {
            match self.table {
                None => false,
                Some(table) => table == self.address,
            }
        } else {
            let address = u64::from(self.address) + 0x1_0000_0000 * u64::from(self.upper);
            match self.wide_table {
                None => false,
                Some(table) => table == address,
            }
        }
    }

    // Whether it is, and the errors of ADMA2 are shown.
    fn is_adma_set(&self) -> bool
        ensures { (outcome : Outcome) → result ≡ is_adma_set (shown outcome self.now) }
    {
        both(self.is_table_pointed(), self.shown / 0x200_0000 % 2 == 1)
    }

    // Whether all is set for the way that Host Control 1 selects.
    fn is_dma_set(&self) -> bool
        ensures { (outcome : Outcome) → result ≡ is_dma_set (shown outcome self.now) }
    {
        if self.control / 8 % 4 == 0 {
            self.is_sdma_set()
        } else {
            self.is_adma_set()
        }
    }

    /// Whether this data can be moved by DMA.
    pub fn can_move(&self, transfer: Data) -> bool
        ensures { (outcome : Outcome) → result ≡ can_move (shown outcome self.now) transfer }
    {
        both(self.is_lent_for(transfer), self.is_dma_set())
    }
}
