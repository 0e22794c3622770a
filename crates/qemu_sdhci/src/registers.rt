ghost use Rattle.std.specs.Prelude.{◌<◌, ◌≤◌, None, length};
ghost use Rattle.mmc_sdhci.specs.Beside.{untold};
ghost use Rattle.mmc_sdhci.specs.Driver.{unkept_controller};

use crate::protocol::Conversation;
use mmc_bus::Blocks;
use mmc_sdhci::{Line, Registers, Table};
use sdhci_board::Words;

// Where the controller's registers stand; tests/qemu/run sets this up.
const BASE: u32 = 0xe000_0000;

// Memory of the machine that is lent to the controller: for a descriptor table, and for blocks.
const TABLE: u32 = 0x0010_0000;

const BLOCKS: u32 = 0x0020_0000;

// Five lines of a table: QEMU's controller waits after them for its clock, which stands still with its processor.
const MOST_BLOCKS: usize = 320;

/// The registers of QEMU's SD host controller.
#[derive(Drop)]
pub struct QemuRegisters {
    pub conversation: Conversation,
    /// Whether memory is lent for DMA.
    pub lends: bool,
}

// Where the block with this number stands in the machine's memory.
fn place_of(index: usize) -> u32
    requires { index < 320 }
    ensures { result ≤ 0x00227e00 }
{
    BLOCKS + 512 * index as u32
}

impl QemuRegisters {
    // Copies whole words to the machine's memory.
    fn put_words(&mut self, place: u32, bytes: &[u8])
        requires few { length bytes.now ≤ 512 }
        requires inside { place ≤ 0x00227e00 }
    {
        for i in 0..bytes.len() / 4 {
            let word = [
                bytes[4 * i],
                bytes[4 * i + 1],
                bytes[4 * i + 2],
                bytes[4 * i + 3],
            ];
            self.conversation
                .write(b"writel", place + 4 * i as u32, u32::from_le_bytes(word));
        }
    }

    // Copies a line of a table there.
    fn put_line(&mut self, index: usize, line: Line)
        requires { index < 1024 }
    {
        match line {
            Line::Narrow(bytes) => self.put_words(TABLE + 8 * index as u32, &bytes),
            Line::Wide(bytes) => self.put_words(TABLE + 12 * index as u32, &bytes),
        }
    }
}

impl Registers for QemuRegisters {
    // The proofs know no card behind QEMU.
    ghost view = { λ _. unkept_controller };

    ghost beside = { λ _. untold };

    ghost kept = { λ _. 0 };

    fn read32(&mut self, offset: u8) -> u32 {
        self.conversation.read(b"readl", BASE + u32::from(offset))
    }

    fn write32(&mut self, offset: u8, value: u32) {
        self.conversation
            .write(b"writel", BASE + u32::from(offset), value);
    }

    fn read8(&mut self, offset: u8) -> u8 {
        (self.conversation.read(b"readb", BASE + u32::from(offset)) % 256) as u8
    }

    fn write8(&mut self, offset: u8, value: u8) {
        self.conversation
            .write(b"writeb", BASE + u32::from(offset), u32::from(value));
    }

    fn lend_room(&mut self, count: usize) -> Option<u64> {
        if self.lends && count <= MOST_BLOCKS {
            Some(u64::from(BLOCKS))
        } else {
            None
        }
    }

    fn lend_blocks<D: Blocks>(&mut self, blocks: &D) -> Option<u64> {
        let count = blocks.len();
        if !self.lends || count > MOST_BLOCKS {
            return None;
        }
        for i in 0..count {
            self.put_words(place_of(i), blocks.block(i));
        }
        Some(u64::from(BLOCKS))
    }

    fn lend_table(&mut self, table: &Table) -> Option<u64> {
        for i in 0..table.len() {
            self.put_line(i, table.line(i));
        }
        Some(u64::from(TABLE))
    }

    fn take_place(&mut self, index: usize, block: &mut [u8; 512]) {
        if index >= MOST_BLOCKS {
            return;
        }
        let place = place_of(index);
        for i in 0..128 {
            let word = self.conversation.read(b"readl", place + 4 * i as u32);
            let [a, b, c, d] = word.to_le_bytes();
            block[4 * i] = a;
            block[4 * i + 1] = b;
            block[4 * i + 2] = c;
            block[4 * i + 3] = d;
        }
    }

    fn take_back(&mut self) {}

    // QEMU's controller takes no time.
    fn pause(&mut self, _micros: u32) {}

    fn kept_interrupts(&self) -> u32 {
        0
    }
}

impl Words for QemuRegisters {
    // Nothing is told of QEMU.
    ghost past = { λ _. None };

    fn read(&mut self, offset: u8) -> u32 {
        self.read32(offset)
    }

    fn write(&mut self, offset: u8, value: u32) {
        self.write32(offset, value);
    }

    // QEMU's controller takes no time.
    fn pause(&mut self, _micros: u32) {}
}
