// The SD configuration register.
ghost use Rattle.std.specs.Prelude.{ℕ};

use byteorder::{BigEndian, ByteOrder};
use std::marker::Model;

/// The SCR of an SD card (SD Physical Layer 6.00, section 5.6). Contracts see it as a number of 64 bits.
#[derive(Clone, Copy, Debug, PartialEq, Eq)]
pub struct Scr {
    register: u64,
}

impl Model for Scr {
    ghost Value = { ℕ };

    ghost view = { λ scr. scr.register };

    ghost inverse = { λ n. record { register = n } };
}

impl Scr {
    ghost use Rattle.std.specs.Prelude.{◌≡◌, ◌↔◌, IsTrue};
    ghost use Rattle.mmc_regs.specs.Scr.{erased_byte, four_lines, scr_number, sd_spec, set_block_count};

    /// The SCR in these eight bytes, as a card sends them, the highest first.
    pub fn new(block: &[u8; 8]) -> Self
        ensures { result ≡ scr_number block.now }
    {
        Scr {
            register: BigEndian::read_u64(block),
        }
    }

    /// SD_SPEC, bits 59 to 56: 0 for a card of version 1.01 or less, which has no CMD6.
    pub fn sd_spec(self) -> u8
        ensures { result ≡ sd_spec self }
    {
        (self.register / 0x100_0000_0000_0000 % 16) as u8
    }

    /// What each byte of an erased sector holds, 00h or FFh by DATA_STAT_AFTER_ERASE, bit 55.
    pub fn erased_byte(self) -> u8
        ensures { result ≡ erased_byte self }
    {
        if self.register / 0x80_0000_0000_0000 % 2 == 0 {
            0x00
        } else {
            0xff
        }
    }

    /// Whether the card can use four data lines, bit 50.
    pub fn has_four_lines(self) -> bool
        ensures { IsTrue result ↔ (four_lines self ≡ 1) }
    {
        self.register / 0x4_0000_0000_0000 % 2 == 1
    }

    /// Whether the card takes CMD23, SET_BLOCK_COUNT, bit 33.
    pub fn has_set_block_count(self) -> bool
        ensures { IsTrue result ↔ (set_block_count self ≡ 1) }
    {
        self.register / 0x2_0000_0000 % 2 == 1
    }
}
