// The operation conditions register.
ghost use Rattle.std.specs.Prelude.{ℕ};

use std::marker::Model;

/// The OCR of a card: its voltage window, its addressing, and whether it has powered up (SD Physical Layer 6.00, section
/// 5.1; JESD84-B51, section 7.1). Contracts see it as a number of 32 bits.
#[derive(Clone, Copy, Debug, PartialEq, Eq)]
pub struct Ocr {
    register: u32,
}

impl Model for Ocr {
    ghost Value = { ℕ };

    ghost view = { λ ocr. ocr.register };

    ghost inverse = { λ n. record { register = n } };
}

impl Ocr {
    ghost use Rattle.std.specs.Prelude.{◌≡◌, ◌↔◌, IsTrue};
    ghost use Rattle.mmc_regs.specs.Ocr.{access_mode, card_capacity_status, power_up_status, window_at_3_3_volts};

    /// The OCR with these 32 bits.
    pub fn new(register: u32) -> Self
        ensures { result ≡ register }
    {
        Ocr { register }
    }

    /// Bit 31: whether the card has powered up.
    pub fn is_ready(self) -> bool
        ensures { IsTrue result ↔ (power_up_status self ≡ 1) }
    {
        self.register / 0x8000_0000 == 1
    }

    /// Bit 30, CCS of an SD card: whether it is addressed by sectors. It counts once the card is ready.
    pub fn has_sector_addresses(self) -> bool
        ensures { IsTrue result ↔ (card_capacity_status self ≡ 1) }
    {
        self.register / 0x4000_0000 % 2 == 1
    }

    /// Bits 30 and 29 of an eMMC device: 2 for sector addresses, 0 for byte addresses, 1 and 3 are reserved.
    pub fn access_mode(self) -> u8
        ensures { result ≡ access_mode self }
    {
        (self.register / 0x2000_0000 % 4) as u8
    }

    /// Bits 21 and 20: whether the card works from 3.2 to 3.4 V.
    pub fn accepts_3_3_volts(self) -> bool
        ensures { IsTrue result ↔ (window_at_3_3_volts self ≡ 3) }
    {
        self.register / 0x10_0000 % 4 == 3
    }
}
