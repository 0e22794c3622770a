// The registers.
ghost use Rattle.std.specs.Prelude.{◌≡◌};
ghost use Rattle.card_decode.specs.Reading.{is_in_r2, is_number};
ghost use Rattle.card_decode.specs.Registers.{is_low_first, register_len};

use mmc_frame::Kind;

/// A register of a card.
#[derive(Clone, Copy, Debug, PartialEq, Eq)]
pub enum Register {
    /// The operation conditions, four bytes (SD Physical Layer 6.00, section 5.1; JESD84-B51, section 7.1).
    Ocr(Kind),
    /// The card identification, sixteen bytes (SD Physical Layer 6.00, section 5.2; JESD84-B51, section 7.2).
    Cid(Kind),
    /// The card-specific data, sixteen bytes (SD Physical Layer 6.00, section 5.3; JESD84-B51, section 7.3).
    Csd(Kind),
    /// The SD configuration, eight bytes (SD Physical Layer 6.00, section 5.6).
    Scr,
    /// The extended card-specific data, 512 bytes (JESD84-B51, section 7.4).
    ExtCsd,
    /// The card status, four bytes (SD Physical Layer 6.00, section 4.10.1; JESD84-B51, section 6.13).
    CardStatus(Kind),
    /// What an SD card sends after CMD6, 64 bytes (SD Physical Layer 6.00, section 4.3.10.4).
    SwitchStatus,
}

impl Register {
    /// How many bytes the register has.
    pub fn size(self) -> usize
        ensures { result ≡ register_len self }
    {
        match self {
            Register::Ocr(_) | Register::CardStatus(_) => 4,
            Register::Cid(_) | Register::Csd(_) => 16,
            Register::Scr => 8,
            Register::ExtCsd => 512,
            Register::SwitchStatus => 64,
        }
    }

    /// Whether the register's first byte is its lowest.
    pub fn is_low_first(self) -> bool
        ensures { result ≡ is_low_first self }
    {
        matches!(self, Register::ExtCsd)
    }

    /// Whether the register is shown as a number of 32 bits.
    pub(crate) fn is_number(self) -> bool
        ensures { result ≡ is_number self }
    {
        matches!(self, Register::Ocr(_) | Register::CardStatus(_))
    }

    /// Whether an R2 carries the register (SD Physical Layer 6.00, section 4.9.3).
    pub(crate) fn is_in_r2(self) -> bool
        ensures { result ≡ is_in_r2 self }
    {
        matches!(self, Register::Cid(_) | Register::Csd(_))
    }
}
