// The card status.
ghost use Rattle.std.specs.Prelude.{⊤, ◌≡◌, ◌≤◌, ◌↔◌, [], ◌∷◌, codes, IsNone, IfSome, IsTrue};
ghost use Rattle.mmc_frame.specs.Field.{field};
ghost use Rattle.mmc_frame.specs.declared.kind.Kind.{Kind};
ghost use Rattle.mmc_frame.specs.Status.{IsAtWork, IsClean, bits_in, error_bits, own_status, state_number};

use crate::card_state::State;
use crate::kind::Kind;
use bitflags::{Flag, Flags, bitflag_items};

/// A set of the named bits of a card status (SD Physical Layer 6.00, table 4-42; JESD84-B51, table 68).
#[derive(Clone, Copy, PartialEq, Eq, Debug)]
pub struct Status(u32);

bitflag_items! {
    impl Status: u32 {
        const OUT_OF_RANGE = 0x8000_0000;
        const ADDRESS_ERROR = 0x4000_0000;
        const BLOCK_LEN_ERROR = 0x2000_0000;
        const ERASE_SEQ_ERROR = 0x1000_0000;
        const ERASE_PARAM = 0x0800_0000;
        const WP_VIOLATION = 0x0400_0000;
        const CARD_IS_LOCKED = 0x0200_0000;
        const LOCK_UNLOCK_FAILED = 0x0100_0000;
        const COM_CRC_ERROR = 0x0080_0000;
        const ILLEGAL_COMMAND = 0x0040_0000;
        const CARD_ECC_FAILED = 0x0020_0000;
        const CC_ERROR = 0x0010_0000;
        const ERROR = 0x0008_0000;
        const CSD_OVERWRITE = 0x0001_0000;
        const WP_ERASE_SKIP = 0x0000_8000;
        const ERASE_RESET = 0x0000_2000;
        const READY_FOR_DATA = 0x0000_0100;
        const SWITCH_ERROR = 0x0000_0080;
        const APP_CMD = 0x0000_0020;
    }
}

impl Flags for Status {
    type Bits = u32;

    ghost exact = { ⊤ };

    ghost table = { (codes "OUT_OF_RANGE", 0x80000000) ∷ (codes "ADDRESS_ERROR", 0x40000000) ∷ (codes "BLOCK_LEN_ERROR", 0x20000000)
        ∷ (codes "ERASE_SEQ_ERROR", 0x10000000) ∷ (codes "ERASE_PARAM", 0x08000000) ∷ (codes "WP_VIOLATION", 0x04000000)
        ∷ (codes "CARD_IS_LOCKED", 0x02000000) ∷ (codes "LOCK_UNLOCK_FAILED", 0x01000000) ∷ (codes "COM_CRC_ERROR", 0x00800000)
        ∷ (codes "ILLEGAL_COMMAND", 0x00400000) ∷ (codes "CARD_ECC_FAILED", 0x00200000) ∷ (codes "CC_ERROR", 0x00100000)
        ∷ (codes "ERROR", 0x00080000) ∷ (codes "CSD_OVERWRITE", 0x00010000) ∷ (codes "WP_ERASE_SKIP", 0x00008000)
        ∷ (codes "ERASE_RESET", 0x00002000) ∷ (codes "READY_FOR_DATA", 0x00000100) ∷ (codes "SWITCH_ERROR", 0x00000080)
        ∷ (codes "APP_CMD", 0x00000020) ∷ [] };

    ghost set_of = { λ s. s.0 };

    fn flags<'a>() -> &'a [Flag<Status>] {
        Status::FLAGS
    }

    fn bits(&self) -> u32 {
        self.0
    }

    fn from_bits_retain(bits: u32) -> Status {
        Status(bits)
    }
}

// The bits that report an error: for eMMC, SWITCH_ERROR too.
const SD_ERRORS: u32 = 0xfdf9_a000;

const MMC_ERRORS: u32 = 0xfdf9_a080;

/// The state that a card status shows in bits 12 to 9, or `None` for the numbers 9 to 15, which name no state.
pub fn state(status: u32) -> Option<State>
    ensures shown { IfSome result (λ s. state_number s ≡ field 12 9 status) }
    ensures reserved { IsNone result ↔ (9 ≤ field 12 9 status) }
{
    match status / 512 % 16 {
        0 => Some(State::Idle),
        1 => Some(State::Ready),
        2 => Some(State::Ident),
        3 => Some(State::Stby),
        4 => Some(State::Tran),
        5 => Some(State::Data),
        6 => Some(State::Rcv),
        7 => Some(State::Prg),
        8 => Some(State::Dis),
        _ => None,
    }
}

/// The errors that a card status reports.
pub fn errors(kind: Kind, status: u32) -> Status
    ensures { bits_in result ≡ error_bits kind status }
{
    let mask = match kind {
        Kind::Sd => SD_ERRORS,
        Kind::Mmc => MMC_ERRORS,
    };
    Status(status & mask)
}

/// A card status without bits 23 and 22, COM_CRC_ERROR and ILLEGAL_COMMAND, which tell of a command before the one that is
/// answered (SD Physical Layer 6.00, section 4.10.1, clear condition B; JESD84-B51, section 6.13).
pub fn own_status(status: u32) -> u32
    ensures own { result ≡ own_status status }
    ensures clear { (kind : Kind) → error_bits kind status ≡ 0 → result ≡ status }
{
    status - status / 0x0040_0000 % 4 * 0x0040_0000
}

/// Whether a card status reports no error, the state tran and bit 8, READY_FOR_DATA.
pub fn is_clean(kind: Kind, status: u32) -> bool
    ensures { IsTrue result ↔ IsClean kind status }
{
    errors(kind, status).0 == 0 && status / 512 % 16 == 4 && status / 256 % 2 == 1
}

/// Whether a card status reports no error, and that the card is still on its way to tran: the state stby, data, rcv or prg, or
/// tran without bit 8, READY_FOR_DATA.
pub fn is_at_work(kind: Kind, status: u32) -> bool
    ensures { IsTrue result ↔ IsAtWork kind status }
{
    let state = status / 512 % 16;
    errors(kind, status).0 == 0 && (3..=7).contains(&state) && (state != 4 || status / 256 % 2 == 0)
}
