// What a fault leaves open: how what is unfinished turns out, which error is left over, and which errors a command finds.
ghost use Rattle.std.specs.Prelude.{◌≡◌};
ghost use Rattle.mmc_card_rows.specs.FaultErrors.{are_of_execution};

/// The lowest error bit in a status, bit 13.
pub const FIRST_ERROR: u32 = 0x2000;

/// The error bits that carrying a command out may raise, as a status has them.
pub const EXECUTION_ERRORS: u32 = 0xec39_8000;

/// How an unfinished write, erase or trim turns out where a fault leaves it open.
#[derive(Clone, Copy, Debug, PartialEq, Eq)]
pub enum Outcome {
    /// Each block or sector of it has its old value.
    Old,
    /// Each has its new value.
    New,
}

/// An error bit of a command that isn't carried out (SD Physical Layer 6.00, section 4.10.1).
#[derive(Clone, Copy, Debug, PartialEq, Eq)]
pub enum CommandError {
    /// COM_CRC_ERROR: its check was bad.
    ComCrc,
    /// ILLEGAL_COMMAND: it wasn't legal in the card's state.
    Illegal,
}

/// Whether these are error bits that carrying a command out may raise, one at least (SD Physical Layer 6.00, section 4.10.1;
/// JESD84-B51, section 6.13).
pub fn is_of_execution(bits: u32) -> bool
    ensures { result ≡ are_of_execution bits }
{
    bits | EXECUTION_ERRORS == EXECUTION_ERRORS && bits >= FIRST_ERROR
}
