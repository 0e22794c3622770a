// What a board knows in place of its controller.
ghost use Rattle.std.specs.Prelude.{◌%◌, ◌≡◌};
ghost use Rattle.sdhci_board.specs.Boards.{byte_in, shown, with_byte, word_at};

use mmc_sdhci::{CAPABILITIES, PRESENT};

/// How a controller knows whether a card is in its slot.
#[derive(Clone, Copy, Debug, PartialEq, Eq)]
pub enum Slot {
    /// It is told by switches.
    Wired,
    /// It can't: the card is soldered, or the switches aren't wired to it. There is always a card, that may be written to.
    AlwaysThere,
}

/// What a board knows in place of its controller.
#[derive(Clone, Copy, Debug, PartialEq, Eq)]
pub struct Known {
    /// Whether a card is always there.
    pub slot: Slot,
    /// What stands in place of Capabilities (40h), where that reads 0 or is wrong: the base clock in MHz in bits 15 to 8 (63 at most of a
    /// controller before 3.00, whose driver otherwise takes it for not told), and bits 18 for eight lines, 21 for high speed, and 24 for
    /// 3.3 V (SD Host Controller Simplified Specification 3.00, section 2.2.24).
    pub capabilities: Option<u32>,
}

impl Known {
    /// What is shown of the word at this offset, which reads so.
    pub fn shown(&self, offset: u8, value: u32) -> u32
        ensures { result ≡ shown self.now offset value }
    {
        match (offset, self.slot) {
            (PRESENT, Slot::AlwaysThere) => value | THERE,
            (CAPABILITIES, _) => self.capabilities.unwrap_or(value),
            _ => value,
        }
    }
}

// Card Inserted, Card State Stable, Card Detect Pin Level and Write Protect Switch Pin Level (section 2.2.9).
const THERE: u32 = 0xf_0000;

/// Where a byte's word stands.
pub fn word_at(offset: u8) -> u8
    ensures at { result ≡ word_at offset }
    ensures whole { result % 4 ≡ 0 }
{
    offset - offset % 4
}

/// A byte of its word.
pub fn byte_in(offset: u8, word: u32) -> u8
    ensures { result ≡ byte_in offset word }
{
    word.to_le_bytes()[usize::from(offset % 4)]
}

/// The word with this byte.
pub fn with_byte(offset: u8, word: u32, value: u8) -> u32
    ensures { result ≡ with_byte offset word value }
{
    let mut bytes = word.to_le_bytes();
    bytes[usize::from(offset % 4)] = value;
    u32::from_le_bytes(bytes)
}
