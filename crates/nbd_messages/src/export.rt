ghost use Rattle.std.specs.Prelude.{◌≡◌};
ghost use Rattle.nbd_messages.specs.Options.{block_size_info, export_answer, export_info, flag, flags_of};

use byteorder::{BigEndian, ByteOrder};

/// The smallest block of an export in bytes, and the one that it likes best: a sector.
pub const BLOCK_SIZE: u32 = 512;
/// The largest block in bytes: as many sectors as one request of a device may have.
pub const LARGEST_BLOCK: u32 = 524_288;

/// What an export can do.
#[derive(Clone, Copy, Debug, PartialEq, Eq)]
pub struct Abilities {
    /// It may not be written.
    pub read_only: bool,
    /// It takes a trim.
    pub trims: bool,
    /// It takes zeroes that are written.
    pub zeroes: bool,
}

// This number, where it holds.
fn flag(holds: bool, number: u16) -> u16
    ensures { result ≡ flag holds number }
{
    if holds { number } else { 0 }
}

impl Abilities {
    /// Its transmission flags: bit 0, that they say something; bit 1, that it is read only; bits 2 and 3, that it takes a flush and a
    /// write that holds once it is answered; bit 5, a trim; bit 6, zeroes.
    pub fn flags(self) -> u16
        ensures { result ≡ flags_of self }
    {
        1 + 4 + 8 + flag(self.read_only, 2) + flag(self.trims, 32) + flag(self.zeroes, 64)
    }
}

/// What an export of so many bytes is like, as a reply to an option says it.
pub fn export_info(size: u64, flags: u16) -> [u8; 12]
    ensures { result ≡ export_info size flags }
{
    let mut bytes = [0; 12];
    BigEndian::write_u64(&mut bytes[2..], size);
    BigEndian::write_u16(&mut bytes[10..], flags);
    bytes
}

/// The sizes of its blocks: the smallest, the one that it likes best, the largest.
pub fn block_size_info() -> [u8; 14]
    ensures { result ≡ block_size_info }
{
    let mut bytes = [0; 14];
    BigEndian::write_u16(&mut bytes, 3);
    BigEndian::write_u32(&mut bytes[2..], BLOCK_SIZE);
    BigEndian::write_u32(&mut bytes[6..], BLOCK_SIZE);
    BigEndian::write_u32(&mut bytes[10..], LARGEST_BLOCK);
    bytes
}

/// What an export is like, as `ExportName` is answered.
pub fn export_answer(size: u64, flags: u16) -> [u8; 10]
    ensures { result ≡ export_answer size flags }
{
    let mut bytes = [0; 10];
    BigEndian::write_u64(&mut bytes, size);
    BigEndian::write_u16(&mut bytes[8..], flags);
    bytes
}
