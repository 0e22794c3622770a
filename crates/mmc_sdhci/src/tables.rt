// Descriptor tables of ADMA2 (SD Host Controller Simplified Specification 3.00, section 1.13.3).
ghost use Rattle.std.specs.Prelude.{◌+◌, ◌<◌, ◌≡◌, ◌≤◌, ◌^◌, false, true};
ghost use Rattle.mmc_sdhci.specs.Tables.{attributes, bytes_of, line, line_at, lines_for};

// The longest piece of memory that a line names, in bytes.
const PIECE: u32 = 0x8000;

/// A line of a table: its attributes, a length in bytes, and an address, the lowest byte first.
#[derive(Clone, Copy, Debug, PartialEq, Eq)]
pub enum Line {
    /// With an address of 32 bits.
    Narrow([u8; 8]),
    /// With an address of 64 bits.
    Wide([u8; 12]),
}

/// The descriptor table of memory in one piece by bus addresses: a line for each 32 KiB. Its lines follow each other, and it begins at a
/// multiple of 8.
#[derive(Clone, Copy, Debug)]
pub struct Table {
    start: u64,
    size: u32,
    is_wide: bool,
    ghost small: { size < 0x2000000 },
    ghost inside: { start + size < 2 ^ 64 },
    ghost low: { is_wide ≡ false → start + size ≤ 2 ^ 32 },
}

impl Table {
    /// The table of so many bytes, fewer than 32 MiB, from this bus address on: by addresses of 64 bits, or of 32, within which they are
    /// then.
    pub fn new(start: u64, size: u32, is_wide: bool) -> Table
        requires small { size < 0x2000000 }
        requires inside { start + size < 2 ^ 64 }
        requires low { is_wide ≡ false → start + size ≤ 2 ^ 32 }
        ensures start { result.start ≡ start }
        ensures size { result.size ≡ size }
        ensures width { result.is_wide ≡ is_wide }
    {
        Table {
            start,
            size,
            is_wide,
        }
    }

    /// Whether its addresses have 64 bits.
    pub fn is_wide(&self) -> bool
        ensures { result ≡ self.now.is_wide }
    {
        self.is_wide
    }

    /// How many lines it has, at most 1,024.
    pub fn len(&self) -> usize
        ensures value { result ≡ lines_for self.now.size }
        ensures few { result ≤ 1024 }
    {
        ((self.size + 0x7fff) / PIECE) as usize
    }

    /// The line with this number.
    pub fn line(&self, i: usize) -> Line
        requires { i < lines_for self.now.size }
        ensures { bytes_of result ≡ line_at self.now.is_wide self.now.start self.now.size i }
    {
        let done = PIECE * i as u32;
        let size = (self.size - done).min(PIECE) as u16;
        let is_last = i + 1 == self.len();
        if self.is_wide {
            wide_line(self.start + u64::from(done), size, is_last)
        } else {
            narrow_line((self.start + u64::from(done)) as u32, size, is_last)
        }
    }
}

fn attributes(is_last: bool) -> u16
    ensures { result ≡ attributes is_last }
{
    if is_last { 0x23 } else { 0x21 }
}

fn narrow_line(address: u32, size: u16, is_last: bool) -> Line
    ensures { bytes_of result ≡ line false address size is_last }
{
    let [a, b] = attributes(is_last).to_le_bytes();
    let [c, d] = size.to_le_bytes();
    let [e, f, g, h] = address.to_le_bytes();
    Line::Narrow([a, b, c, d, e, f, g, h])
}

fn wide_line(address: u64, size: u16, is_last: bool) -> Line
    ensures { bytes_of result ≡ line true address size is_last }
{
    let [a, b] = attributes(is_last).to_le_bytes();
    let [c, d] = size.to_le_bytes();
    let [e, f, g, h, i, j, k, l] = address.to_le_bytes();
    Line::Wide([a, b, c, d, e, f, g, h, i, j, k, l])
}
