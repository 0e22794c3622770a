// Descriptor tables of ADMA2, as a controller reads them (SD Host Controller Simplified Specification 3.00, section 1.13.3).
use mmc_sdhci::{Line, Table};

// What a line says.
#[derive(Clone, Copy)]
struct Told {
    is_valid: bool,
    is_last: bool,
    // Act is Tran: data is moved.
    is_moving: bool,
    address: u64,
    // The address is that of a word: of 4 bytes in a narrow line, and of 8 in a wide one.
    is_aligned: bool,
    // in bytes
    size: u32,
}

// What its first four bytes say: attributes, and a length, of which 0 is 65,536 bytes.
fn told_by(first: [u8; 4], address: u64, is_aligned: bool) -> Told {
    let length = u16::from_le_bytes([first[2], first[3]]);
    Told {
        is_valid: first[0] % 2 == 1,
        is_last: first[0] / 2 % 2 == 1,
        is_moving: first[0] / 16 % 4 == 2,
        address,
        is_aligned,
        size: if length == 0 {
            0x1_0000
        } else {
            u32::from(length)
        },
    }
}

fn told_in(line: Line) -> Told {
    match line {
        Line::Narrow(bytes) => {
            let [a, b, c, d, e, f, g, h] = bytes;
            let address = u32::from_le_bytes([e, f, g, h]);
            told_by([a, b, c, d], u64::from(address), address % 4 == 0)
        }
        Line::Wide(bytes) => {
            let [a, b, c, d, e, f, g, h, i, j, k, l] = bytes;
            let address = u64::from_le_bytes([e, f, g, h, i, j, k, l]);
            told_by([a, b, c, d], address, address % 8 == 0)
        }
    }
}

/// Whether this table names just so many bytes of memory from this bus address on, one piece after the other.
pub fn names_just(table: &Table, start: u64, size: u32) -> bool {
    let mut named: u32 = 0;
    for i in 0..table.len() {
        let told = told_in(table.line(i));
        let is_next = told.address.checked_sub(start) == Some(u64::from(named));
        if !told.is_valid || !told.is_moving || !told.is_aligned || !is_next {
            return false;
        }
        named = named.saturating_add(told.size);
        if told.is_last {
            return named == size;
        }
    }
    false
}
