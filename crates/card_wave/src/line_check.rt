// CRC16 of a data line, bit by bit.
ghost use Rattle.std.specs.Prelude.{◌≡◌, bit_xor, if◌then◌else◌};
ghost use Rattle.card_wave.specs.LineCheck.{line_check, times_x};

// The check with one bit more after.
pub(crate) fn with_bit(check: u16, bit: bool) -> u16
    ensures { result ≡ bit_xor (times_x check) (if bit then 4129 else 0) }
{
    let doubled = check % 0x8000 * 2;
    if (check >= 0x8000) == bit {
        doubled
    } else {
        doubled ^ 0x1021
    }
}

/// The CRC16 of the bits of a data line, in the order of sending: the remainder of the bits with sixteen zeros after them,
/// modulo x^16 + x^12 + x^5 + 1 (SD Physical Layer 6.00, section 4.5; JESD84-B51, section 8.2).
pub fn line_check_of(bits: &[bool]) -> u16
    ensures { result ≡ line_check bits.now }
{
    let mut check = 0;
    for bit in bits {
        check = with_bit(check, *bit);
    }
    check
}
