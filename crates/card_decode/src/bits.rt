// Bits of a register.
ghost use Rattle.std.specs.Prelude.{◌≡◌, ◌+◌, ◌-◌, ◌*◌, ◌/◌, ◌%◌, ◌^◌, ◌<◌, ◌≤◌, ◌↔◌, length, IsTrue};
ghost use Rattle.mmc_frame.specs.Field.{field};
ghost use Rattle.card_decode.specs.Registers.{number_of};

use crate::register::Register;

// The byte that holds bits 8 * place + 7 to 8 * place.
fn byte_at(register: Register, bytes: &[u8], place: usize) -> u8
    requires { place < length bytes.now }
    ensures { result ≡ number_of register bytes.now / 2 ^ (8 * place) % 256 }
{
    if register.is_low_first() {
        bytes[place]
    } else {
        bytes[bytes.len() - 1 - place]
    }
}

// The bit at this place, the lowest at 0.
fn bit_at(register: Register, bytes: &[u8], place: usize) -> u64
    requires { place < 8 * length bytes.now }
    ensures { result ≡ number_of register bytes.now / 2 ^ place % 2 }
{
    let byte = byte_at(register, bytes, place / 8);
    u64::from((byte >> (place % 8)) % 2)
}

/// The bits from `high` down to `low` of a register.
pub fn bits(register: Register, bytes: &[u8], high: u16, low: u16) -> u64
    requires ordered { low ≤ high }
    requires narrow { high - low < 64 }
    requires inside { high < 8 * length bytes.now }
    ensures { result ≡ field high low (number_of register bytes.now) }
{
    let mut value = 0;
    for count in 0..high - low + 1 {
        value = value * 2 + bit_at(register, bytes, usize::from(high - count));
    }
    value
}

/// Whether the bits from `high` down to `low` of a register are all 0.
pub fn is_zero(register: Register, bytes: &[u8], high: u16, low: u16) -> bool
    requires ordered { low ≤ high }
    requires inside { high < 8 * length bytes.now }
    ensures { IsTrue result ↔ (field high low (number_of register bytes.now) ≡ 0) }
{
    let mut zero = true;
    for count in 0..usize::from(high - low) + 1 {
        if bit_at(register, bytes, usize::from(low) + count) != 0 {
            zero = false;
        }
    }
    zero
}
