// Fields of registers, and registers from their bytes.
ghost use Rattle.std.specs.Prelude.{◌≡◌, ◌-◌, ◌<◌, ◌≤◌};
ghost use Rattle.mmc_frame.specs.Field.{field};
ghost use Rattle.mmc_regs.specs.Register.{checked_number};

use crate::fault::RegFault;
use byteorder::{BigEndian, ByteOrder};
use mmc_frame::check_fits;

/// The bits from `high` down to `low` of a register.
pub fn bits(register: u128, high: u32, low: u32) -> u128
    requires ordered { low ≤ high }
    requires part { high - low < 127 }
    requires inside { high < 128 }
    ensures { result ≡ field high low register }
{
    (register >> low) % (1 << (high - low + 1))
}

/// The number of a CID or CSD whose check fits and whose last bit is 1.
///
/// # Errors
/// `Check` where that isn't so.
pub fn read_checked(register: &[u8; 16]) -> Result<u128, RegFault>
    ensures { result ≡ checked_number register.now }
{
    if !check_fits(register) || register[15] % 2 != 1 {
        return Err(RegFault::Check);
    }
    Ok(BigEndian::read_u128(register))
}
