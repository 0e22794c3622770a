// The card identification register.
ghost use Rattle.std.specs.Prelude.{◌≡◌, ℕ};
ghost use Rattle.mmc_regs.specs.Cid.{manufacturer, product_name};
ghost use Rattle.mmc_regs.specs.Register.{checked_number};

use crate::bits::{bits, read_checked};
use crate::fault::RegFault;
use mmc_frame::Kind;
use std::marker::Model;

/// The CID of a card, which tells it from all others (SD Physical Layer 6.00, section 5.2; JESD84-B51, section 7.2).
/// Contracts see it as a number of 128 bits.
#[derive(Clone, Copy, Debug, PartialEq, Eq)]
pub struct Cid {
    register: u128,
}

impl Model for Cid {
    ghost Value = { ℕ };

    ghost view = { λ cid. cid.register };

    ghost inverse = { λ n. record { register = n } };
}

impl Cid {
    /// The whole register, the byte that is sent first the highest.
    pub fn register(self) -> u128
        ensures { result ≡ self }
    {
        self.register
    }

    /// MID, bits 127 to 120: the number of the manufacturer.
    pub fn manufacturer(self) -> u8
        ensures { result ≡ manufacturer self }
    {
        bits(self.register, 127, 120) as u8
    }

    /// PNM, the name of the product as a number, its first character the highest byte: bits 103 to 64 of an SD card, five
    /// characters, and bits 103 to 56 of an eMMC device, six.
    pub fn product_name(self, kind: Kind) -> u64
        ensures { result ≡ product_name kind self }
    {
        match kind {
            Kind::Sd => bits(self.register, 103, 64) as u64,
            Kind::Mmc => bits(self.register, 103, 56) as u64,
        }
    }
}

/// The CID in these sixteen bytes, as they stand in an R2.
///
/// # Errors
/// `Check` where the CRC7 doesn't fit or bit 0 isn't 1; there is no other.
pub fn read_cid(register: &[u8; 16]) -> Result<Cid, RegFault>
    ensures { result ≡ checked_number register.now }
{
    let register = read_checked(register)?;
    Ok(Cid { register })
}
