// The card-specific data register.
ghost use Rattle.std.specs.Prelude.{◌≡◌, ◌+◌, ◌*◌, ◌/◌, ◌^◌, ◌<◌, ◌↔◌, IfOk, IsTrue};
ghost use Rattle.mmc_regs.specs.Csd.{IsOfKind, IsSdCsd, csd_in, csd_number, erase_unit_of, erase_unit_v1, has_block_length, is_protected, lasting_csd, may_switch, sd_csd_of, sectors_of, v1_of};
ghost use Rattle.mmc_regs.specs.CsdFields.{perm_write_protect, tmp_write_protect};

use crate::bits::{bits, read_checked};
use crate::csd_fields::{CsdMmc, CsdV1, CsdV2};
use crate::fault::RegFault;
use mmc_frame::Kind;

/// The CSD of a card: its size, its erase unit and its write protection.
#[derive(Clone, Copy, Debug, PartialEq, Eq)]
pub enum Csd {
    /// Version 1.0, of an SD card of at most 2 GB.
    V1(CsdV1),
    /// Version 2.0, of an SD card with sector addresses.
    V2(CsdV2),
    /// That of an eMMC device.
    Mmc(CsdMmc),
}

// 2^exponent.
fn power_of_two(exponent: u8) -> u64
    requires { exponent < 32 }
    ensures { result ≡ 2 ^ exponent }
{
    1 << exponent
}

// The bytes of so many blocks: a size of 12 bits, a multiplier of 3 bits and a length of 4 bits.
fn bytes_by_blocks(size: u16, multiplier: u8, length: u8) -> u64
    requires size { size < 4096 }
    requires multiplier { multiplier < 8 }
    requires length { length < 16 }
    ensures { result ≡ (size + 1) * 2 ^ (multiplier + 2) * 2 ^ length }
{
    let blocks = (u64::from(size) + 1) * power_of_two(multiplier + 2);
    blocks * power_of_two(length)
}

impl Csd {
    /// The whole register, the byte that is sent first the highest.
    pub fn register(&self) -> u128
        ensures { result ≡ csd_number self.now }
    {
        match self {
            Csd::V1(csd) => csd.register(),
            Csd::V2(csd) => csd.register(),
            Csd::Mmc(csd) => csd.register(),
        }
    }

    /// PERM_WRITE_PROTECT: whether the card is write protected for good.
    pub fn perm_write_protect(&self) -> bool
        ensures { IsTrue result ↔ (perm_write_protect (csd_number self.now) ≡ 1) }
    {
        bits(self.register(), 13, 13) == 1
    }

    /// TMP_WRITE_PROTECT: whether the card is write protected for now.
    pub fn tmp_write_protect(&self) -> bool
        ensures { IsTrue result ↔ (tmp_write_protect (csd_number self.now) ≡ 1) }
    {
        bits(self.register(), 12, 12) == 1
    }

    /// Whether the card is write protected, for good or for now.
    pub fn read_only(&self) -> bool
        ensures { result ≡ is_protected (csd_number self.now) }
    {
        self.perm_write_protect() || self.tmp_write_protect()
    }

    /// Whether an SD card may know CMD6: CCC names class 10, or no class at all.
    pub fn may_switch(&self) -> bool
        ensures { result ≡ may_switch (csd_number self.now) }
    {
        let register = self.register();
        bits(register, 95, 84) == 0 || bits(register, 94, 94) == 1
    }

    /// What never changes of it: all above TMP_WRITE_PROTECT, which may come on by itself, and 0 from that bit on down.
    pub fn lasting(&self) -> Csd
        ensures { result ≡ lasting_csd self.now }
    {
        match self {
            Csd::V1(csd) => Csd::V1(csd.lasting()),
            Csd::V2(csd) => Csd::V2(csd.lasting()),
            Csd::Mmc(csd) => Csd::Mmc(csd.lasting()),
        }
    }

    /// The size of the user area in sectors of 512 bytes, rounded down. An eMMC device that is addressed by sectors has
    /// its size in the EXT_CSD instead.
    pub fn sectors(&self) -> u64
        ensures { result ≡ sectors_of self.now }
    {
        match self {
            Csd::V1(csd) => bytes_by_blocks(csd.c_size(), csd.c_size_mult(), csd.read_bl_len())
                / 512,
            Csd::V2(csd) => (u64::from(csd.c_size()) + 1) * 1024,
            Csd::Mmc(csd) => bytes_by_blocks(csd.c_size(), csd.c_size_mult(), csd.read_bl_len())
                / 512,
        }
    }

    /// The least that an SD card erases, in sectors: an erase starts and ends at a multiple of it. Of an eMMC device it
    /// stands in the EXT_CSD.
    pub fn erase_unit(&self) -> u64
        requires { IsSdCsd self.now }
        ensures { result ≡ erase_unit_of self.now }
    {
        match self {
            Csd::V1(csd) => erase_unit_v1(*csd),
            Csd::V2(_) => 1,
            Csd::Mmc(_) => unreachable!(),
        }
    }
}

// The erase unit of version 1.0.
fn erase_unit_v1(csd: CsdV1) -> u64
    ensures { result ≡ erase_unit_v1 csd }
{
    if csd.erase_blk_en() {
        return 1;
    }
    (u64::from(csd.sector_size()) + 1) * power_of_two(csd.write_bl_len() - 9)
}

// Whether a block has 512, 1024 or 2048 bytes.
fn has_block_length(exponent: u128) -> bool
    ensures { result ≡ has_block_length exponent }
{
    9 <= exponent && exponent <= 11
}

// A CSD of version 1.0: its two block lengths have to be ones that a card may have.
fn read_v1(register: u128) -> Result<Csd, RegFault>
    ensures { result ≡ v1_of register }
{
    if !has_block_length(bits(register, 83, 80)) || !has_block_length(bits(register, 25, 22)) {
        return Err(RegFault::Range);
    }
    Ok(Csd::V1(CsdV1::new(register)))
}

// The CSD of an SD card, by its version.
fn read_sd_csd(register: u128) -> Result<Csd, RegFault>
    ensures { result ≡ sd_csd_of register }
{
    let structure = bits(register, 127, 126);
    if structure == 0 {
        return read_v1(register);
    }
    if structure != 1 {
        return Err(RegFault::Structure);
    }
    Ok(Csd::V2(CsdV2::new(register)))
}

/// The CSD in these sixteen bytes, as they stand in an R2, of a card of this kind.
///
/// # Errors
/// The first that holds: `Check` where the CRC7 doesn't fit or bit 0 isn't 1; of an SD card `Structure` where
/// CSD_STRUCTURE is 2 or 3, and `Range` where READ_BL_LEN or WRITE_BL_LEN of version 1.0 isn't 9 to 11.
pub fn read_csd(kind: Kind, register: &[u8; 16]) -> Result<Csd, RegFault>
    ensures read { result ≡ csd_in kind register.now }
    ensures of_kind { IfOk result (λ csd. IsOfKind kind csd) }
{
    let register = read_checked(register)?;
    match kind {
        Kind::Sd => read_sd_csd(register),
        Kind::Mmc => Ok(Csd::Mmc(CsdMmc::new(register))),
    }
}
