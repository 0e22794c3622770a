// The CSD of a new card.
ghost use Rattle.std.specs.Prelude.{◌≡◌, ◌*◌, ◌<◌, ◌^◌};
ghost use Rattle.mmc_regs.specs.Register.{checked_register};
ghost use Rattle.card_maker.specs.NewRegisters.{csd_by_blocks, csd_v2};
ghost use Rattle.card_maker.specs.declared.csd.TheConstants.{MMC_FIXED, V1_FIXED, V2_FIXED};

use byteorder::{BigEndian, ByteOrder};
use mmc_frame::with_check;

// Version 1.0 of SD: TAAC 26h, TRAN_SPEED 32h (25 MHz), READ_BL_PARTIAL, ERASE_BLK_EN, SECTOR_SIZE 7Fh and R2W_FACTOR 2.
const V1_FIXED: u128 = 0x0026_0032_0000_8000_0000_7f80_0800_0000;

// Version 2.0 of SD: CSD_STRUCTURE 1 and the fixed values of its table (SD Physical Layer 6.00, section 5.3.3).
const V2_FIXED: u128 = 0x400e_0032_0009_0000_0000_7f80_0a40_0000;

// eMMC: CSD_STRUCTURE 3 (the EXT_CSD says it), SPEC_VERS 4, TAAC 4Fh, TRAN_SPEED 32h, READ_BL_PARTIAL, ERASE_GRP_SIZE and
// ERASE_GRP_MULT 1Fh, and R2W_FACTOR 2.
const MMC_FIXED: u128 = 0xd04f_0032_0000_8000_0000_7fe0_0800_0000;

const CCC: u128 = 1 << 84;

const READ_BL_LEN: u128 = 1 << 80;

const C_SIZE: u128 = 1 << 62;

const C_SIZE_V2: u128 = 1 << 48;

const C_SIZE_MULT: u128 = 1 << 47;

const WRITE_BL_LEN: u128 = 1 << 22;

const TMP_WRITE_PROTECT: u128 = 1 << 12;

/// A size in blocks: C_SIZE + 1 times 2^(C_SIZE_MULT + 2) blocks of 2^READ_BL_LEN bytes.
#[derive(Clone, Copy, Debug, PartialEq, Eq)]
pub struct Blocks {
    /// READ_BL_LEN, 9 or 10.
    pub read_bl_len: u8,
    /// C_SIZE, below 4,096.
    pub c_size: u16,
    /// C_SIZE_MULT, below 8.
    pub c_size_mult: u8,
}

/// The register with bits 127 to 8 of this number, and its check.
pub fn checked_register(number: u128) -> [u8; 16]
    ensures { result ≡ checked_register number }
{
    let mut bytes = [0; 15];
    BigEndian::write_uint128(&mut bytes, number / 256, 15);
    with_check(&bytes)
}

#[tactic(auto, unfolding(crate::specs::NewRegisters::csd_by_blocks))]
fn by_blocks(fixed: u128, ccc: u16, size: Blocks, is_protected: bool) -> [u8; 16]
    requires { fixed < 15 * 2 ^ 124 }
    ensures { result ≡ checked_register
        (csd_by_blocks fixed ccc size.read_bl_len size.c_size size.c_size_mult is_protected) }
{
    let length = u128::from(size.read_bl_len);
    let number = fixed
        + u128::from(ccc) * CCC
        + length * READ_BL_LEN
        + u128::from(size.c_size) * C_SIZE
        + u128::from(size.c_size_mult) * C_SIZE_MULT
        + length * WRITE_BL_LEN
        + u128::from(is_protected) * TMP_WRITE_PROTECT;
    checked_register(number)
}

/// The CSD version 1.0 of an SD card, with these classes of commands.
pub fn csd_v1(ccc: u16, size: Blocks, is_protected: bool) -> [u8; 16]
    ensures { result ≡ checked_register
        (csd_by_blocks V1_FIXED ccc size.read_bl_len size.c_size size.c_size_mult is_protected) }
{
    by_blocks(V1_FIXED, ccc, size, is_protected)
}

/// The CSD version 2.0 of an SD card, of so many units of 1,024 sectors and one.
#[tactic(auto, unfolding(crate::specs::NewRegisters::csd_v2))]
pub fn csd_v2(ccc: u16, c_size: u32, is_protected: bool) -> [u8; 16]
    ensures { result ≡ checked_register (csd_v2 V2_FIXED ccc c_size is_protected) }
{
    let number = V2_FIXED
        + u128::from(ccc) * CCC
        + u128::from(c_size) * C_SIZE_V2
        + u128::from(is_protected) * TMP_WRITE_PROTECT;
    checked_register(number)
}

/// The CSD of an eMMC device, with these classes of commands.
pub fn csd_mmc(ccc: u16, size: Blocks, is_protected: bool) -> [u8; 16]
    ensures { result ≡ checked_register
        (csd_by_blocks MMC_FIXED ccc size.read_bl_len size.c_size size.c_size_mult is_protected) }
{
    by_blocks(MMC_FIXED, ccc, size, is_protected)
}
