// The fields of a CSD, by version.
ghost use Rattle.std.specs.Prelude.{◌≡◌, ℕ, ◌≤◌, ◌↔◌, IsTrue};
ghost use Rattle.mmc_regs.specs.CsdFields.{c_size, c_size_mult, c_size_v2, erase_blk_en, lasting_number, read_bl_len, sector_size, write_bl_len};

use crate::bits::bits;
use std::marker::Model;

/// A CSD version 1.0 (SD Physical Layer 6.00, section 5.3.2). Contracts see it as a number of 128 bits; its WRITE_BL_LEN
/// is 9 to 11.
#[derive(Clone, Copy, Debug, PartialEq, Eq)]
pub struct CsdV1 {
    register: u128,
}

impl Model for CsdV1 {
    ghost Value = { ℕ };

    ghost view = { λ csd. csd.register };

    ghost invariant = { λ csd. (9 ≤ write_bl_len csd.register) × (write_bl_len csd.register ≤ 11) };

    ghost inverse = { λ n. record { register = n } };
}

/// A CSD version 2.0 (SD Physical Layer 6.00, section 5.3.3). Contracts see it as a number of 128 bits.
#[derive(Clone, Copy, Debug, PartialEq, Eq)]
pub struct CsdV2 {
    register: u128,
}

impl Model for CsdV2 {
    ghost Value = { ℕ };

    ghost view = { λ csd. csd.register };

    ghost inverse = { λ n. record { register = n } };
}

/// The CSD of an eMMC device (JESD84-B51, section 7.3). Contracts see it as a number of 128 bits.
#[derive(Clone, Copy, Debug, PartialEq, Eq)]
pub struct CsdMmc {
    register: u128,
}

impl Model for CsdMmc {
    ghost Value = { ℕ };

    ghost view = { λ csd. csd.register };

    ghost inverse = { λ n. record { register = n } };
}

// The register without TMP_WRITE_PROTECT and what stands below it, bits 12 to 0.
fn lasting_number(register: u128) -> u128
    ensures { result ≡ lasting_number register }
{
    register / 0x2000 * 0x2000
}

// READ_BL_LEN, which version 1.0 and the CSD of an eMMC device have in common.
fn read_bl_len(register: u128) -> u8
    ensures { result ≡ read_bl_len register }
{
    bits(register, 83, 80) as u8
}

// C_SIZE of these two.
fn c_size(register: u128) -> u16
    ensures { result ≡ c_size register }
{
    bits(register, 73, 62) as u16
}

// C_SIZE_MULT of these two.
fn c_size_mult(register: u128) -> u8
    ensures { result ≡ c_size_mult register }
{
    bits(register, 49, 47) as u8
}

impl CsdV1 {
    /// The CSD version 1.0 with these bits.
    pub(crate) fn new(register: u128) -> Self
        requires least { 9 ≤ write_bl_len register }
        requires most { write_bl_len register ≤ 11 }
        ensures { result ≡ register }
    {
        CsdV1 { register }
    }

    /// The whole register.
    pub(crate) fn register(self) -> u128
        ensures { result ≡ self }
    {
        self.register
    }

    /// What never changes of it.
    #[tactic(auto, using(crate::proofs::CsdLemmas::lasting_write_length))]
    pub(crate) fn lasting(self) -> Self
        ensures { result ≡ lasting_number self }
    {
        CsdV1 {
            register: lasting_number(self.register),
        }
    }

    /// READ_BL_LEN: a block to read has 2 to the power of it bytes.
    pub fn read_bl_len(self) -> u8
        ensures { result ≡ read_bl_len self }
    {
        read_bl_len(self.register)
    }

    /// C_SIZE, below 4096.
    pub fn c_size(self) -> u16
        ensures { result ≡ c_size self }
    {
        c_size(self.register)
    }

    /// C_SIZE_MULT, below 8.
    pub fn c_size_mult(self) -> u8
        ensures { result ≡ c_size_mult self }
    {
        c_size_mult(self.register)
    }

    /// ERASE_BLK_EN: whether single sectors can be erased.
    pub fn erase_blk_en(self) -> bool
        ensures { IsTrue result ↔ (erase_blk_en self ≡ 1) }
    {
        bits(self.register, 46, 46) == 1
    }

    /// SECTOR_SIZE, below 128: one less than the write blocks of an erase unit.
    pub fn sector_size(self) -> u8
        ensures { result ≡ sector_size self }
    {
        bits(self.register, 45, 39) as u8
    }

    /// WRITE_BL_LEN, 9 to 11: a block to write has 2 to the power of it bytes.
    pub fn write_bl_len(self) -> u8
        ensures value { result ≡ write_bl_len self }
        ensures range { (9 ≤ result) × (result ≤ 11) }
    {
        bits(self.register, 25, 22) as u8
    }
}

impl CsdMmc {
    /// The CSD of an eMMC device with these bits.
    pub(crate) fn new(register: u128) -> Self
        ensures { result ≡ register }
    {
        CsdMmc { register }
    }

    /// The whole register.
    pub(crate) fn register(self) -> u128
        ensures { result ≡ self }
    {
        self.register
    }

    /// What never changes of it.
    pub(crate) fn lasting(self) -> Self
        ensures { result ≡ lasting_number self }
    {
        CsdMmc {
            register: lasting_number(self.register),
        }
    }

    /// READ_BL_LEN: a block to read has 2 to the power of it bytes. It may have any value below 16.
    pub fn read_bl_len(self) -> u8
        ensures { result ≡ read_bl_len self }
    {
        read_bl_len(self.register)
    }

    /// C_SIZE, below 4096.
    pub fn c_size(self) -> u16
        ensures { result ≡ c_size self }
    {
        c_size(self.register)
    }

    /// C_SIZE_MULT, below 8.
    pub fn c_size_mult(self) -> u8
        ensures { result ≡ c_size_mult self }
    {
        c_size_mult(self.register)
    }
}

impl CsdV2 {
    /// The CSD version 2.0 with these bits.
    pub(crate) fn new(register: u128) -> Self
        ensures { result ≡ register }
    {
        CsdV2 { register }
    }

    /// The whole register.
    pub(crate) fn register(self) -> u128
        ensures { result ≡ self }
    {
        self.register
    }

    /// What never changes of it.
    pub(crate) fn lasting(self) -> Self
        ensures { result ≡ lasting_number self }
    {
        CsdV2 {
            register: lasting_number(self.register),
        }
    }

    /// C_SIZE, below 2 to the power of 22: one less than the units of 512 KiB.
    pub fn c_size(self) -> u32
        ensures { result ≡ c_size_v2 self }
    {
        bits(self.register, 69, 48) as u32
    }
}
