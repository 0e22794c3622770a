// The extended card-specific data register.
ghost use Rattle.std.specs.Prelude.{List, ℕ};

use crate::fault::ExtFault;
use byteorder::{ByteOrder, LittleEndian};
use std::marker::Model;

/// The EXT_CSD of an eMMC device (JESD84-B51, section 7.4). Contracts see it as its 512 bytes.
#[derive(Clone, Copy, Debug, PartialEq, Eq)]
pub struct ExtCsd {
    block: [u8; 512],
}

impl Model for ExtCsd {
    ghost Value = { List ℕ };

    ghost view = { λ ext_csd. ext_csd.block };

    ghost inverse = { λ bytes. record { block = bytes } };
}

impl ExtCsd {
    ghost use Rattle.std.specs.Prelude.{◌≡◌, ◌^◌, ◌<◌, ◌≤◌, ◌↔◌, IsTrue};
    ghost use Rattle.mmc_ext_csd.specs.ExtCsd.{boot_sectors, bus_width, erase_group_def, erase_unit, erased_byte, ext_csd_in, gp_sectors, gp_size_mult, high_speed_at_52_mhz, hs_timing, partition_config, sec_count, trim_support, write_protect_group};

    /// The EXT_CSD in this block, as a device sends it after CMD8.
    ///
    /// # Errors
    /// The first that holds: `Revision` where EXT_CSD_REV is below 5, `ZeroSize` where HC_ERASE_GRP_SIZE is 0.
    pub fn read(block: &[u8; 512]) -> Result<Self, ExtFault>
        ensures { result ≡ ext_csd_in block.now }
    {
        if block[192] < 5 {
            return Err(ExtFault::Revision);
        }
        if block[224] == 0 {
            return Err(ExtFault::ZeroSize);
        }
        Ok(ExtCsd::new(block))
    }

    /// The EXT_CSD in this block, whatever it says: `read` judges it.
    pub fn new(block: &[u8; 512]) -> Self
        ensures { result ≡ block.now }
    {
        ExtCsd { block: *block }
    }

    /// SEC_COUNT: the size of the user area in sectors of 512 bytes, where the device is addressed by sectors.
    pub fn sectors(&self) -> u64
        ensures { result ≡ sec_count self.now }
    {
        u64::from(LittleEndian::read_u32(&self.block[212..216]))
    }

    /// The size of each boot partition in sectors, by BOOT_SIZE_MULT.
    pub fn boot_sectors(&self) -> u64
        ensures { result ≡ boot_sectors self.now }
    {
        u64::from(self.block[226]) * 256
    }

    /// The erase unit in sectors, by HC_ERASE_GRP_SIZE: it holds where ERASE_GROUP_DEF is 1.
    pub fn erase_unit(&self) -> u64
        ensures { result ≡ erase_unit self.now }
    {
        u64::from(self.block[224]) * 1024
    }

    /// Whether the device can trim, bit 4 of SEC_FEATURE_SUPPORT.
    pub fn trims(&self) -> bool
        ensures { IsTrue result ↔ (trim_support self.now ≡ 1) }
    {
        self.block[231] / 16 % 2 == 1
    }

    /// What each byte of an erased sector holds: 00h where ERASED_MEM_CONT is 0, otherwise FFh.
    pub fn erased_byte(&self) -> u8
        ensures { result ≡ erased_byte self.now }
    {
        if self.block[181] == 0 { 0x00 } else { 0xff }
    }

    /// Whether the device supports high speed at 52 MHz, bit 1 of DEVICE_TYPE.
    pub fn high_speed(&self) -> bool
        ensures { IsTrue result ↔ (high_speed_at_52_mhz self.now ≡ 1) }
    {
        self.block[196] / 2 % 2 == 1
    }

    /// PARTITION_CONFIG: its bits 2 to 0 name the partition that is accessed, 0 for user, 1 and 2 for boot, 4 to 7 for
    /// general purpose.
    pub fn partition_config(&self) -> u8
        ensures { result ≡ partition_config self.now }
    {
        self.block[179]
    }

    /// ERASE_GROUP_DEF: 1 where erase units are those of `erase_unit`.
    pub fn erase_group_def(&self) -> u8
        ensures { result ≡ erase_group_def self.now }
    {
        self.block[175]
    }

    /// BUS_WIDTH: 0, 1 or 2 for 1, 4 or 8 lines.
    pub fn bus_width(&self) -> u8
        ensures { result ≡ bus_width self.now }
    {
        self.block[183]
    }

    /// HS_TIMING: 1 for high speed.
    pub fn hs_timing(&self) -> u8
        ensures { result ≡ hs_timing self.now }
    {
        self.block[185]
    }

    /// The size of the general purpose partition `i`, 1 to 4, in sectors: 0 where PARTITION_SETTING_COMPLETED has bit 0
    /// clear. It can be larger than what a command's 32 bits of address can name: see `existing_sectors`.
    pub fn gp_sectors(&self, i: u8) -> u64
        requires first { 1 ≤ i }
        requires last { i ≤ 4 }
        ensures { result ≡ gp_sectors i self.now }
    {
        if self.block[155] % 2 == 0 {
            return 0;
        }
        self.gp_size_mult(i) * self.write_protect_group()
    }

    // In sectors.
    fn write_protect_group(&self) -> u64
        ensures value { result ≡ write_protect_group self.now }
        ensures small { result < 2 ^ 26 }
    {
        u64::from(self.block[221]) * self.erase_unit()
    }

    // GP_SIZE_MULT.
    fn gp_size_mult(&self, i: u8) -> u64
        requires first { 1 ≤ i }
        requires last { i ≤ 4 }
        ensures value { result ≡ gp_size_mult i self.now }
        ensures small { result < 2 ^ 24 }
    {
        let place = 143 + 3 * (usize::from(i) - 1);
        let bytes = [
            self.block[place],
            self.block[place + 1],
            self.block[place + 2],
            0,
        ];
        u64::from(u32::from_le_bytes(bytes))
    }
}
