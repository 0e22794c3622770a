// The registers of a card in memory, and what they say of it.
ghost use Rattle.std.specs.Prelude.{◌≡◌};
ghost use Rattle.mmc_regs.specs.Csd.{may_switch};
ghost use Rattle.mmc_regs.specs.Register.{register_number};

use arrayvec::ArrayVec;
use byteorder::{BigEndian, ByteOrder};
use mmc_ext_csd::ExtCsd;
use mmc_frame::Kind;
use mmc_regs::{Ocr, Scr};

/// What only an SD card has.
#[derive(Clone, Copy, Debug, PartialEq, Eq)]
pub struct SdRegisters {
    /// The eight bytes of the SCR, the highest first.
    pub scr: [u8; 8],
    /// The RCA that the card publishes, or the first one.
    pub rca: u16,
    /// Whether it publishes the next one at each CMD3, and 1 after FFFFh.
    pub rca_changes: bool,
    /// Whether it knows CMD8.
    pub answers_cmd8: bool,
    /// Whether its switch status names high speed.
    pub has_high_speed: bool,
}

/// What only an eMMC device has.
#[derive(Clone, Copy, Debug, PartialEq, Eq)]
pub struct MmcRegisters {
    /// The 512 bytes of the EXT_CSD. A field that can be switched is as after power on, whatever stands here: the user
    /// partition is accessed, over one line at default speed, and ERASE_GROUP_DEF is 0.
    pub ext_csd: [u8; 512],
}

/// What a card has by its kind.
#[derive(Clone, Copy, Debug, PartialEq, Eq)]
pub enum KindRegisters {
    /// An SD card.
    Sd(SdRegisters),
    /// An eMMC device.
    Mmc(MmcRegisters),
}

/// The registers of a card, and what else never changes of it (SD Physical Layer 6.00, section 5; JESD84-B51,
/// section 7).
#[derive(Clone, Copy, Debug, PartialEq, Eq)]
pub struct Registers {
    /// What it has by its kind.
    pub kind: KindRegisters,
    /// The OCR without bit 31, which says that the card is ready.
    pub ocr: u32,
    /// The sixteen bytes of the CID, the highest first, with its check.
    pub cid: [u8; 16],
    /// The sixteen bytes of the CSD, the highest first, with its check.
    pub csd: [u8; 16],
    /// Whether it is locked, which each of its statuses says.
    pub is_locked: bool,
}

// CCC, which stands in the same place in every version of the CSD, names class 10 or no class at all.
fn may_switch(csd: &[u8; 16]) -> bool
    ensures { result ≡ may_switch (register_number csd.now) }
{
    let register = BigEndian::read_u128(csd);
    (register >> 84) % 0x1000 == 0 || (register >> 94) % 2 == 1
}

impl Registers {
    ghost use Rattle.std.specs.Prelude.{◌==◌};
    ghost use Rattle.mmc_ext_csd.specs.ExtCsd.{high_speed_at_52_mhz, partition_config};
    ghost use Rattle.mmc_card.specs.Made.{erased_byte_of_card, has_cmd23, has_high_speed, has_sector_addresses};
    ghost use Rattle.mmc_card.specs.Made.{has_switch_function};
    ghost use Rattle.mmc_card_rows.specs.Registers.{first_life_time, last_rca_by, made_of, rca_changes_by};

    /// SD or eMMC.
    pub fn kind(&self) -> Kind
        ensures { result ≡ (made_of self.now).kind }
    {
        match self.kind {
            KindRegisters::Sd(_) => Kind::Sd,
            KindRegisters::Mmc(_) => Kind::Mmc,
        }
    }

    /// Whether it is addressed by sectors: CCS of an SD card, the access mode of an eMMC device.
    pub fn has_sector_addresses(&self) -> bool
        ensures { result ≡ has_sector_addresses (made_of self.now) }
    {
        let ocr = Ocr::new(self.ocr);
        match self.kind {
            KindRegisters::Sd(_) => ocr.has_sector_addresses(),
            KindRegisters::Mmc(_) => ocr.access_mode() == 2,
        }
    }

    /// The RCA in front of the one that an SD card publishes first.
    pub fn last_rca(&self) -> u16
        ensures { result ≡ last_rca_by self.now.kind }
    {
        match self.kind {
            KindRegisters::Sd(sd) => sd.rca.saturating_sub(1),
            KindRegisters::Mmc(_) => 0,
        }
    }

    /// Whether an SD card publishes another RCA at each CMD3.
    pub fn rca_changes(&self) -> bool
        ensures { result ≡ rca_changes_by self.now.kind }
    {
        match self.kind {
            KindRegisters::Sd(sd) => sd.rca_changes,
            KindRegisters::Mmc(_) => false,
        }
    }

    /// What an eMMC device that ages says of its life time at first.
    pub fn first_life_time(&self, ages: bool) -> Option<u8>
        ensures { result ≡ first_life_time ages self.now.kind }
    {
        match self.kind {
            KindRegisters::Mmc(mmc) if ages => Some(mmc.ext_csd[268]),
            _ => None,
        }
    }

    /// Whether an SD card knows CMD8.
    pub fn answers_cmd8(&self) -> bool
        ensures { result ≡ (made_of self.now).answers_cmd8 }
    {
        match self.kind {
            KindRegisters::Sd(sd) => sd.answers_cmd8,
            KindRegisters::Mmc(_) => false,
        }
    }

    /// Whether it knows CMD23: an SD card by its SCR, an eMMC device always.
    pub fn has_cmd23(&self) -> bool
        ensures { result ≡ has_cmd23 (made_of self.now) }
    {
        match self.kind {
            KindRegisters::Sd(sd) => Scr::new(&sd.scr).has_set_block_count(),
            KindRegisters::Mmc(_) => true,
        }
    }

    /// Whether an SD card knows CMD6: CCC names class 10, or no class at all, and SD_SPEC isn't 0.
    pub fn has_switch_function(&self) -> bool
        ensures { result ≡ has_switch_function (made_of self.now) }
    {
        match self.kind {
            KindRegisters::Sd(sd) => may_switch(&self.csd) && Scr::new(&sd.scr).sd_spec() != 0,
            KindRegisters::Mmc(_) => false,
        }
    }

    /// Whether an SD card switches to high speed.
    pub fn has_high_speed(&self) -> bool
        ensures { result ≡ has_high_speed (made_of self.now) }
    {
        match self.kind {
            KindRegisters::Sd(sd) => sd.has_high_speed,
            KindRegisters::Mmc(_) => false,
        }
    }

    /// Whether an eMMC device switches to high speed at 52 MHz.
    pub fn high_speed_at_52_mhz(&self) -> bool
        ensures { result ≡ (high_speed_at_52_mhz (made_of self.now).ext_csd == 1) }
    {
        match self.kind {
            KindRegisters::Sd(_) => false,
            KindRegisters::Mmc(mmc) => ExtCsd::new(&mmc.ext_csd).high_speed(),
        }
    }

    /// PARTITION_CONFIG of an eMMC device, as it stands in the EXT_CSD.
    pub fn partition_config(&self) -> u8
        ensures { result ≡ partition_config (made_of self.now).ext_csd }
    {
        match self.kind {
            KindRegisters::Sd(_) => 0,
            KindRegisters::Mmc(mmc) => ExtCsd::new(&mmc.ext_csd).partition_config(),
        }
    }

    /// What each byte of an erased sector holds.
    pub fn erased_byte(&self) -> u8
        ensures { result ≡ erased_byte_of_card (made_of self.now) }
    {
        match self.kind {
            KindRegisters::Sd(sd) => Scr::new(&sd.scr).erased_byte(),
            KindRegisters::Mmc(mmc) => ExtCsd::new(&mmc.ext_csd).erased_byte(),
        }
    }

    /// The SCR of an SD card, as it is sent.
    pub fn scr(&self) -> ArrayVec<u8, 512>
        ensures { result.items ≡ (made_of self.now).scr }
    {
        let mut block = ArrayVec::new();
        if let KindRegisters::Sd(sd) = self.kind {
            let _ = block.try_extend_from_slice(&sd.scr);
        }
        block
    }

    /// The switch status of an SD card, as it is sent after CMD6: whether it has high speed, and that high speed is
    /// selected or else nothing (SD Physical Layer 6.00, section 4.3.10.4).
    pub fn switch_status(&self) -> ArrayVec<u8, 512>
        ensures { result.items ≡ (made_of self.now).switch_status }
    {
        let mut block = ArrayVec::new();
        if let KindRegisters::Sd(sd) = self.kind {
            let mut status = [0; 64];
            (status[13], status[16]) = if sd.has_high_speed { (3, 1) } else { (1, 15) };
            let _ = block.try_extend_from_slice(&status);
        }
        block
    }

    /// The EXT_CSD of an eMMC device.
    pub fn ext_csd(&self) -> ArrayVec<u8, 512>
        ensures { result.items ≡ (made_of self.now).ext_csd }
    {
        let mut block = ArrayVec::new();
        if let KindRegisters::Mmc(mmc) = self.kind {
            let _ = block.try_extend_from_slice(&mmc.ext_csd);
        }
        block
    }
}
