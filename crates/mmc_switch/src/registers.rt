// What the registers of a card come to.
ghost use Rattle.std.specs.Prelude.{◌≡◌, ◌≤◌, IfSome, IsSome};
ghost use Rattle.mmc_frame.specs.declared.kind.Kind.TheVariants as Is;
ghost use Rattle.mmc_regs.specs.Csd.{IsSdCsd, erase_unit_of};
ghost use Rattle.mmc_ext_csd.specs.ExtCsd.{erase_unit};
ghost use Rattle.mmc_card.specs.Card.{Card};
ghost use Rattle.mmc_card.specs.Made.{HasRegisters, Made};
ghost use Rattle.mmc_card.specs.RowsSwitch.{IsExtCsdOf};
ghost use Rattle.mmc_card.specs.declared.exchange.Lines.{Lines};
ghost use Rattle.mmc_identify.specs.Stages.{IsFound};
ghost use Rattle.mmc_switch.specs.Info.{IsInfo, timing_over, width_over};
ghost use Rattle.mmc_switch.specs.Sizes.{mmc_sizes, sd_sizes, user_size};
ghost use Rattle.mmc_switch.specs.Stages.{IsToldOf};

use crate::info::Info;
use crate::sd::Told;
use crate::sizes::Sizes;
use mmc_bus::Lines;
use mmc_ext_csd::{ExtCsd, existing_sectors};
use mmc_frame::{Addressing, Kind};
use mmc_identify::Found;
use mmc_regs::Csd;

// The erase unit of an SD card, or none where this is no CSD of one.
fn sd_erase_unit(csd: &Csd) -> Option<u64>
    ensures unit { IfSome result (λ unit. unit ≡ erase_unit_of csd.now) }
    ensures some_unit { IfSome result (λ unit. 1 ≤ unit) }
    ensures taken { IsSdCsd csd.now → IsSome result }
{
    match csd {
        Csd::Mmc(_) => None,
        Csd::V1(_) | Csd::V2(_) => Some(csd.erase_unit()),
    }
}

// The size of the user area of an eMMC device.
fn user_sectors(found: &Found, ext_csd: &ExtCsd) -> u64
    ensures { result ≡ user_size found.now.addressing found.now.csd ext_csd.now }
{
    match found.addressing {
        Addressing::Bytes => found.csd.sectors(),
        Addressing::Sectors => ext_csd.sectors(),
    }
}

// The sizes of an SD card, which has the user partition alone.
fn sd_sizes(found: &Found) -> Sizes
    ensures { result ≡ sd_sizes found.now.addressing found.now.csd }
{
    Sizes {
        user: existing_sectors(found.csd.sectors(), found.addressing),
        boot: 0,
        gp1: 0,
        gp2: 0,
        gp3: 0,
        gp4: 0,
    }
}

// The sizes of an eMMC device.
fn mmc_sizes(found: &Found, ext_csd: &ExtCsd) -> Sizes
    ensures { result ≡ mmc_sizes found.now.addressing found.now.csd ext_csd.now }
{
    let addressing = found.addressing;
    Sizes {
        user: existing_sectors(user_sectors(found, ext_csd), addressing),
        boot: existing_sectors(ext_csd.boot_sectors(), addressing),
        gp1: existing_sectors(ext_csd.gp_sectors(1), addressing),
        gp2: existing_sectors(ext_csd.gp_sectors(2), addressing),
        gp3: existing_sectors(ext_csd.gp_sectors(3), addressing),
        gp4: existing_sectors(ext_csd.gp_sectors(4), addressing),
    }
}

/// What is known of an SD card, or none where it was found with the CSD of an eMMC device.
pub fn sd_info(found: &Found, told: &Told) -> Option<Info>
    ensures info { (limits : Lines) → (made : Made) → HasRegisters made → made.kind ≡ Is.Sd → IsFound made found.now
        → IsToldOf limits made told.now → IfSome result (IsInfo limits made) }
    ensures taken { (made : Made) → HasRegisters made → made.kind ≡ Is.Sd → IsFound made found.now → IsSome result }
    ensures rca { IfSome result (λ info. info.rca ≡ found.now.rca) }
    ensures lines { IfSome result (λ info. (info.width ≡ told.now.width) × (info.timing ≡ told.now.timing)) }
{
    let erase_unit = sd_erase_unit(&found.csd)?;
    Some(Info {
        kind: Kind::Sd,
        addressing: found.addressing,
        rca: found.rca,
        cid: found.cid,
        csd: found.csd,
        sizes: sd_sizes(found),
        read_only: found.csd.read_only(),
        erase_unit,
        erased_byte: told.scr.erased_byte(),
        trims: false,
        cmd23: told.scr.has_set_block_count(),
        width: told.width,
        timing: told.timing,
    })
}

/// What is known of an eMMC device that uses these lines.
pub fn mmc_info(found: &Found, ext_csd: &ExtCsd, lines: Lines) -> Info
    requires some_unit { 1 ≤ erase_unit ext_csd.now }
    ensures info { (limits : Lines) → (card : Card) → HasRegisters card.made → card.made.kind ≡ Is.Mmc
        → IsFound card.made found.now → IsExtCsdOf card ext_csd.now → lines.width ≡ width_over limits card.made
        → lines.timing ≡ timing_over limits card.made → IsInfo limits card.made result }
    ensures rca { result.rca ≡ found.now.rca }
    ensures lines { (result.width ≡ lines.width) × (result.timing ≡ lines.timing) }
{
    Info {
        kind: Kind::Mmc,
        addressing: found.addressing,
        rca: found.rca,
        cid: found.cid,
        csd: found.csd,
        sizes: mmc_sizes(found, ext_csd),
        read_only: found.csd.read_only(),
        erase_unit: ext_csd.erase_unit(),
        erased_byte: ext_csd.erased_byte(),
        trims: ext_csd.trims(),
        cmd23: true,
        width: lines.width,
        timing: lines.timing,
    }
}
