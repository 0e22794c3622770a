// What a host knows of a card that it has opened, by the card file.
ghost use Rattle.std.specs.Prelude.{◌≡◌, ◌≤◌, IfSome, slice_index_or};
ghost use Rattle.mmc_ext_csd.specs.Partition.{addressable_sectors, existing_sectors};
ghost use Rattle.mmc_card.specs.Made.{Made, addressing_of, sectors_in};
ghost use Rattle.mmc_card.specs.Sectors.{part_number};
ghost use Rattle.mmc_card.specs.declared.part.Part.{Part};
ghost use Rattle.mmc_card_sim.specs.Registers.{made_of};
ghost use Rattle.mmc_switch.specs.Info.{IsInfo, trims_of};
ghost use Rattle.mmc_switch.specs.Sizes.{size_of};
ghost use Rattle.card_check.specs.Notes.{least_lines};

use mmc_bus::{Timing, Width};
use mmc_card_sim::{CardSpec, KindRegisters, MAX_LARGE, Registers, judge};
use mmc_ext_csd::{ExtCsd, existing_sectors};
use mmc_frame::Addressing;
use mmc_regs::{read_cid, read_csd};
use mmc_switch::{Info, Sizes};

// Whether its commands name sectors or bytes.
fn addressing_of(registers: &Registers) -> Addressing
    ensures { result ≡ addressing_of (made_of registers.now) }
{
    if registers.has_sector_addresses() {
        Addressing::Sectors
    } else {
        Addressing::Bytes
    }
}

// Whether it trims.
fn trims(registers: &Registers) -> bool
    ensures { result ≡ trims_of (made_of registers.now) }
{
    match &registers.kind {
        KindRegisters::Sd(_) => false,
        KindRegisters::Mmc(mmc) => ExtCsd::new(&mmc.ext_csd).trims(),
    }
}

// The partitions of these sizes that commands can address as a whole.
fn addressable(sizes: &[usize; 7], addressing: Addressing) -> Sizes
    ensures sizes { (made : Made) → ((part : Part) → slice_index_or sizes.now (part_number part) 0 ≡ sectors_in made part)
        → (part : Part) → size_of result part ≡ existing_sectors (sectors_in made part) addressing }
    ensures small { (part : Part) → size_of result part ≤ addressable_sectors addressing }
{
    Sizes {
        user: existing_sectors(sizes[0] as u64, addressing),
        boot: existing_sectors(sizes[1] as u64, addressing),
        gp1: existing_sectors(sizes[3] as u64, addressing),
        gp2: existing_sectors(sizes[4] as u64, addressing),
        gp3: existing_sectors(sizes[5] as u64, addressing),
        gp4: existing_sectors(sizes[6] as u64, addressing),
    }
}

/// What a host that has one line and default speed knows of a card of this spec once it is opened, or none where no card is built
/// by it. A host with more lines knows the same but for its width and speed.
pub fn info_of(spec: &CardSpec) -> Option<Info>
    ensures { IfSome result (IsInfo least_lines (made_of spec.now.registers)) }
{
    let registers = &spec.registers;
    let Ok(judged) = judge(spec, MAX_LARGE) else {
        return None;
    };
    let Ok(cid) = read_cid(&registers.cid) else {
        return None;
    };
    let Ok(csd) = read_csd(registers.kind(), &registers.csd) else {
        return None;
    };
    let addressing = addressing_of(registers);
    Some(Info {
        kind: registers.kind(),
        addressing,
        rca: 1,
        cid,
        csd,
        sizes: addressable(&judged.sizes, addressing),
        read_only: judged.is_read_only,
        erase_unit: judged.erase_unit as u64,
        erased_byte: registers.erased_byte(),
        trims: trims(registers),
        cmd23: registers.has_cmd23(),
        width: Width::One,
        timing: Timing::Default,
    })
}
