// The controller moves the blocks by itself: by SDMA, and by ADMA2 with addresses of 32 bits and of 64.
ghost use Rattle.std.specs.Prelude.{◌<◌, ◌≤◌};

use crate::hasty::Hasty;
use crate::serving::{Built, CAPABILITIES, Way, Which, check, driven, is_served, over, submit};
use crate::sweeps::{fail_each, silence_each, wait_at_each};
use mmc_block::BlockDev;
use mmc_card_sim::example_cards::{emmc, sdhc, sdsc};
use mmc_card_sim::{CardSpec, SimCard};
use mmc_sdhci::{Registers, Table};
use sdhci_model::{Manner, Model};
use std::alloc::Global;
use std::default::Default;
use std::test::Fail;

const SDMA: Built = Built {
    capabilities: CAPABILITIES + 0x40_0000,
    memory: 0x1000_0000,
};

// ADMA2 by addresses of 32 bits.
const ADMA2: Built = Built {
    capabilities: CAPABILITIES + 0x8_0000,
    memory: 0x1000_0000,
};

// And by addresses of 64, with memory beyond 32.
const WIDE: Built = Built {
    capabilities: CAPABILITIES + 0x1008_0000,
    memory: 0x10_1000_0000,
};

// A card by each way of DMA.
const MOVED: [(Which, Built); 3] = [(Which::Sd, SDMA), (Which::Mmc, ADMA2), (Which::Sd, WIDE)];

#[test]
fn each_exchange_fails_where_the_controller_moves_the_blocks(rt: HostRuntime) -> Result<(), Fail> {
    for (which, built) in MOVED {
        let whole = fail_each(rt.alloc(), which, Way::Dma(built))?;
        assert_eq!(rt; whole.moved, 4);
    }
    Ok(())
}

#[test]
fn each_exchange_is_silent_where_the_controller_moves_the_blocks(
    rt: HostRuntime,
) -> Result<(), Fail> {
    for (which, built) in MOVED {
        silence_each(rt.alloc(), which, Way::Dma(built))?;
    }
    Ok(())
}

#[test]
fn each_interrupt_is_waited_for_where_the_controller_moves_the_blocks(
    rt: HostRuntime,
) -> Result<(), Fail> {
    for (which, built) in MOVED {
        wait_at_each(rt.alloc(), which, Way::Dma(built))?;
    }
    Ok(())
}

// Runs of 1 to 16 sectors are written and read back. The answer is how many blocks were moved by DMA.
fn move_runs(alloc: Global, spec: CardSpec, built: Built) -> Result<u64, Fail> {
    let card = SimCard::build(alloc, spec).ok().ok_or("no card")?;
    let bus = driven(card, built, Manner::default()).ok_or("no driver")?;
    let mut device = BlockDev::open(alloc, bus).ok().ok_or("no device")?;
    for count in 1..17 {
        submit(alloc, &mut device, count, count)?;
        let answers = device.run(alloc)?;
        if !is_served(answers.as_slice(), count, count) {
            return Err("not served".into());
        }
    }
    let bus = device.close();
    check(&bus)?;
    Ok(bus.host().registers().moved())
}

#[test]
fn runs_are_moved_by_dma(rt: HostRuntime) -> Result<(), Fail> {
    // Each run twice, and 1 + 2 + .. + 16 is 136.
    assert_eq!(rt; move_runs(rt.alloc(), sdhc(), SDMA)?, 272);
    assert_eq!(rt; move_runs(rt.alloc(), emmc(), ADMA2)?, 272);
    assert_eq!(rt; move_runs(rt.alloc(), sdhc(), WIDE)?, 272);
    Ok(())
}

// How many are, from this bus address on.
fn move_from(alloc: Global, built: Built, memory: u64) -> Result<u64, Fail> {
    move_runs(alloc, sdhc(), Built { memory, ..built })
}

#[test]
fn runs_that_dma_does_not_reach_go_through_the_port(rt: HostRuntime) -> Result<(), Fail> {
    // SDMA stops at multiples of 512 KiB: eight blocks before one it moves runs of 1 to 8, each twice, and 1 + 2 + .. + 8 is 36.
    assert_eq!(rt; move_from(rt.alloc(), SDMA, 0x1007_f000)?, 72);
    // So does ADMA2 by addresses of 32 bits, eight blocks before these end. Those of 64 go on.
    assert_eq!(rt; move_from(rt.alloc(), ADMA2, 0xffff_f000)?, 72);
    assert_eq!(rt; move_from(rt.alloc(), WIDE, 0xffff_f000)?, 272);
    assert_eq!(rt; move_from(rt.alloc(), SDMA, 0x10_1000_0000)?, 0);
    assert_eq!(rt; move_from(rt.alloc(), ADMA2, 0x10_1000_0000)?, 0);
    // Addresses of 64 bits are multiples of 8.
    assert_eq!(rt; move_from(rt.alloc(), WIDE, 0x10_1000_0004)?, 0);
    Ok(())
}

// Whether a controller that was lent room for two blocks, from 1000_0000h on, takes a table of so many bytes from this address on.
fn takes(alloc: Global, start: u64, size: u32, is_wide: bool) -> Result<bool, Fail>
    requires low { start < 0x20000000 }
    requires small { size ≤ 1536 }
{
    let card = SimCard::build(alloc, sdsc()).ok().ok_or("no card")?;
    let model = Model::new(
        over(card),
        ADMA2.capabilities,
        2,
        ADMA2.memory,
        Manner::default(),
    );
    let mut registers = Hasty { model, longest: 0 };
    if registers.lend_room(2) != Some(0x1000_0000) {
        return Err("no room".into());
    }
    registers.lend_table(&Table::new(start, size, is_wide));
    Ok(registers.model.is_sound())
}

#[test]
fn a_table_names_just_what_is_lent(rt: HostRuntime) -> Result<(), Fail> {
    for is_wide in [false, true] {
        assert!(rt; takes(rt.alloc(), 0x1000_0000, 1024, is_wide)?);
        assert!(rt; !takes(rt.alloc(), 0x1000_0000, 512, is_wide)?);
        assert!(rt; !takes(rt.alloc(), 0x1000_0000, 1536, is_wide)?);
        assert!(rt; !takes(rt.alloc(), 0x1000_0200, 512, is_wide)?);
        assert!(rt; !takes(rt.alloc(), 0x1000_0200, 1024, is_wide)?);
        assert!(rt; !takes(rt.alloc(), 0x0fff_fe00, 1536, is_wide)?);
    }
    Ok(())
}
