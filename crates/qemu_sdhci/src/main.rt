//! Opens QEMU's SD card through the registers of QEMU's SD host controller, and writes and reads random runs of sectors, each
//! compared with a copy of what the card should hold; with `--words` by accesses of 32 bits alone, with `--dma` by ADMA2.
//! `tests/qemu/run` starts QEMU and this program.
#![tactic(auto)]

mod copy;
mod protocol;
mod registers;
mod runs;

ghost use Rattle.std.specs.Prelude.{◌≡◌};
ghost use Rattle.mmc_card.specs.declared.exchange.Width.TheVariants.{Eight};
ghost use Rattle.mmc_sdhci.specs.Driver.{IsNew};
ghost use Rattle.mmc_sdhci.specs.Moving.{WhereKept};

use crate::protocol::Conversation;
use crate::registers::QemuRegisters;
use crate::runs::Card;
use anyhow::{Result, anyhow};
use mmc_block::{BlockDev, Part};
use mmc_card::Width;
use mmc_host::HostBus;
use mmc_sdhci::{Registers, Sdhci};
use sdhci_board::{Board, Known, Slot};
use std::env;

const USAGE: &str = "usage: qemu_sdhci RUNS SEED [--words | --dma]";

// Opens the card.
fn open<R: Registers + Drop>(rt: &impl AllocGlobal, registers: R) -> Result<Card<R>>
    requires new { IsNew (R.view registers) }
    requires wired { WhereKept (R.view registers) ((R.view registers).built.wired ≡ Eight) }
{
    match Sdhci::new(registers, Width::Eight) {
        Err((_, fault)) => Err(fault.into()),
        Ok(host) => match BlockDev::open(rt.alloc(), HostBus::new(host)) {
            Err((_, fault)) => Err(fault.into()),
            Ok(device) => Ok(device),
        },
    }
}

// Serves so many rounds of runs.
fn serve<R: Registers + Drop>(
    rt: &(impl Eprint + AllocGlobal),
    registers: R,
    rounds: u64,
    seed: u64,
) -> Result<()>
    requires new { IsNew (R.view registers) }
    requires wired { WhereKept (R.view registers) ((R.view registers).built.wired ≡ Eight) }
{
    let mut card = open(rt, registers)?;
    let sectors = card.info().sectors(Part::User).unwrap_or(0);
    let _ = eprintln!(rt;
        "opened {sectors} sectors, {} exchanges",
        card.bus().exchanges()
    );
    runs::serve(rt, &mut card, sectors, rounds, seed)?;
    if card.bus().is_misused() {
        return Err(anyhow!("the controller was asked for what none can do"));
    }
    let _ = eprintln!(rt; "served, {} exchanges", card.bus().exchanges());
    Ok(())
}

fn main(rt: HostRuntime) -> Result<()> {
    let words = env::args(&rt)?.collect::<Vec<String>>(rt.alloc())?;
    let mut registers = QemuRegisters {
        conversation: Conversation::new(),
        lends: false,
    };
    match words.as_slice() {
        [_, rounds, seed] => serve(&rt, registers, rounds.parse::<u64>()?, seed.parse::<u64>()?),
        [_, rounds, seed, way] if way.as_str() == "--words" => serve(
            &rt,
            Board::new(
                registers,
                Known {
                    slot: Slot::AlwaysThere,
                    capabilities: None,
                },
            ),
            rounds.parse::<u64>()?,
            seed.parse::<u64>()?,
        ),
        [_, rounds, seed, way] if way.as_str() == "--dma" => {
            registers.lends = true;
            serve(&rt, registers, rounds.parse::<u64>()?, seed.parse::<u64>()?)
        }
        _ => Ok(println!(rt; "{USAGE}")?),
    }
}
