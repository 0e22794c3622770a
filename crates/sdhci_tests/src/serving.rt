// Cards that are served on the strict controller: the driver opens one, writes and reads back.
use crate::controller::Controller;
use crate::narrow::Narrow;
use mmc_block::{Answer, BlockDev, Bytes, Completion, Part, Request};
use mmc_bus::{Bus, Lines};
use mmc_card_sim::example_cards::{emmc_with, ext_csd_of_emmc, sdsc_cmd23};
use mmc_card_sim::{CardSpec, Fault, SimCard};
use mmc_host::HostBus;
use mmc_sdhci::Sdhci;
use sdhci_model::{Line, Manner, Model, Silence, Silent, driver};
use std::alloc::Global;
use std::default::Default;
use std::marker::Brand;
use std::test::Fail;

/// Capabilities: a base clock of 50 MHz, 3.3 V, high speed, and eight lines.
pub const CAPABILITIES: u32 = 0x0124_3200;

/// A controller: its Capabilities, and the bus address of memory that is lent to it.
#[derive(Clone, Copy)]
pub struct Built {
    pub capabilities: u32,
    pub memory: u64,
}

// It moves nothing by itself.
const NO_DMA: Built = Built {
    capabilities: CAPABILITIES,
    memory: 0x1000_0000,
};

/// The driver over the strict controller.
pub type Driver = HostBus<Sdhci<Model<Controller, Brand>>>;

/// How blocks are moved: through the Buffer Data Port, over such lines at most; or by DMA of such a controller, over all.
#[derive(Clone, Copy)]
pub enum Way {
    Port(Lines),
    Dma(Built),
}

/// What came of a run: the lines that the card was opened on, how many exchanges it took, by the card's count and the controller's, how
/// many were lost by resets, and how many blocks were moved by DMA.
#[derive(Clone, Copy)]
pub struct Served {
    pub lines: Lines,
    pub exchanges: u64,
    pub noted: u64,
    pub lost: u64,
    pub moved: u64,
}

/// What goes wrong: a fault of the card at this exchange, and what the controller does late or never.
#[derive(Clone, Copy)]
pub struct Trouble {
    pub exchange: u64,
    pub fault: Fault,
    pub manner: Manner,
}

/// A host over this card.
pub fn over(card: SimCard) -> Controller {
    Controller {
        card,
        is_slow: false,
        was_too_fast: false,
    }
}

/// The driver of such a controller, over this card.
pub fn driven(card: SimCard, built: Built, manner: Manner) -> Option<Driver> {
    let Built {
        capabilities,
        memory,
    } = built;
    match driver::<Controller, Brand>(over(card), capabilities, 2, memory, manner) {
        Ok(host) => Some(HostBus::new(host)),
        Err(_) => None,
    }
}

/// So many sectors, from sector 1 on, are written and read back, each byte this one.
pub fn submit<B: Bus>(
    alloc: Global,
    device: &mut BlockDev<B>,
    count: u8,
    byte: u8,
) -> Result<(), Fail> {
    let size = 512 * usize::from(count);
    let count = u64::from(count);
    let write = Request::Write {
        part: Part::User,
        start: 1,
        count,
        bytes: Bytes::new(vec![in alloc; byte; size]?),
    };
    let read = Request::Read {
        part: Part::User,
        start: 1,
        count,
    };
    for request in [write, read] {
        device.submit(alloc, 1, request).ok().ok_or("refused")?;
    }
    Ok(())
}

fn is_all(bytes: &[u8], byte: u8) -> bool {
    bytes.iter().all(|b| *b == byte)
}

/// The write was done, and what was written was read: so many sectors of this byte.
pub fn is_served(answers: &[Completion], count: u8, byte: u8) -> bool {
    let size = 512 * usize::from(count);
    match answers {
        [
            Completion {
                answer: Answer::Done,
                ..
            },
            Completion {
                answer: Answer::Data(bytes),
                ..
            },
        ] => bytes.as_slice().len() == size && is_all(bytes.as_slice(), byte),
        _ => false,
    }
}

// A sector is filled with what was written, or has it nowhere.
fn is_right(sector: &[u8], is_written: bool) -> bool {
    for byte in sector {
        if (*byte == 0x5a) != is_written {
            return false;
        }
    }
    true
}

// The sectors that were written hold it, and no other one does.
fn holds(card: &SimCard) -> bool {
    for i in 0..card.size(Part::User) {
        let Some(sector) = card.sector(Part::User, i) else {
            return false;
        };
        if !is_right(&sector, i == 1 || i == 2) {
            return false;
        }
    }
    card.size(Part::User) >= 3
}

fn lines_of<B: Bus>(device: &BlockDev<B>) -> Lines {
    Lines {
        width: device.info().width,
        timing: device.info().timing,
    }
}

/// The driver has kept to the rules.
pub fn check(bus: &Driver) -> Result<(), Fail> {
    let model = bus.host().registers();
    if bus.is_misused() || !model.is_sound() {
        return Err("the driver broke a rule".into());
    }
    if model.host().was_too_fast {
        return Err("too fast a clock".into());
    }
    Ok(())
}

// It has, and the sectors hold what was written.
fn judge(bus: &Driver, lines: Lines) -> Result<Served, Fail> {
    check(bus)?;
    let model = bus.host().registers();
    let card = &model.host().card;
    if !holds(card) {
        return Err("not served".into());
    }
    Ok(Served {
        lines,
        exchanges: card.exchanges(),
        noted: model.exchanges(),
        lost: model.lost(),
        moved: model.moved(),
    })
}

// Sectors 1 and 2 are written and read back.
fn write_and_read<B: Bus>(alloc: Global, device: &mut BlockDev<B>) -> Result<(), Fail> {
    submit(alloc, device, 2, 0x5a)?;
    let answers = device.run(alloc)?;
    if is_served(answers.as_slice(), 2, 0x5a) {
        Ok(())
    } else {
        Err("not served".into())
    }
}

/// The driver over a card and a controller with this trouble opens it, writes and reads back, and keeps to the rules.
pub fn serve(alloc: Global, spec: CardSpec, way: Way, trouble: Trouble) -> Result<Served, Fail> {
    let mut card = SimCard::build(alloc, spec).ok().ok_or("no card")?;
    card.plan(trouble.exchange, trouble.fault)
        .ok()
        .ok_or("not planned")?;
    match way {
        Way::Port(most) => {
            let bus = driven(card, NO_DMA, trouble.manner).ok_or("no driver")?;
            let narrow = Narrow::new(bus, most);
            let mut device = BlockDev::open(alloc, narrow).ok().ok_or("no device")?;
            write_and_read(alloc, &mut device)?;
            let lines = lines_of(&device);
            judge(&device.close().bus, lines)
        }
        Way::Dma(built) => {
            let bus = driven(card, built, trouble.manner).ok_or("no driver")?;
            let mut device = BlockDev::open(alloc, bus).ok().ok_or("no device")?;
            write_and_read(alloc, &mut device)?;
            let lines = lines_of(&device);
            judge(&device.close(), lines)
        }
    }
}

/// A card of each kind, with four sectors.
#[derive(Clone, Copy)]
pub enum Which {
    Sd,
    Mmc,
}

/// It, when it is made.
pub fn spec_of(which: Which) -> CardSpec {
    match which {
        Which::Sd => sdsc_cmd23(),
        Which::Mmc => {
            let mut ext_csd = ext_csd_of_emmc();
            // SEC_COUNT is 4, and BOOT_SIZE_MULT 0.
            ext_csd[212] = 4;
            ext_csd[213] = 0;
            ext_csd[226] = 0;
            emmc_with(ext_csd, 4)
        }
    }
}

// No run is so long.
const NEVER: u64 = 1000;

/// Nothing goes wrong.
pub fn no_trouble() -> Trouble {
    Trouble {
        exchange: NEVER,
        fault: Fault::LoseReply,
        manner: Manner::default(),
    }
}

/// At this exchange so many looks find nothing.
pub fn silent_at(exchange: u64, looks: u64, silence: Silence) -> Trouble {
    let silent = Silent {
        exchange,
        looks,
        silence,
    };
    Trouble {
        manner: Manner {
            silent: Some(silent),
            ..Manner::default()
        },
        ..no_trouble()
    }
}

// Card Insertion and Card Removal.
const OF_THE_SLOT: u32 = 0xc0;

/// The same where the driver waits for interrupts, of such a line, and those of the slot are somebody else's.
pub fn waiting(trouble: Trouble, line: Line) -> Trouble {
    Trouble {
        manner: Manner {
            line: Some(line),
            kept: OF_THE_SLOT,
            ..trouble.manner
        },
        ..trouble
    }
}
