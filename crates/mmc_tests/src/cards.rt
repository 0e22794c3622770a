// What tests do with the cards of `mmc_card_sim::example_cards`, and buses that answer like one of them.
ghost use Rattle.std.specs.Prelude.{◌<◌};

use mmc_bus::{Bus, BusAnswer, Bytes, DataIn, Reply, ScriptedBus};
pub use mmc_card_sim::example_cards::ext_csd_of_emmc;
use mmc_card_sim::example_cards::{emmc, sdhc, sdsc, sdsc_cmd23};
use mmc_card_sim::{CardSpec, SimCard};
use mmc_frame::{encode_r2, encode_r3, encode_response};
use mmc_switch::{Session, initialize};
use std::alloc::Global;
use std::collections::VecDeque;
use std::test::Fail;

/// One of the cards.
#[derive(Clone, Copy)]
pub enum Which {
    Sdsc,
    SdscCmd23,
    Sdhc,
    Emmc,
}

/// What it is built by.
pub fn spec_of(which: Which) -> CardSpec {
    match which {
        Which::Sdsc => sdsc(),
        Which::SdscCmd23 => sdsc_cmd23(),
        Which::Sdhc => sdhc(),
        Which::Emmc => emmc(),
    }
}

/// The card of a spec, after power on.
pub fn built(alloc: Global, spec: CardSpec) -> Result<SimCard, Fail> {
    Ok(SimCard::build(alloc, spec).ok().ok_or("not built")?)
}

/// Initializes the card of a bus, if that succeeds.
pub fn opened<B: Bus>(bus: &mut B) -> Option<Session> {
    initialize(bus).ok()
}

/// An R1 with this status.
pub fn r1(index: u8, status: u32) -> BusAnswer
    requires { index < 64 }
{
    BusAnswer::Command(Reply::Short(encode_response(index, status)))
}

/// What card `emmc` answers while it is opened, with this EXT_CSD.
pub fn answers_of_emmc(alloc: Global, ext_csd: [u8; 512]) -> Result<VecDeque<BusAnswer>, Fail> {
    let mut answers = VecDeque::new(alloc);
    answer_opening(alloc, &mut answers, 1, ext_csd)?;
    Ok(answers)
}

/// Adds what card `emmc` answers while it is opened, with this CSD and EXT_CSD.
pub fn answer_opening(
    alloc: Global,
    answers: &mut VecDeque<BusAnswer>,
    csd: u128,
    ext_csd: [u8; 512],
) -> Result<(), Fail> {
    let cid = BusAnswer::Command(Reply::Long(encode_r2(&1u128.to_be_bytes())));
    let csd = BusAnswer::Command(Reply::Long(encode_r2(&csd.to_be_bytes())));
    let mut block = Vec::new(alloc);
    block.extend_from_slice(&ext_csd)?;
    for answer in [
        BusAnswer::Command(Reply::Silent),
        BusAnswer::Command(Reply::Silent),
        BusAnswer::Command(Reply::Silent),
        BusAnswer::Command(Reply::Silent),
        BusAnswer::Command(Reply::Short(encode_r3(0xc0ff_8080))),
        cid,
        r1(3, 0x500),
        csd,
        r1(7, 0x700),
        BusAnswer::Busy(false),
        r1(13, 0x900),
        r1(8, 0x900),
        BusAnswer::In(DataIn::Good, Bytes::new(block)),
        r1(6, 0x900),
        BusAnswer::Busy(false),
        r1(13, 0x900),
        r1(6, 0x900),
        BusAnswer::Busy(false),
        r1(13, 0x900),
        r1(6, 0x900),
        BusAnswer::Busy(false),
        r1(13, 0x900),
    ] {
        pushed(answers, answer)?;
    }
    Ok(())
}

/// Adds one answer.
pub fn pushed(answers: &mut VecDeque<BusAnswer>, answer: BusAnswer) -> Result<(), Fail> {
    Ok(answers.push_back(answer).ok().ok_or("no room")?)
}

/// What a bus says once card `emmc` was opened.
#[derive(Clone, Copy)]
pub enum Said {
    /// An R1 to this command, 0 to 63, with this status.
    Response(u8, u32),
    /// No response to a command.
    Silent,
    /// Whether the card is busy.
    Busy(bool),
}

/// A bus that opens card `emmc`, then says this, and then nothing.
pub fn saying(alloc: Global, said: &[Said]) -> Result<ScriptedBus, Fail> {
    let mut answers = answers_of_emmc(alloc, ext_csd_of_emmc())?;
    for each in said.iter() {
        let answer = match *each {
            Said::Response(index, status) => r1(index % 64, status),
            Said::Silent => BusAnswer::Command(Reply::Silent),
            Said::Busy(is_busy) => BusAnswer::Busy(is_busy),
        };
        pushed(&mut answers, answer)?;
    }
    Ok(ScriptedBus::new(answers))
}
