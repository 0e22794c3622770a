// The functions over a driver of a card in memory.
use crate::{open, submit, turn};
use mmc_block::{Answer, BlockDev, Bus, Bytes, Completion, Part, Request};
use mmc_card::{DataIn, DataOut, Lines, Reply, Timing, Want, Width};
use mmc_card_sim::SimCard;
use mmc_card_sim::example_cards::sdsc;
use mmc_frame::{encode, read_r1, read_r2, read_r3};
use mmc_host::{Heard, Host, HostCommand, Ios, Response, ResponseFault, Work};
use mmc_story::{HasStory, StoryBus};
use std::alloc::Global;
use std::marker::Brand;
use std::test::Fail;

// The driver, of which nothing is proved.
#[derive(Drop)]
struct Driver {
    card: SimCard,
}

// What came, without its check.
fn heard_in(reply: Reply, command: HostCommand) -> Option<Heard> {
    match reply {
        Reply::Silent => None,
        Reply::Short(frame) => {
            let word = match command.response {
                Response::R3 => read_r3(&frame).ok()?,
                _ => read_r1(&frame, command.index).ok()?,
            };
            Some(Heard::Word(word))
        }
        Reply::Long(frame) => {
            let register = read_r2(&frame).ok()?;
            let mut bytes = [0; 15];
            bytes.copy_from_slice(&register[..15]);
            Some(Heard::Register(bytes))
        }
    }
}

impl Host for Driver {
    ghost use Rattle.mmc_host.specs.Hosts.{unkept_host};

    ghost view = { λ _. unkept_host };

    ghost has_told = { λ _ _. Unit {0} };

    fn limits(&self) -> Lines {
        Lines {
            width: Width::Four,
            timing: Timing::High,
        }
    }

    fn set_ios(&mut self, ios: Ios) {
        self.card.set_lines(ios.width, ios.timing);
    }

    fn send(&mut self, command: HostCommand) -> Result<Heard, ResponseFault> {
        let want = match command.response {
            Response::Nothing => Want::Nothing,
            Response::R2 => Want::Long,
            _ => Want::Short,
        };
        let reply = self
            .card
            .command(encode(command.index, command.argument), want);
        let heard = match command.response {
            Response::Nothing => Some(Heard::Nothing),
            _ => heard_in(reply, command),
        };
        heard.ok_or(ResponseFault::Timeout)
    }

    fn read_block(&mut self, block: &mut [u8]) -> DataIn {
        self.card.read_data(block)
    }

    fn write_block(&mut self, block: &[u8; 512]) -> DataOut {
        self.card.write_data(block)
    }

    fn is_busy(&mut self, _work: Work) -> bool {
        self.card.busy()
    }

    fn pause(&mut self, micros: u32) {
        let _ = micros;
    }
}

// Takes turns until an answer comes; a write or a read of one sector takes fewer than thirty.
fn next<S: HasStory>(device: &mut BlockDev<StoryBus<Driver, S>>) -> Option<Completion> {
    for _ in 0..30 {
        if let Some(completion) = turn(device).pop() {
            return Some(completion);
        }
    }
    None
}

// A sector is written and read back.
fn serve<S: HasStory>(alloc: Global, driver: Driver) -> Result<Bytes, Fail> {
    let mut device = open::<Driver, S>(alloc, driver).ok().ok_or("no device")?;
    let write = Request::Write {
        part: Part::User,
        start: 1,
        count: 1,
        bytes: Bytes::new(vec![in alloc; 0x5a; 512]?),
    };
    let read = Request::Read {
        part: Part::User,
        start: 1,
        count: 1,
    };
    for request in [write, read] {
        submit(alloc, &mut device, 1, request)
            .ok()
            .ok_or("refused")?;
    }
    let Some(
        Completion {
            answer: Answer::Done,
            ..
        },
    ) = next(&mut device)
    else {
        return Err("not written".into());
    };
    let Some(
        Completion {
            answer: Answer::Data(bytes),
            ..
        },
    ) = next(&mut device)
    else {
        return Err("not read".into());
    };
    let bus = device.close();
    if bus.is_misused() || bus.host().host().card.exchanges() != bus.exchanges() {
        return Err("other exchanges than the card's".into());
    }
    Ok(bytes)
}

#[test]
fn serves_over_a_driver(rt: HostRuntime) -> Result<(), Fail> {
    let card = SimCard::build(rt.alloc(), sdsc()).ok().ok_or("no card")?;
    let bytes = serve::<Brand>(rt.alloc(), Driver { card })?;
    assert_eq!(rt; bytes.as_slice().len(), 512);
    assert!(rt; bytes.as_slice().iter().all(|byte| *byte == 0x5a));
    Ok(())
}
