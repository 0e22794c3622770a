// The device over a host controller, behind which is a card in memory.
ghost use Rattle.std.specs.Prelude.{◌<◌};

use crate::cards::{Which, built, spec_of};
use crate::transfer::{filled, is_all};
use mmc_block::*;
use mmc_bus::{Bus, Part};
use mmc_card::{DataIn, DataOut, Lines, Reply, Timing, Want, Width};
use mmc_card_sim::{Fault, SimCard};
use mmc_frame::commands::SEND_RELATIVE_ADDR;
use mmc_frame::{encode, read_r1, read_r2, read_r3};
use mmc_host::*;
use std::alloc::Global;
use std::test::Fail;

// A controller with these limits. It notes whether a command of identification came at more than 400 kHz.
#[derive(Drop)]
struct Controller {
    card: SimCard,
    limits: Lines,
    ios: Option<Ios>,
    was_too_fast: bool,
}

// The register in a reply, without its check.
fn register_in(reply: Reply) -> Result<Heard, ResponseFault> {
    let Reply::Long(frame) = reply else {
        return Err(ResponseFault::Timeout);
    };
    let Ok(register) = read_r2(&frame) else {
        return Err(ResponseFault::Check);
    };
    let mut bytes = [0; 15];
    bytes.copy_from_slice(&register[..15]);
    Ok(Heard::Register(bytes))
}

// The OCR in a reply.
fn ocr_in(reply: Reply) -> Result<Heard, ResponseFault> {
    let Reply::Short(frame) = reply else {
        return Err(ResponseFault::Timeout);
    };
    match read_r3(&frame) {
        Ok(ocr) => Ok(Heard::Word(ocr)),
        Err(_) => Err(ResponseFault::EndBit),
    }
}

// The 32 bits of the response to this command.
fn word_in(reply: Reply, index: u8) -> Result<Heard, ResponseFault> {
    let Reply::Short(frame) = reply else {
        return Err(ResponseFault::Timeout);
    };
    match read_r1(&frame, index) {
        Ok(word) => Ok(Heard::Word(word)),
        Err(_) => Err(ResponseFault::Check),
    }
}

impl Host for Controller {
    ghost use Rattle.mmc_host.specs.Hosts.{unkept_host};

    ghost view = { λ _. unkept_host };

    ghost has_told = { λ _ _. Unit {0} };

    fn limits(&self) -> Lines {
        self.limits
    }

    fn set_ios(&mut self, ios: Ios) {
        self.card.set_lines(ios.width, ios.timing);
        self.ios = Some(ios);
    }

    fn send(&mut self, command: HostCommand) -> Result<Heard, ResponseFault> {
        let is_slow = match self.ios {
            None => true,
            Some(ios) => ios.is_identifying,
        };
        self.was_too_fast |= command.index <= SEND_RELATIVE_ADDR && !is_slow;
        let reply = self
            .card
            .command(encode(command.index, command.argument), Want::Short);
        match command.response {
            Response::Nothing => Ok(Heard::Nothing),
            Response::R2 => register_in(reply),
            Response::R3 => ocr_in(reply),
            _ => word_in(reply, command.index),
        }
    }

    fn read_block(&mut self, block: &mut [u8]) -> DataIn {
        self.card.read_data(block)
    }

    fn write_block(&mut self, block: &[u8; 512]) -> DataOut {
        self.card.write_data(block)
    }

    fn is_busy(&mut self, _work: Work) -> bool {
        self.card.busy()
    }

    fn pause(&mut self, micros: u32) {
        let _ = micros;
    }
}

// The bus over a controller with these limits.
fn bus_over(card: SimCard, limits: Lines) -> HostBus<Controller> {
    HostBus::new(Controller {
        card,
        limits,
        ios: None,
        was_too_fast: false,
    })
}

// A request of two sectors, from sector 1 on.
fn requests(alloc: Global) -> Result<[Request; 2], Fail> {
    let write = Request::Write {
        part: Part::User,
        start: 1,
        count: 2,
        bytes: filled(alloc, 0x5a, 2)?,
    };
    let read = Request::Read {
        part: Part::User,
        start: 1,
        count: 2,
    };
    Ok([write, read])
}

#[test]
fn serves_over_a_controller(rt: HostRuntime) -> Result<(), Fail> {
    for which in [Which::Sdsc, Which::SdscCmd23, Which::Sdhc, Which::Emmc] {
        let mut card = built(rt.alloc(), spec_of(which))?;
        for (exchange, fault) in [
            (19, Fault::Reject),
            (25, Fault::LoseReply),
            (31, Fault::BadBlock),
        ] {
            card.plan(exchange, fault).ok().ok_or("not planned")?;
        }
        let bus = bus_over(card, Lines::all());
        let mut device = BlockDev::open(rt.alloc(), bus).ok().ok_or("no device")?;
        for request in requests(rt.alloc())? {
            assert!(rt; device.submit(rt.alloc(), 1, request).is_ok());
        }
        let answers = device.run(rt.alloc())?;
        assert_eq!(rt; answers.len(), 2);
        match answers.last() {
            Some(
                Completion {
                    answer: Answer::Data(bytes),
                    ..
                },
            ) => assert!(rt; is_all(bytes.as_slice(), 0x5a)),
            _ => assert!(rt; false),
        }
        let bus = device.close();
        assert!(rt; !bus.is_misused());
        assert!(rt; !bus.host().was_too_fast);
    }
    Ok(())
}

// The lines that a card uses over a host with these limits, once it was opened and gave back what was written.
fn lines_used(alloc: Global, which: Which, limits: Lines) -> Result<Lines, Fail> {
    let bus = bus_over(built(alloc, spec_of(which))?, limits);
    let mut device = BlockDev::open(alloc, bus).ok().ok_or("no device")?;
    for request in requests(alloc)? {
        device.submit(alloc, 1, request).ok().ok_or("refused")?;
    }
    let answers = device.run(alloc)?;
    let is_read = match answers.last() {
        Some(
            Completion {
                answer: Answer::Data(bytes),
                ..
            },
        ) => is_all(bytes.as_slice(), 0x5a),
        _ => false,
    };
    let lines = Lines {
        width: device.info().width,
        timing: device.info().timing,
    };
    if !is_read || device.close().is_misused() {
        return Err("not served".into());
    }
    Ok(lines)
}

// Both cards have four lines at least, and high speed.
#[test]
fn uses_no_more_lines_than_the_host_has(rt: HostRuntime) -> Result<(), Fail> {
    let four = Lines {
        width: Width::Four,
        timing: Timing::High,
    };
    let one = Lines {
        width: Width::One,
        timing: Timing::Default,
    };
    for which in [Which::Sdhc, Which::Emmc] {
        for limits in [four, one] {
            assert_eq!(rt; lines_used(rt.alloc(), which, limits)?, limits);
        }
    }
    Ok(())
}
