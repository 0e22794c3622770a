// The device over a bus on which nothing answers, and one with its history over a card in memory.
use crate::cards::{Which, built, spec_of};
use crate::transfer::{filled, is_all};
use mmc_block::*;
use mmc_bus::{ScriptedBus, TraceBus};
use mmc_history::Device;
use std::alloc::Global;
use std::collections::VecDeque;
use std::test::Fail;

// Where nothing answers, a round is five exchanges: CMD0; CMD8, without which the card is one that doesn't know it; CMD55,
// without which it is no SD card; CMD0 again, for an eMMC device; and CMD1, at which the first silence ends the round.
const EXCHANGES_OF_A_ROUND: usize = 5;

// A write of sector 7.
fn write_of(alloc: Global) -> Result<Request, Fail> {
    Ok(Request::Write {
        part: Part::User,
        start: 7,
        count: 1,
        bytes: filled(alloc, 0x5a, 1)?,
    })
}

// A read of it.
fn read() -> Request {
    Request::Read {
        part: Part::User,
        start: 7,
        count: 1,
    }
}

#[test]
fn finds_no_card(rt: HostRuntime) -> Result<(), Fail> {
    let silent = ScriptedBus::new(VecDeque::new(rt.alloc()));
    let bus = TraceBus::new(rt.alloc(), silent, 400)
        .ok()
        .ok_or("no trace")?;
    let (bus, fault) = BlockDev::open(rt.alloc(), bus).err().ok_or("a card")?;
    assert_eq!(rt; fault, OpenFault::NoCard);
    assert_eq!(rt; bus.len(), 3 * EXCHANGES_OF_A_ROUND);
    Ok(())
}

// What a device with its history does: a write, a read of it, and one that waits and is given back.
#[test]
fn serves_with_its_history(rt: HostRuntime) -> Result<(), Fail> {
    let card = built(rt.alloc(), spec_of(Which::Sdhc))?;
    let mut device = Device::open(rt.alloc(), card).ok().ok_or("no card")?;
    for request in [write_of(rt.alloc())?, read(), read()] {
        assert!(rt; device.submit(rt.alloc(), 1, request).is_ok());
    }
    assert!(rt; device.cancel(2).is_ok());
    let mut answers = device.turn();
    for _ in 0..100 {
        if answers.is_empty() {
            answers = device.turn();
        }
    }
    assert!(rt;
        matches!(
            answers.first(),
            Some(Completion {
                answer: Answer::Done,
                ..
            })
        )
    );
    let mut answers = device.turn();
    for _ in 0..100 {
        if answers.is_empty() {
            answers = device.turn();
        }
    }
    match answers.first() {
        Some(
            Completion {
                answer: Answer::Data(bytes),
                ..
            },
        ) => assert!(rt; is_all(bytes.as_slice(), 0x5a)),
        _ => assert!(rt; false),
    }
    assert_eq!(rt; device.device().waiting(), 0);
    Ok(())
}
