//! An example of a user of the device: over a host controller of its own, a sector is written and read back, on a card that fails.
#![tactic(auto)]

mod controller;
mod driver;

use anyhow::{Result, anyhow};
use controller::Controller;
use driver::Driver;
use mmc_block::{Answer, BlockDev, Bytes, Completion, Part, Request};
use mmc_host::HostBus;

// Sector 1, filled with 5Ah, and then a read of it. The numbers in front are those of the clients, which the answers name.
fn submit(rt: &impl AllocGlobal, device: &mut BlockDev<HostBus<Driver>>) -> Result<()> {
    let bytes = Bytes::new(vec![in rt.alloc(); 0x5a; 512]?);
    let write = Request::Write {
        part: Part::User,
        start: 1,
        count: 1,
        bytes,
    };
    let read = Request::Read {
        part: Part::User,
        start: 1,
        count: 1,
    };
    for (client, request) in [(1, write), (2, read)] {
        match device.submit(rt.alloc(), client, request) {
            Ok(_ticket) => {}
            Err((_request, refused)) => return Err(refused.into()),
        }
    }
    Ok(())
}

// A line for an answer.
fn print(rt: &impl Print, completion: &Completion) -> Result<()> {
    let ticket = completion.ticket;
    match &completion.answer {
        Answer::Done => println!(rt; "{ticket}: done")?,
        Answer::Data(bytes) => println!(rt; "{ticket}: {} bytes", bytes.as_slice().len())?,
        Answer::Failed(cause) => println!(rt; "{ticket}: failed, {cause}")?,
    }
    Ok(())
}

fn main(rt: HostRuntime) -> Result<()> {
    let controller = Controller::new(rt.alloc())?;
    let bus = HostBus::new(Driver { controller });
    let Ok(mut device) = BlockDev::open(rt.alloc(), bus) else {
        return Err(anyhow!("the card isn't opened"));
    };
    let opened = device.bus().exchanges();
    submit(&rt, &mut device)?;
    for completion in device.run(rt.alloc())?.iter() {
        print(&rt, completion)?;
    }
    let served = device.bus().exchanges().saturating_sub(opened);
    println!(rt; "{served} exchanges")?;
    Ok(())
}
