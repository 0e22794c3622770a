// A controller, as a driver would see one: it takes commands, judges the checks of responses and blocks, and strips them. Behind
// this one is a card in memory; yours has registers.
ghost use Rattle.std.specs.Prelude.{◌<◌};

use anyhow::{Result, anyhow};
use mmc_bus::{Bus, DataIn, DataOut, Reply, Timing, Want, Width};
use mmc_card_sim::example_cards::sdsc;
use mmc_card_sim::{Fault, Outcome, SimCard};
use mmc_frame::{encode, read_r1, read_r2, read_r3};
use std::alloc::Global;

/// A controller with a card.
#[derive(Drop)]
pub struct Controller {
    card: SimCard,
}

// Bits 127 to 8 of a register.
fn without_check(register: &[u8; 16]) -> [u8; 15] {
    let mut bytes = [0; 15];
    bytes.copy_from_slice(&register[..15]);
    bytes
}

impl Controller {
    /// One with an SD card of four sectors, which fails to program the first block that is written, at the poll after it; and the
    /// response that would say so is lost.
    pub fn new(alloc: Global) -> Result<Controller> {
        let Ok(mut card) = SimCard::build(alloc, sdsc()) else {
            return Err(anyhow!("no memory for a card"));
        };
        card.plan(19, Fault::Fail(Outcome::Old))?;
        card.plan(20, Fault::LoseReply)?;
        Ok(Controller { card })
    }

    /// Sends a command without a response.
    pub fn send(&mut self, index: u8, argument: u32)
        requires { index < 64 }
    {
        let _silence = self.card.command(encode(index, argument), Want::Nothing);
    }

    /// Sends a command with a response of 48 bits, whose check and index it judges. It tells the 32 bits between them.
    pub fn send_checked(&mut self, index: u8, argument: u32) -> Option<u32>
        requires { index < 64 }
    {
        match self.card.command(encode(index, argument), Want::Short) {
            Reply::Short(frame) => read_r1(&frame, index).ok(),
            _ => None,
        }
    }

    /// Sends a command with a response of 48 bits without a check, an OCR.
    pub fn send_unchecked(&mut self, index: u8, argument: u32) -> Option<u32>
        requires { index < 64 }
    {
        match self.card.command(encode(index, argument), Want::Short) {
            Reply::Short(frame) => read_r3(&frame).ok(),
            _ => None,
        }
    }

    /// Sends a command with a response of 136 bits, whose check it judges. It tells bits 127 to 8.
    pub fn send_long(&mut self, index: u8, argument: u32) -> Option<[u8; 15]>
        requires { index < 64 }
    {
        let Reply::Long(frame) = self.card.command(encode(index, argument), Want::Long) else {
            return None;
        };
        let register = read_r2(&frame).ok()?;
        Some(without_check(&register))
    }

    /// Receives a block of the buffer's length.
    pub fn receive(&mut self, buffer: &mut [u8]) -> DataIn {
        self.card.read_data(buffer)
    }

    /// Transmits a block.
    pub fn transmit(&mut self, block: &[u8; 512]) -> DataOut {
        self.card.write_data(block)
    }

    /// Whether the card holds its data line low.
    pub fn is_busy(&mut self) -> bool {
        self.card.busy()
    }

    /// Sets how many lines are in use, and whether they are sampled as at high speed.
    pub fn set_lines(&mut self, width: Width, timing: Timing) {
        self.card.set_lines(width, timing);
    }

    /// Sets the clock in hertz. The card in memory has none.
    pub fn set_clock(&mut self, _hertz: u32) {}

    /// Waits for so many microseconds. The card in memory needs none.
    pub fn wait(&mut self, _micros: u32) {}
}
