ghost use Rattle.std.specs.Prelude.{◌≡◌, length};
ghost use Rattle.mmc_bus.specs.Exchanges.{Commanded, DataWritten, Polled, DataRead};
ghost use Rattle.mmc_bus.specs.Scripted.{IsFilled, PollsNext, ReadsNext, RepliesNext, WritesNext};

use crate::bus::Bus;
use crate::bytes::Bytes;
use crate::wire::Wire;
use mmc_card::{DataIn, DataOut, Exchange, Lines, Reply, Timing, Want, Width};
use std::collections::VecDeque;

/// An answer that a `ScriptedBus` has ready, for one kind of exchange.
#[derive(Debug, Drop)]
pub enum BusAnswer {
    /// To a command.
    Command(Reply),
    /// To a block that is to be read, with its bytes.
    In(DataIn, Bytes),
    /// To a block that is written.
    Out(DataOut),
    /// To a poll.
    Busy(bool),
}

/// A bus for tests: it gives the answers of a list, in their order. It is never kept to a card.
///
/// An exchange whose kind is that of the next answer uses it up. Any other leaves it, and gets `Silent`, `Nothing` or
/// no.
#[derive(Debug, Drop)]
pub struct ScriptedBus {
    answers: VecDeque<BusAnswer>,
    wire: Wire,
}

// The reply to a command.
fn next_reply(answers: &mut VecDeque<BusAnswer>) -> Reply
    ensures { RepliesNext answers.old.items result answers.new.items }
{
    let Some(BusAnswer::Command(reply)) = answers.front() else {
        return Reply::Silent;
    };
    let reply = *reply;
    let _ = answers.pop_front();
    reply
}

// What becomes of a block that is written.
fn next_status(answers: &mut VecDeque<BusAnswer>) -> DataOut
    ensures { WritesNext answers.old.items result answers.new.items }
{
    let Some(BusAnswer::Out(got)) = answers.front() else {
        return DataOut::Nothing;
    };
    let got = *got;
    let _ = answers.pop_front();
    got
}

// Whether a poll finds the card busy.
fn next_poll(answers: &mut VecDeque<BusAnswer>) -> bool
    ensures { PollsNext answers.old.items result answers.new.items }
{
    let Some(BusAnswer::Busy(yes)) = answers.front() else {
        return false;
    };
    let yes = *yes;
    let _ = answers.pop_front();
    yes
}

// These bytes, cut or filled with 00h to the buffer.
fn fill(buffer: &mut [u8], bytes: &[u8])
    ensures { IsFilled bytes.now buffer.new }
{
    for i in 0..buffer.len() {
        buffer[i] = if i < bytes.len() { bytes[i] } else { 0 };
    }
}

// What becomes of a block that is to be read.
fn next_block(answers: &mut VecDeque<BusAnswer>, buffer: &mut [u8]) -> DataIn
    ensures { ReadsNext answers.old.items result buffer.new answers.new.items }
{
    let Some(BusAnswer::In(got, bytes)) = answers.front() else {
        return DataIn::Nothing;
    };
    let got = *got;
    fill(buffer, bytes.as_slice());
    let _ = answers.pop_front();
    got
}

impl ScriptedBus {
    ghost use Rattle.mmc_bus.specs.ScriptedBus.{answers_of, scripted_bus_view};
    ghost use Rattle.mmc_bus.specs.Wires.{IsUnused};

    /// A bus that gives these answers, with one line at default speed, of a host that limits nothing.
    pub fn new(answers: VecDeque<BusAnswer>) -> ScriptedBus
        ensures answers { answers_of result ≡ answers.items }
        ensures unused { IsUnused (scripted_bus_view result) }
    {
        ScriptedBus {
            answers,
            wire: Wire::new(),
        }
    }
}

impl Bus for ScriptedBus {
    ghost use Rattle.mmc_bus.specs.ScriptedBus.{answers_of, scripted_bus_view};

    ghost view = { scripted_bus_view };

    fn limits(&self) -> Lines {
        self.wire.limits
    }

    fn command(&mut self, frame: [u8; 6], want: Want) -> Reply
        ensures exchanged { Commanded (scripted_bus_view self.old) frame want result (scripted_bus_view self.new) }
        ensures next { RepliesNext (answers_of self.old) result (answers_of self.new) }
    {
        let reply = next_reply(&mut self.answers);
        self.wire.note(Exchange::Command { frame, want, reply });
        reply
    }

    fn read_data(&mut self, buffer: &mut [u8]) -> DataIn
        ensures exchanged { DataRead (scripted_bus_view self.old) (length buffer.old) result buffer.new
            (scripted_bus_view self.new) }
        ensures next { ReadsNext (answers_of self.old) result buffer.new (answers_of self.new) }
    {
        let got = next_block(&mut self.answers, buffer);
        self.wire.note(Exchange::In {
            len: buffer.len(),
            got,
        });
        got
    }

    fn write_data(&mut self, block: &[u8; 512]) -> DataOut
        ensures exchanged { DataWritten (scripted_bus_view self.old) block.now result (scripted_bus_view self.new) }
        ensures next { WritesNext (answers_of self.old) result (answers_of self.new) }
    {
        let _ = block;
        let got = next_status(&mut self.answers);
        self.wire.note(Exchange::Out { got });
        got
    }

    fn busy(&mut self) -> bool
        ensures exchanged { Polled (scripted_bus_view self.old) result (scripted_bus_view self.new) }
        ensures next { PollsNext (answers_of self.old) result (answers_of self.new) }
    {
        let yes = next_poll(&mut self.answers);
        self.wire.note(Exchange::Busy { yes });
        yes
    }

    fn set_lines(&mut self, width: Width, timing: Timing) {
        self.wire.set_lines(width, timing);
    }
}
