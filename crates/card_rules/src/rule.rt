// A rule: when a fault is planned, and which.
ghost use Rattle.std.specs.Prelude.{◌≡◌, true};
ghost use Rattle.card_rules.specs.Rules.{IsPlanned, is_about, is_of_command, is_of_poll, is_of_read, is_of_write, is_within};

use crate::moment::Moment;
use mmc_card_sim::{Fault, Flips, Outcome};

/// Which exchanges a rule is about.
#[derive(Clone, Copy, Debug, PartialEq, Eq)]
pub enum When {
    /// The one with this number, counted from 0.
    At(u64),
    /// Each from this one on.
    From(u64),
    /// Each command with this index.
    Each(u8),
    /// The command with this index of which so many came before.
    After {
        /// The index, 0 to 63.
        index: u8,
        /// How many came before.
        before: u64,
    },
    /// Each block of these sectors that is read, by the address on the bus, whichever the partition.
    Read {
        /// The first one.
        first: u32,
        /// The last one.
        last: u32,
    },
    /// Each block of these sectors that is written.
    Write {
        /// The first one.
        first: u32,
        /// The last one.
        last: u32,
    },
    /// So many of so many, by chance.
    Chance {
        /// How many.
        of: u32,
        /// Of how many; not 0.
        out_of: u32,
    },
}

/// Which fault is planned.
#[derive(Clone, Copy, Debug, PartialEq, Eq)]
pub enum What {
    /// This one.
    This(Fault),
    /// Any that is of such an exchange, by chance, and leaves the card as it may be after a fault that is common on a bus.
    Any,
    /// The card is gone, and nothing comes from it: a command or a block that is written reaches none, and no block is sent.
    Gone,
}

/// A rule: in the exchanges that it is about a fault is planned, which falls where it fits.
#[derive(Clone, Copy, Debug, PartialEq, Eq)]
pub struct Rule {
    /// Which exchanges it is about.
    pub when: When,
    /// Which fault is planned.
    pub what: What,
}

// Whether the sector is one of these.
fn is_within(sector: Option<u32>, first: u32, last: u32) -> bool
    ensures { result ≡ is_within sector first last }
{
    match sector {
        None => false,
        Some(sector) => first <= sector && sector <= last,
    }
}

// A fault of a command, its response or a frame.
fn any_of_command(pick: u32) -> Fault
    ensures { is_of_command result ≡ true }
{
    match pick % 3 {
        0 => Fault::LoseCommand,
        1 => Fault::LoseReply,
        _ => Fault::FlipReply(Flips {
            first: (pick / 3 % 48) as u8,
            second: None,
        }),
    }
}

// A fault of a block that is read.
fn any_of_read(pick: u32) -> Fault
    ensures { is_of_read result ≡ true }
{
    match pick % 2 {
        0 => Fault::BadBlock,
        _ => Fault::NoBlock,
    }
}

// A fault of a block that is written.
fn any_of_write(pick: u32) -> Fault
    ensures { is_of_write result ≡ true }
{
    match pick % 4 {
        0 => Fault::Reject,
        1 => Fault::LoseBlock,
        2 => Fault::LoseStatus(Outcome::Old),
        _ => Fault::LoseStatus(Outcome::New),
    }
}

// A fault of programming.
fn any_of_poll(pick: u32) -> Fault
    ensures { is_of_poll result ≡ true }
{
    match pick % 2 {
        0 => Fault::Fail(Outcome::Old),
        _ => Fault::Fail(Outcome::New),
    }
}

impl Rule {
    /// Whether it is about this exchange, the one with this number, before which so many commands with its index came. The chance
    /// is a random number.
    pub fn is_about(self, number: u64, moment: Moment, before: u64, chance: u32) -> bool
        ensures { result ≡ is_about self.when number moment before chance }
    {
        match (self.when, moment) {
            (When::At(at), _) => at == number,
            (When::From(from), _) => from <= number,
            (When::Each(wanted), Moment::Command(index)) => wanted == index,
            (
                When::After {
                    index: wanted,
                    before: some,
                },
                Moment::Command(index),
            ) => { wanted == index && some == before }
            (When::Read { first, last }, Moment::Read(sector)) => is_within(sector, first, last),
            (When::Write { first, last }, Moment::Write(sector)) => is_within(sector, first, last),
            (When::Chance { of, out_of }, _) => out_of != 0 && chance % out_of < of,
            _ => false,
        }
    }

    /// The fault that it plans. The pick is a random number.
    pub fn fault(self, moment: Moment, pick: u32) -> Fault
        ensures { IsPlanned self.what moment result }
    {
        match (self.what, moment) {
            (What::This(fault), _) => fault,
            (What::Any, Moment::Command(_)) => any_of_command(pick),
            (What::Any, Moment::Read(_)) => any_of_read(pick),
            (What::Any, Moment::Write(_)) => any_of_write(pick),
            (What::Any, Moment::Poll) => any_of_poll(pick),
            // a poll can't be lost: where no card is the line isn't held down
            (What::Gone, Moment::Command(_) | Moment::Poll) => Fault::LoseCommand,
            (What::Gone, Moment::Read(_)) => Fault::NoBlock,
            (What::Gone, Moment::Write(_)) => Fault::LoseBlock,
        }
    }
}
