// What proofs note of a call of C. Nothing here has bytes, or does anything at run time.
ghost use Rattle.std.specs.Borrow.{ftrue};
ghost use Rattle.std.specs.Prelude.{List};
ghost use Rattle.mmc_card.specs.Sectors.{Sector};
ghost use Rattle.kelifandro.specs.History as Has;
ghost use Rattle.kelifandro.specs.History.Call.{Closed, Opened, Served};

use ghost_diary::{Noted, Seen};
use mmc_direct::Asked;
use std::marker::Model;

/// A call of C, as proofs see it.
#[derive(Drop)]
pub struct Called {
    ghost call: { Has.Call },
}

impl Model for Called {
    ghost Value = { Has.Call };

    ghost view = { λ called. called.call };

    ghost also_owns = { λ _. ftrue };
}

/// What memory holds, as proofs see it.
#[derive(Drop)]
pub struct Memory {
    ghost sectors: { List Sector },
}

impl Model for Memory {
    ghost Value = { List Sector };

    ghost view = { λ memory. memory.sectors };

    ghost also_owns = { λ _. ftrue };
}

// Memory that is shown.
#[derive(Drop)]
pub(crate) struct Shown<'a> {
    pub(crate) blocks: &'a [[u8; 512]],
}

impl Noted<Memory> for Shown<'_> {
    ghost says = { λ shown. shown.blocks.now };
}

// The card was opened, or wasn't.
#[derive(Drop)]
pub(crate) struct Opening {
    pub(crate) number: i32,
}

impl Noted<Called> for Opening {
    ghost says = { λ call. Opened call.number };
}

// A request was served, or refused.
#[derive(Drop)]
pub(crate) struct Serving<'a> {
    pub(crate) asked: &'a Asked,
    pub(crate) before: &'a Seen<Memory>,
    pub(crate) after: &'a [[u8; 512]],
    pub(crate) number: i32,
}

impl Noted<Called> for Serving<'_> {
    ghost says = { λ call. Served (record { asked = call.asked.now; before = call.before.now; after = call.after.now; number = call.number }) };
}

// The card was closed.
#[derive(Drop)]
pub(crate) struct Closing;

impl Noted<Called> for Closing {
    ghost says = { λ call. Closed };
}
