// What proofs note of a call. Nothing here has bytes, or does anything at run time.
ghost use Rattle.std.specs.Borrow.{ftrue};
ghost use Rattle.mmc_block.specs.Clients.{Told};
ghost use Rattle.mmc_block.specs.Clients.Told.{Answered, Cancelled, Submitted};
ghost use Rattle.mmc_card.specs.BusView.{BusView};

use ghost_diary::{Noted, Seen};
use mmc_block::{Bus, CancelFault, Completions, Refused, Request, Ticket};
use std::marker::Model;

/// A call of a device with its reply, as proofs see it.
#[derive(Drop)]
pub struct Call {
    ghost told: { Told },
}

impl Model for Call {
    ghost Value = { Told };

    ghost view = { λ call. call.told };

    ghost also_owns = { λ _. ftrue };
}

/// A bus, as contracts see it.
#[derive(Drop)]
pub struct View {
    ghost bus: { BusView },
}

impl Model for View {
    ghost Value = { BusView };

    ghost view = { λ seen. seen.bus };

    ghost also_owns = { λ _. ftrue };
}

// The view of a bus.
#[derive(Drop)]
pub(crate) struct Shown<'a, B> {
    pub(crate) bus: &'a B,
}

impl<B: Bus> Noted<View> for Shown<'_, B> {
    ghost says = { λ shown. B.view shown.bus.now };
}

// A submission.
#[derive(Drop)]
pub(crate) struct Submission<'a> {
    pub(crate) client: u32,
    pub(crate) request: &'a Seen<Request>,
    pub(crate) reply: &'a Result<Ticket, (Request, Refused)>,
}

impl Noted<Call> for Submission<'_> {
    ghost says = { λ call. Submitted call.client call.request.now call.reply.now };
}

// A cancellation.
#[derive(Drop)]
pub(crate) struct Cancellation<'a> {
    pub(crate) ticket: Ticket,
    pub(crate) reply: &'a Result<Request, CancelFault>,
}

impl Noted<Call> for Cancellation<'_> {
    ghost says = { λ call. Cancelled call.ticket call.reply.now };
}

// A turn.
#[derive(Drop)]
pub(crate) struct Turned<'a> {
    pub(crate) answers: &'a Completions,
}

impl Noted<Call> for Turned<'_> {
    ghost says = { λ call. Answered call.answers.now.items };
}
