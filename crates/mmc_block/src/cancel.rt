ghost use Rattle.std.specs.Prelude.{◌≡◌, ◌↔◌, Err, IfOk, OnErr, false, true};
ghost use Rattle.mmc_block.specs.Entries.{waits_of};
ghost use Rattle.mmc_block.specs.Machine.{IsTicketOf};
ghost use Rattle.mmc_block.specs.Service.{in_service_of, service_of};

use crate::device::BlockDev;
use crate::service::{Attempt, Phase};
use mmc_bus::Bus;
use mmc_queue::{Entry, Members, Request};
use thiserror::Error;

/// Why a request isn't given back.
#[derive(Clone, Copy, Debug, PartialEq, Eq, Error)]
pub enum CancelFault {
    /// No request with this ticket is without an answer.
    #[error("no such request")]
    Unknown,
    /// The request is in service.
    #[error("the request is in service")]
    InService,
}

// Whether one of these has the ticket.
fn has(members: &Members, ticket: u64) -> bool
    ensures yes { result ≡ true → IsTicketOf ticket (waits_of members.now.items) }
    ensures no { result ≡ false → IsTicketOf ticket (waits_of members.now.items) → ⊥ }
{
    for member in members.as_slice() {
        if member.ticket == ticket {
            return true;
        }
    }
    false
}

// Whether a request in service has the ticket.
fn is_in_service(phase: &Phase, attempt: &Attempt, ticket: u64) -> bool
    ensures yes { result ≡ true → IsTicketOf ticket (in_service_of (service_of phase.now attempt.now)) }
    ensures no { result ≡ false → IsTicketOf ticket (in_service_of (service_of phase.now attempt.now)) → ⊥ }
{
    match phase {
        Phase::Idle(_) | Phase::Taken => false,
        Phase::Serving(_) => has(&attempt.group.members, ticket) || has(&attempt.others, ticket),
    }
}

impl<B: Bus> BlockDev<B> {
    ghost use Rattle.mmc_block.specs.declared.cancel.CancelFault.TheVariants.{InService, Unknown};
    ghost use Rattle.mmc_block.specs.Device.{Comes, Withdraws};
    ghost use Rattle.mmc_block.specs.Execution.{Counted, CountedSteps, cancelled_reply};
    ghost use Rattle.mmc_block.specs.Execution.Event.{Cancel};

    /// Gives back a request that waits. Nothing is sent, and it takes no memory.
    ///
    /// # Errors
    /// `InService` where the request is in service; `Unknown` where no request with this ticket is without an answer.
    /// Nothing has changed then.
    pub fn cancel(&mut self, ticket: u64) -> Result<Request, CancelFault>
        ensures machine { Comes B.view self.old (λ (c n : Counted). CountedSteps self.old.info c (Cancel ticket) (cancelled_reply result) n) self.new }
        ensures cancelled { IfOk result (λ request. Withdraws self.old ticket request self.new) }
        ensures refused { OnErr result (self.new ≡ self.old) }
        ensures in_service { (result ≡ Err InService) ↔ IsTicketOf ticket (in_service_of self.old.service) }
        ensures unknown { (result ≡ Err Unknown)
            ↔ ((IsTicketOf ticket self.old.waits → ⊥) × (IsTicketOf ticket (in_service_of self.old.service) → ⊥)) }
    {
        if is_in_service(&self.phase, &self.attempt, ticket) {
            return Err(CancelFault::InService);
        }
        let Ok(entry) = self.queue.take(ticket) else {
            return Err(CancelFault::Unknown);
        };
        let Entry {
            ticket: _,
            client: _,
            request,
            buffer: _,
        } = entry;
        Ok(request)
    }
}
