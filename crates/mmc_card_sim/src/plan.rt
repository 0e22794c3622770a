// The faults that are planned for the exchanges of a card in memory.
ghost use Rattle.std.specs.Prelude.{◌≡◌, ◌<◌, ◌≤◌, ◌==◌, ◌+◌, IfErr, IfNone, IfSome, IsOk, None, OnErr, Some, []};
ghost use Rattle.std.specs.Prelude.{false, filter, if◌then◌else◌, length, nat_le, slice_index_or, take, true, ℕ};
ghost use Rattle.mmc_card_sim.specs.declared.plan.Planned.{Planned};
ghost use Rattle.mmc_card_sim.specs.Plan.{fault_at, is_full, refusal_of, to_come};

use crate::fault::Fault;
use arrayvec::ArrayVec;
use std::marker::Model;
use thiserror::Error;

/// The most exchanges for which a fault may be planned.
pub const MAX_PLANNED: usize = 256;

/// Why a fault isn't planned. Where both hold, the first is named.
#[derive(Clone, Copy, Debug, PartialEq, Eq, Error)]
pub enum PlanFault {
    /// `MAX_PLANNED` other exchanges have been planned, past ones too.
    #[error("too many planned faults")]
    PlanFull,
    /// The exchange has been made already, or its number is 2^64 - 1, at which the count of exchanges stays.
    #[error("the exchange is past")]
    InThePast,
}

/// A fault, and the exchange for which it is planned, counted from 0.
#[derive(Clone, Copy, Debug, PartialEq, Eq)]
pub struct Planned {
    /// The number of the exchange.
    pub exchange: u64,
    /// What is to happen in it.
    pub fault: Fault,
}

impl Default for Planned {
    fn default() -> Planned {
        Planned {
            exchange: 0,
            fault: Fault::LoseCommand,
        }
    }
}

/// The faults that are planned, one an exchange.
#[derive(Debug, Drop)]
pub struct Plan {
    planned: ArrayVec<Planned, MAX_PLANNED>,
}

impl Model for Plan {
    ghost use Rattle.std.specs.Prelude.{List};
    ghost use Rattle.mmc_card_sim.specs.declared.plan.Planned.{Planned};

    ghost Value = { List Planned };

    ghost view = { λ plan. plan.planned.items };
}

impl Plan {
    /// No fault is planned.
    pub fn new() -> Plan
        ensures { result ≡ [] }
    {
        Plan {
            planned: ArrayVec::new(),
        }
    }

    /// Whether no fault is planned.
    pub fn is_empty(&self) -> bool
        ensures { result ≡ true → self.now ≡ [] }
    {
        self.planned.is_empty()
    }

    // The place of an exchange among those that are planned.
    fn place_of(&self, exchange: u64) -> Option<usize>
        ensures there { IfSome result (λ i. (i < length self.now) × (fault_at (take i self.now) exchange ≡ None)) }
        ensures same { IfSome result (λ i. (default : Planned)
            → (slice_index_or self.now i default).exchange ≡ exchange) }
        ensures none { IfNone result (fault_at self.now exchange ≡ None) }
    {
        for i in 0..self.planned.len() {
            if self.planned[i].exchange == exchange {
                return Some(i);
            }
        }
        None
    }

    /// The fault that is planned for this exchange.
    pub fn fault(&self, exchange: u64) -> Option<Fault>
        ensures { result ≡ fault_at self.now exchange }
    {
        match self.place_of(exchange) {
            Some(i) => Some(self.planned[i].fault),
            None => None,
        }
    }

    // Why a fault isn't planned for this exchange, where so many have been made.
    fn refusal(&self, exchange: u64, made: u64) -> Option<PlanFault>
        ensures { result ≡ refusal_of self.now exchange made }
    {
        if self.fault(exchange).is_none() && self.planned.is_full() {
            Some(PlanFault::PlanFull)
        } else if exchange < made || exchange == u64::MAX {
            Some(PlanFault::InThePast)
        } else {
            None
        }
    }

    // Puts a fault in the place of the one for this exchange, or after all others.
    fn put(&mut self, exchange: u64, fault: Fault)
        requires { is_full self.old (fault_at self.old exchange) ≡ false }
        ensures planned { (e : ℕ) → fault_at self.new e ≡ (if exchange == e then Some fault else fault_at self.old e) }
        ensures grows { length self.new ≤ length self.old + 1 }
    {
        let planned = Planned { exchange, fault };
        match self.place_of(exchange) {
            Some(i) => self.planned[i] = planned,
            None => self.planned.push(planned),
        }
    }

    /// Plans a fault for an exchange, where so many exchanges have been made; a second one for the same exchange
    /// replaces the first.
    ///
    /// # Errors
    /// `PlanFull`, then `InThePast`; nothing has changed then.
    pub fn plan(&mut self, exchange: u64, fault: Fault, made: u64) -> Result<(), PlanFault>
        ensures refused { IfErr result (λ why. refusal_of self.old exchange made ≡ Some why) }
        ensures unchanged { OnErr result (self.new ≡ self.old) }
        ensures planned { IsOk result → refusal_of self.old exchange made ≡ None }
        ensures replaced { IsOk result → (e : ℕ)
            → fault_at self.new e ≡ (if exchange == e then Some fault else fault_at self.old e) }
        ensures grows { length self.new ≤ length self.old + 1 }
    {
        if let Some(why) = self.refusal(exchange, made) {
            return Err(why);
        }
        self.put(exchange, fault);
        Ok(())
    }

    /// Forgets the faults of exchanges that are past, where so many have been made, so that there is room for others.
    pub fn forget_past(&mut self, made: u64)
        ensures kept { self.new ≡ filter (λ p. nat_le made p.exchange) self.old }
        ensures same { (e : ℕ) → made ≤ e → fault_at self.new e ≡ fault_at self.old e }
        ensures room { length self.new ≡ to_come self.old made }
    {
        self.planned.retain(|planned| planned.exchange >= made);
    }
}
