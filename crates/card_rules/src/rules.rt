// The rules of a card, and what they go by.
ghost use Rattle.std.specs.Prelude.{◌≡◌};
ghost use Rattle.card_rules.specs.Chosen.{IsSaid, before_of, counted};

use crate::moment::Moment;
use crate::rule::Rule;
use crate::rule_text::read_rule;
use mmc_card_sim::Fault;
use rand_core::Rng;
use rand_pcg::Pcg32;
use std::alloc::{AllocError, AllocFailed, Global};
use thiserror::Error;

// How many indices commands have.
const INDICES: usize = 64;

// The stream of random numbers.
const STREAM: u64 = 1;

/// Why there are no rules.
#[derive(Clone, Copy, Debug, PartialEq, Eq, Error)]
pub enum RuleFault {
    /// A text says no rule.
    #[error("no rule")]
    BadRule,
    /// Memory was refused.
    #[error("no memory")]
    NoMemory,
}

impl From<AllocError> for RuleFault {
    fn from(_: AllocError) -> RuleFault {
        RuleFault::NoMemory
    }
}

impl<T: Drop> From<AllocFailed<T>> for RuleFault {
    fn from(_: AllocFailed<T>) -> RuleFault {
        RuleFault::NoMemory
    }
}

// What the first rule plans that is about this exchange.
fn said(
    rules: &[Rule],
    random: &mut Pcg32,
    number: u64,
    moment: Moment,
    before: u64,
) -> Option<Fault>
    ensures { IsSaid rules.now number moment before result }
{
    for i in 0..rules.len() {
        let (chance, pick) = (random.next_u32(), random.next_u32());
        let rule = rules[i];
        if rule.is_about(number, moment, before, chance) {
            return Some(rule.fault(moment, pick));
        }
    }
    None
}

/// The rules of a card, and what they go by: how many commands of each index came, and random numbers.
#[derive(Drop)]
pub struct Rules {
    /// The rules. The first that is about an exchange plans its fault.
    pub rules: Vec<Rule>,
    commands: [u64; INDICES],
    random: Pcg32,
}

impl Rules {
    /// Rules for a card with which there was no exchange. The same seed gives the same faults.
    pub fn new(rules: Vec<Rule>, seed: u64) -> Rules
        ensures { result.rules ≡ rules }
    {
        Rules {
            rules,
            commands: [0; INDICES],
            random: Pcg32::new(seed, STREAM),
        }
    }

    /// The rules that these texts say, in their order, as `read_rule` reads them.
    ///
    /// # Errors
    /// `BadRule` where one says none; `NoMemory`.
    pub fn read(alloc: Global, texts: &[&str], seed: u64) -> Result<Rules, RuleFault> {
        let mut rules = Vec::new(alloc);
        for text in texts {
            let Some(rule) = read_rule(text.as_bytes()) else {
                return Err(RuleFault::BadRule);
            };
            rules.push(rule)?;
        }
        Ok(Rules::new(rules, seed))
    }

    // How many commands with the index of this one came before it.
    fn before(&self, moment: Moment) -> u64
        ensures { result ≡ before_of self.now.commands moment }
    {
        match moment {
            Moment::Command(index) => self.commands[usize::from(index) % INDICES],
            _ => 0,
        }
    }

    // Counts a command.
    fn count(&mut self, moment: Moment)
        ensures { self.new ≡ record self.old { commands = counted self.old.commands moment } }
    {
        if let Moment::Command(index) = moment {
            let place = usize::from(index) % INDICES;
            self.commands[place] = self.commands[place].saturating_add(1);
        }
    }

    /// The fault that is planned for the next exchange, the one with this number: the first rule that is about it plans it.
    pub fn next(&mut self, number: u64, moment: Moment) -> Option<Fault>
        ensures said { IsSaid self.old.rules.items number moment (before_of self.old.commands moment) result }
        ensures counted { self.new.commands ≡ counted self.old.commands moment }
        ensures same { self.new.rules ≡ self.old.rules }
    {
        let before = self.before(moment);
        let said = said(
            self.rules.as_slice(),
            &mut self.random,
            number,
            moment,
            before,
        );
        self.count(moment);
        said
    }
}
