// An erase or a trim of sectors.
ghost use Rattle.std.specs.Prelude.{◌≡◌};
ghost use Rattle.mmc_direct.specs.Asked.{asked_at};
ghost use Rattle.mmc_requests.specs.Changes.{erased_at};
ghost use Rattle.mmc_requests.specs.Kinds.{kind_of_how};
ghost use Rattle.mmc_requests.specs.declared.limits.TheConstants.{ATTEMPTS};
ghost use Rattle.mmc_switch.specs.declared.info.Info.{Info};

use crate::request::Request;
use mmc_bus::{Bus, Part};
use mmc_erase::{How, erase_run};
use mmc_requests::{ATTEMPTS, Asked, Kind};
use mmc_switch::{Broken, Session};

/// An erase or a trim of so many sectors, from this one of a partition on.
#[derive(Clone, Copy, Debug, PartialEq, Eq)]
pub struct Erasing {
    /// The partition.
    pub part: Part,
    /// The first sector.
    pub start: u64,
    /// How many sectors.
    pub count: u64,
    /// Whether by whole erase units, or each by itself.
    pub how: How,
}

/// What a request does that erases or trims.
pub fn action_of(how: How) -> Kind
    ensures { result ≡ kind_of_how how }
{
    match how {
        How::Erase => Kind::Erase,
        How::Trim => Kind::Trim,
    }
}

impl Request for Erasing {
    ghost use Rattle.std.proofs.Common.{◌∙◌, ap, refl};

    ghost asked = { λ erasing. asked_at (kind_of_how erasing.how) erasing.part erasing.start erasing.count };

    ghost attempts = { λ erasing. ATTEMPTS };

    ghost change = { λ info erasing. erased_at info erasing.part erasing.start erasing.count };

    ghost leaves = { λ old new. new ≡ old };

    ghost has = { λ sets erasing. Unit {0} };

    fn asked(&self) -> Asked {
        Asked {
            kind: action_of(self.how),
            part: self.part,
            start: self.start,
            count: self.count,
        }
    }

    fn attempts(&self) -> u64 {
        ATTEMPTS
    }

    fn run<B: Bus>(&mut self, bus: &mut B, session: Session) -> Result<Session, Broken> {
        erase_run(bus, session, self.start, self.count, self.how)
    }

    ghost unmoved = { λ erasing. refl };

    ghost in_turn = { λ first second third x y. y ∙ x };

    ghost asks_the_same = { λ old new left.
        ap (λ erasing. asked_at (kind_of_how erasing.how) erasing.part erasing.start erasing.count) left };

    ghost changes_the_same = { λ info old new left.
        ap (λ erasing. erased_at info erasing.part erasing.start erasing.count) left };

    ghost changes_by_lasting = { λ now info erasing same.
        ap (λ (known : Info). erased_at known erasing.part erasing.start erasing.count) same };
}
