// A write of blocks.
ghost use Rattle.std.specs.Prelude.{◌≡◌, length};
ghost use Rattle.mmc_direct.specs.Asked.{asked_at};
ghost use Rattle.mmc_requests.specs.Changes.{written_at};
ghost use Rattle.mmc_requests.specs.declared.kind.Kind.TheVariants.{Write};
ghost use Rattle.mmc_requests.specs.declared.limits.TheConstants.{ATTEMPTS};

use crate::request::Request;
use mmc_bus::{Blocks, Bus, Part};
use mmc_requests::{ATTEMPTS, Asked, Kind};
use mmc_switch::{Broken, Session};
use mmc_transfer::write_run;

/// A write of these blocks, from this sector of a partition on.
#[derive(Drop)]
pub struct Writing<'a, D> {
    /// The partition.
    pub part: Part,
    /// The first sector.
    pub start: u64,
    /// What the sectors are to hold.
    pub blocks: &'a D,
}

impl<D: Blocks> Request for Writing<'_, D> {
    ghost use Rattle.std.proofs.Common.{◌∙◌, ap, refl};

    ghost asked = { λ writing. asked_at Write writing.part writing.start (length (D.blocks writing.blocks.now)) };

    ghost attempts = { λ writing. ATTEMPTS };

    ghost change = { λ info writing. written_at writing.part writing.start (D.blocks writing.blocks.now) };

    ghost leaves = { λ old new. new ≡ old };

    ghost has = { λ sets writing. Unit {0} };

    fn asked(&self) -> Asked {
        Asked {
            kind: Kind::Write,
            part: self.part,
            start: self.start,
            count: self.blocks.len() as u64,
        }
    }

    fn attempts(&self) -> u64 {
        ATTEMPTS
    }

    fn run<B: Bus>(&mut self, bus: &mut B, session: Session) -> Result<Session, Broken> {
        write_run(bus, session, self.start, self.blocks)
    }

    ghost unmoved = { λ writing. refl };

    ghost in_turn = { λ first second third x y. y ∙ x };

    ghost asks_the_same = { λ old new left.
        ap (λ writing. asked_at Write writing.part writing.start (length (D.blocks writing.blocks.now))) left };

    ghost changes_the_same = { λ info old new left.
        ap (λ writing. written_at writing.part writing.start (D.blocks writing.blocks.now)) left };

    ghost changes_by_lasting = { λ now info writing same. refl };
}
