// A read of blocks.
ghost use Rattle.std.specs.Prelude.{◌≡◌, [], length};
ghost use Rattle.mmc_bus.specs.Lending.{IsRewritten};
ghost use Rattle.mmc_card.specs.Sectors.{AreRead};
ghost use Rattle.mmc_direct.specs.Asked.{asked_at};
ghost use Rattle.mmc_requests.specs.Changes.{written_at};
ghost use Rattle.mmc_requests.specs.declared.kind.Kind.TheVariants.{Read};
ghost use Rattle.mmc_requests.specs.declared.limits.TheConstants.{ATTEMPTS};

use crate::request::Request;
use mmc_bus::{BlocksMut, Bus, Part};
use mmc_requests::{ATTEMPTS, Asked, Kind};
use mmc_switch::{Broken, Session};
use mmc_transfer::read_run;

/// A read into these blocks, from this sector of a partition on. What they hold is open until it is done.
#[derive(Drop)]
pub struct Reading<'a, D> {
    /// The partition.
    pub part: Part,
    /// The first sector.
    pub start: u64,
    /// Where the sectors are left.
    pub blocks: &'a mut D,
}

impl<D: BlocksMut> Request for Reading<'_, D> {
    ghost use Rattle.std.proofs.Common.{◌∙◌, refl};
    ghost use Rattle.mmc_bus.specs.Lending.IsRewritten.{nothing};
    ghost use Rattle.mmc_direct.specs.RequestLaws.{lent_then, same_asked, same_written};

    ghost asked = { λ reading. asked_at Read reading.part reading.start (length (D.Blocks.blocks reading.blocks.now)) };

    ghost attempts = { λ reading. ATTEMPTS };

    ghost change = { λ info reading. written_at reading.part reading.start [] };

    ghost leaves = { λ old new. (new.part ≡ old.part) × (new.start ≡ old.start) × (new.blocks.ghost_name ≡ old.blocks.ghost_name)
        × (length (D.Blocks.blocks new.blocks.now) ≡ length (D.Blocks.blocks old.blocks.now))
        × IsRewritten D.Blocks.blocks D.BlocksMut.with old.blocks.now new.blocks.now };

    ghost has = { λ sets reading. AreRead sets reading.part reading.start (D.Blocks.blocks reading.blocks.now) };

    fn asked(&self) -> Asked {
        Asked {
            kind: Kind::Read,
            part: self.part,
            start: self.start,
            count: self.blocks.len() as u64,
        }
    }

    fn attempts(&self) -> u64 {
        ATTEMPTS
    }

    fn run<B: Bus>(&mut self, bus: &mut B, session: Session) -> Result<Session, Broken> {
        read_run(bus, session, self.start, self.blocks)
    }

    ghost unmoved = { λ reading. (refl, refl, refl, refl, nothing) };

    ghost in_turn = { λ first second third x y. (y.0 ∙ x.0, y.1 ∙ x.1, y.2 ∙ x.2, y.3 ∙ x.3, lent_then x.4 y.4) };

    ghost asks_the_same = { λ old new left. same_asked Read left.0 left.1 left.3 };

    ghost changes_the_same = { λ info old new left. same_written [] left.0 left.1 };

    ghost changes_by_lasting = { λ now info reading same. refl };
}
