// A request of C, with its memory: a read, a write, an erase or a trim.
ghost use Rattle.std.specs.Prelude.{◌+◌, ◌≡◌, ◌≤◌, IfErr, IfOk, None, Some, [], length, true};
ghost use Rattle.mmc_bus.specs.Heard.{cause_of};
ghost use Rattle.mmc_card.specs.Card.{holds};
ghost use Rattle.mmc_card.specs.Sectors.{AreRead};
ghost use Rattle.mmc_direct.specs.Asked.{asked_at, exchanges_of_run};
ghost use Rattle.mmc_direct.specs.Refusal.{refusal_of};
ghost use Rattle.mmc_direct.specs.Runs.{HasMade};
ghost use Rattle.mmc_requests.specs.Changes.{erased_at, written_at};
ghost use Rattle.mmc_requests.specs.Kinds.{kind_of_how};
ghost use Rattle.mmc_requests.specs.declared.kind.Kind.TheVariants.{Read, Write};
ghost use Rattle.mmc_switch.specs.Place.{IsReady};
ghost use Rattle.mmc_switch.specs.UnderWay.{IsSameSession};
ghost use Rattle.kelifandro.specs.Asked.{HasBlocks, Leaves, asked_of, attempts_by, change_of};

use crate::asked::attempts_by;
use c_host::SectorsMut;
use mmc_bus::{Bus, Part};
use mmc_direct::{Asked, Erasing, How, Kind, Reading, Request, Writing};
use mmc_switch::{Broken, Session};

/// A request of C.
#[derive(Drop)]
pub struct CRequest<'a> {
    /// What is done with the sectors.
    pub kind: Kind,
    /// The partition.
    pub part: Part,
    /// The first sector.
    pub start: u64,
    /// How many sectors are erased or trimmed.
    pub count: u64,
    /// The most attempts; 0 is four.
    pub attempts: u16,
    /// The memory of as many sectors as are moved: what is written, or where what is read is left.
    pub blocks: &'a mut [[u8; 512]],
}

// A run of a read into this memory.
fn read<B: Bus>(
    bus: &mut B,
    session: Session,
    part: Part,
    start: u64,
    blocks: &mut [[u8; 512]],
) -> Result<Session, Broken>
    requires selected { session.selected ≡ Some part }
    requires served { refusal_of session.info (asked_at Read part start (length blocks.old)) ≡ None }
    ensures count { length blocks.new ≡ length blocks.old }
    ensures bounded { (B.view bus.new).exchanges ≤ (B.view bus.old).exchanges + exchanges_of_run (asked_at Read part start (length blocks.old)) }
    ensures kept { (B.view bus.new).is_kept ≡ true → (B.view bus.old).is_kept ≡ true }
    ensures same { IsSameSession session result }
    ensures cause { IfErr result (λ broken. cause_of (B.view bus.new).last ≡ Some broken.cause) }
    ensures made { (B.view bus.new).is_kept ≡ true → IsReady session (B.view bus.old)
        → HasMade (written_at part start []) (B.view bus.old) result (B.view bus.new) }
    ensures has { (B.view bus.new).is_kept ≡ true → IsReady session (B.view bus.old)
        → IfOk result (λ ready. AreRead (holds (B.view bus.new).card) part start blocks.new) }
{
    let mut lent = SectorsMut { blocks };
    let mut reading = Reading {
        part,
        start,
        blocks: &mut lent,
    };
    reading.run(bus, session)
}

// A run of a write of what this memory holds.
fn write<B: Bus>(
    bus: &mut B,
    session: Session,
    part: Part,
    start: u64,
    blocks: &mut [[u8; 512]],
) -> Result<Session, Broken>
    requires selected { session.selected ≡ Some part }
    requires served { refusal_of session.info (asked_at Write part start (length blocks.old)) ≡ None }
    ensures alone { blocks.new ≡ blocks.old }
    ensures bounded { (B.view bus.new).exchanges ≤ (B.view bus.old).exchanges + exchanges_of_run (asked_at Write part start (length blocks.old)) }
    ensures kept { (B.view bus.new).is_kept ≡ true → (B.view bus.old).is_kept ≡ true }
    ensures same { IsSameSession session result }
    ensures cause { IfErr result (λ broken. cause_of (B.view bus.new).last ≡ Some broken.cause) }
    ensures made { (B.view bus.new).is_kept ≡ true → IsReady session (B.view bus.old)
        → HasMade (written_at part start blocks.old) (B.view bus.old) result (B.view bus.new) }
{
    let lent = SectorsMut { blocks };
    let mut writing = Writing {
        part,
        start,
        blocks: &lent,
    };
    writing.run(bus, session)
}

// A run of an erase or a trim.
fn erase<B: Bus>(
    bus: &mut B,
    session: Session,
    part: Part,
    start: u64,
    count: u64,
    how: How,
) -> Result<Session, Broken>
    requires selected { session.selected ≡ Some part }
    requires served { refusal_of session.info (asked_at (kind_of_how how) part start count) ≡ None }
    ensures bounded { (B.view bus.new).exchanges ≤ (B.view bus.old).exchanges + exchanges_of_run (asked_at (kind_of_how how) part start count) }
    ensures kept { (B.view bus.new).is_kept ≡ true → (B.view bus.old).is_kept ≡ true }
    ensures same { IsSameSession session result }
    ensures cause { IfErr result (λ broken. cause_of (B.view bus.new).last ≡ Some broken.cause) }
    ensures made { (B.view bus.new).is_kept ≡ true → IsReady session (B.view bus.old)
        → HasMade (erased_at session.info part start count) (B.view bus.old) result (B.view bus.new) }
{
    let mut erasing = Erasing {
        part,
        start,
        count,
        how,
    };
    erasing.run(bus, session)
}

impl Request for CRequest<'_> {
    ghost use Rattle.kelifandro.specs.AskedLaws.{asks_the_same, changes_by_lasting, changes_the_same, in_turn, unmoved};

    ghost asked = { asked_of };

    ghost attempts = { λ request. attempts_by request.attempts };

    ghost change = { change_of };

    ghost leaves = { Leaves };

    ghost has = { HasBlocks };

    fn asked(&self) -> Asked {
        Asked {
            kind: self.kind,
            part: self.part,
            start: self.start,
            count: if self.kind.moves_blocks() {
                self.blocks.len() as u64
            } else {
                self.count
            },
        }
    }

    fn attempts(&self) -> u64 {
        attempts_by(self.attempts)
    }

    fn run<B: Bus>(&mut self, bus: &mut B, session: Session) -> Result<Session, Broken> {
        match self.kind {
            Kind::Read => read(bus, session, self.part, self.start, self.blocks),
            Kind::Write => write(bus, session, self.part, self.start, self.blocks),
            Kind::Erase => erase(bus, session, self.part, self.start, self.count, How::Erase),
            Kind::Trim => erase(bus, session, self.part, self.start, self.count, How::Trim),
        }
    }

    ghost unmoved = { unmoved };

    ghost in_turn = { in_turn };

    ghost asks_the_same = { asks_the_same };

    ghost changes_the_same = { changes_the_same };

    ghost changes_by_lasting = { changes_by_lasting };
}
