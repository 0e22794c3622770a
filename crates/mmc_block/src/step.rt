// What the device does in a turn: one settle, one select, or one exchange of a run.
ghost use Rattle.std.specs.Prelude.{◌≡◌, ◌+◌, ◌≤◌, Some, false, true, ℕ};
ghost use Rattle.mmc_queue.specs.Group.{IsJoined};
ghost use Rattle.mmc_queue.specs.Lent.{AreLent};
ghost use Rattle.mmc_queue.specs.declared.group.Group.{Group};
ghost use Rattle.mmc_requests.specs.declared.kind.Kind.TheVariants as kind;
ghost use Rattle.mmc_recovery.specs.declared.settling.TheConstants.{EXCHANGES_OF_A_SETTLE};
ghost use Rattle.mmc_switch.specs.Place.{IsBroken, IsReady};
ghost use Rattle.mmc_switch.specs.UnderWay.{FailsBy, faults_then};
ghost use Rattle.mmc_switch.specs.declared.mmc.TheConstants.{EXCHANGES_OF_A_SWITCH};
ghost use Rattle.mmc_transfer.specs.First.{Nears};
ghost use Rattle.mmc_transfer.specs.declared.pace.Pace.{Pace};
ghost use Rattle.mmc_transfer.specs.declared.pace.Pace.TheVariants.{Exchange};
ghost use Rattle.mmc_transfer.specs.Run.{HasTurned, IsRunning, IsSameRun, Lowers as LowersBlocks, run_then};
ghost use Rattle.mmc_block.specs.Entries.{AreServable};
ghost use Rattle.mmc_block.specs.Service.{Did, IfAt, IfReady, IfRunning, IfServing, IsHere, IsStageOf, IsUnderWay, IsWorkOf};
ghost use Rattle.mmc_block.specs.Service.{change_of_group, lasting_of, lasting_by, info_of_stage, lent_for, outcome_of, session_of};
ghost use Rattle.mmc_block.specs.Service.{work_then};
ghost use Rattle.mmc_block.specs.Healing.{StepHeals};
ghost use Rattle.mmc_block.specs.Step.{Advances, HasBegun, Stepped};
ghost use Rattle.mmc_block.specs.Work.{IsElsewhere, is_on, most_of_run, run_left, stage_left};
ghost use Rattle.mmc_switch.specs.declared.stands.Stands.{Stands};
ghost use Rattle.mmc_block.specs.declared.service.Phase.TheVariants.{Serving};
ghost use Rattle.mmc_block.specs.declared.service.Work.TheVariants.{Blocks};
ghost use Rattle.mmc_block.specs.declared.service.Stage.{Stage};
ghost use Rattle.mmc_block.specs.declared.service.Stage.TheVariants.{At, Running};

use crate::service::{Phase, Stage, Work};
use mmc_bus::{Bus, Part};
use mmc_erase::{EraseRun, How};
use mmc_queue::laws::{
    a_group_is_one_extent, a_group_lends_each_sector_of_its_extent,
    a_group_lends_the_blocks_of_its_members, a_lent_group_keeps_its_requests,
};
use mmc_queue::{Group, Kind};
use mmc_recovery::{Healed, Patience, settle_with};
use mmc_switch::{Broken, Progress, Session, Standing, Stands, select};
use mmc_transfer::{Pace, Run, Way};
use std::mem;

// Begins the run of a group, whose partition is selected.
fn begin_run(session: Session, group: &Group) -> Work
    requires joined { IsJoined group.now.members.items group.now.extent }
    requires servable { AreServable (lasting_of session) group.now.members.items }
    requires selected { session.selected ≡ Some group.now.extent.part }
    ensures { HasBegun session group.now result }
{
    a_group_is_one_extent();
    let start = group.extent.start;
    let count = group.extent.end - start;
    match group.extent.kind {
        Kind::Read => Work::Blocks(Run::begin(session, start, count as u32, Way::Read)),
        Kind::Write => Work::Blocks(Run::begin(session, start, count as u32, Way::Write)),
        Kind::Erase => Work::Erase(EraseRun::begin(session, start, count, How::Erase)),
        Kind::Trim => Work::Erase(EraseRun::begin(session, start, count, How::Trim)),
    }
}

// The next exchange of a run that moves blocks, or all that the bus moves with a command.
fn advance_blocks<B: Bus>(bus: &mut B, run: &mut Run, group: &mut Group, pace: Pace) -> Standing
    requires joined { IsJoined group.old.members.items group.old.extent }
    requires of { IsWorkOf group.old (Blocks run.old) }
    ensures lent { AreLent group.old.members.items group.new.members.items }
    ensures extent { group.new.extent ≡ group.old.extent }
    ensures joined { IsJoined group.new.members.items group.new.extent }
    ensures writes { group.old.extent.kind ≡ kind.Write → group.new ≡ group.old }
    ensures bounded { pace ≡ Exchange → (B.view bus.new).exchanges ≤ (B.view bus.old).exchanges + 1 }
    ensures nears { Nears run.old (B.view bus.old) (run_then run.new result) (B.view bus.new) }
    ensures kept { (B.view bus.new).is_kept ≡ true → (B.view bus.old).is_kept ≡ true }
    ensures same { IsSameRun run.old (run_then run.new result) }
    ensures lowers { LowersBlocks run.old (run_then run.new result) }
    ensures cause { FailsBy (run_then run.new result) (B.view bus.new) }
    ensures turned { (B.view bus.new).is_kept ≡ true → (faults : ℕ) → IsRunning run.old (lent_for run.old.job.way group.old) faults (B.view bus.old)
        → HasTurned run.old (lent_for run.old.job.way group.new) faults (B.view bus.old) (run_then run.new result) (B.view bus.new) }
{
    a_group_lends_each_sector_of_its_extent();
    a_lent_group_keeps_its_requests();
    match group.extent.kind {
        Kind::Read => run.read_on(bus, group, pace),
        Kind::Write | Kind::Erase | Kind::Trim => run.write_on(bus, &group.writes(), pace),
    }
}

// The next exchanges of a run at this pace. The run is advanced where it stands: a turn in the middle of it moves no session.
#[tactic(auto, using(crate::proofs::StepLemmas::same_lent))]
fn advance_run<B: Bus>(bus: &mut B, work: &mut Work, group: &mut Group, pace: Pace) -> Standing
    requires joined { IsJoined group.old.members.items group.old.extent }
    requires of { IsWorkOf group.old work.old }
    ensures advances { Advances (lasting_of (session_of work.old)) false (most_of_run pace (run_left work.old)) (run_left work.old) group.old (B.view bus.old) (work_then work.new result) group.new (B.view bus.new) }
    ensures did { (B.view bus.new).is_kept ≡ true → (faults : ℕ) → IsUnderWay work.old group.old faults (B.view bus.old)
        → Did (change_of_group (lasting_of (session_of work.old)) group.old) group.new (faults_then faults (B.view bus.old) (B.view bus.new))
        (B.view bus.old) (work_then work.new result) (B.view bus.new) }
{
    a_group_is_one_extent();
    a_group_lends_each_sector_of_its_extent();
    a_group_lends_the_blocks_of_its_members();
    match work {
        Work::Blocks(run) => advance_blocks(bus, run, group, pace),
        Work::Erase(run) => run.turn(bus),
    }
}

// From a card that is ready in another partition: the select. It stands alone, as the settle does, so that a turn in the middle of a
// run doesn't pay for their locals.
#[inline(never)]
#[tactic(auto, using(crate::proofs::StepLemmas::same_lent))]
fn select_partition<B: Bus>(bus: &mut B, session: Session, group: &Group) -> Progress<Stage>
    requires joined { IsJoined group.now.members.items group.now.extent }
    requires servable { AreServable (lasting_of session) group.now.members.items }
    requires other { is_on session.selected group.now.extent.part ≡ false }
    ensures advances { Advances (lasting_of session) false EXCHANGES_OF_A_SWITCH (stage_left (At (Stands.Ready session)) group.now.extent.part) group.now (B.view bus.old) result group.now (B.view bus.new) }
    ensures did { (B.view bus.new).is_kept ≡ true → IsReady session (B.view bus.old)
        → Did (change_of_group (lasting_of session) group.now) group.now (faults_then 0 (B.view bus.old) (B.view bus.new))
        (B.view bus.old) result (B.view bus.new) }
{
    a_group_is_one_extent();
    match select(bus, session, group.extent.part) {
        Ok(session) => Progress::More(Stage::At(Stands::Ready(session))),
        Err(broken) => Progress::Failed(broken),
    }
}

// From a card that something failed with: the settle, for whatever group. It is counted.
#[inline(never)]
fn settle<B: Bus>(bus: &mut B, broken: Broken, healed: &mut Healed) -> Progress<Stage>
    ensures advances { (group : Group) → IsJoined group.members.items group.extent
        → Advances (lasting_of broken.session) true EXCHANGES_OF_A_SETTLE (stage_left (At (Stands.Broken broken)) group.extent.part) group (B.view bus.old) result group (B.view bus.new) }
    ensures did { (B.view bus.new).is_kept ≡ true → IsBroken broken (B.view bus.old) → (group : Group) (faults : ℕ)
        → Did (change_of_group (lasting_of broken.session) group) group (faults_then faults (B.view bus.old) (B.view bus.new))
        (B.view bus.old) result (B.view bus.new) }
    ensures healed { StepHeals (At (Stands.Broken broken)) (B.view bus.old) healed.old result (B.view bus.new) healed.new }
{
    let (settled, was_reset) = settle_with(bus, broken, Patience::Once);
    *healed = healed.settled(was_reset);
    match settled {
        Ok(session) => Progress::More(Stage::At(Stands::Ready(session))),
        Err(broken) => Progress::Failed(broken),
    }
}

// Leaves an outcome in the phase.
fn phase_after(outcome: Progress<Stage>) -> Phase
    ensures held { IsHere result }
    ensures left { (was : Stage) → outcome_of was result ≡ outcome }
{
    match outcome {
        Progress::More(stage) => Phase::Serving(stage),
        Progress::Done(session) => Phase::Idle(Stands::Ready(session)),
        Progress::Failed(broken) => Phase::Idle(Stands::Broken(broken)),
    }
}

// What a run leaves in the phase.
fn phase_after_run(work: Work, standing: Standing) -> Phase
    ensures held { IsHere result }
    ensures left { (was : Stage) → outcome_of was result ≡ work_then work standing }
{
    match standing {
        Standing::GoesOn => Phase::Serving(Stage::Running(work)),
        Standing::Done => Phase::Idle(Stands::Ready(work.into_session())),
        Standing::Failed(cause) => Phase::Idle(Stands::Broken(
            work.into_session().break_off(cause),
        )),
    }
}

// A run that is over leaves its card.
#[inline(never)]
fn leave_run(phase: &mut Phase, standing: Standing)
    requires running { IfRunning phase.old (λ work. Unit {0}) }
    ensures held { IsHere phase.new }
    ensures left { IfRunning phase.old (λ work. (was : Stage) → outcome_of was phase.new ≡ work_then work standing) }
{
    *phase = match mem::replace(phase, Phase::Taken) {
        Phase::Serving(Stage::Running(work)) => phase_after_run(work, standing),
        Phase::Idle(_) | Phase::Serving(Stage::At(_)) | Phase::Taken => unreachable!(),
    };
}

// The next exchanges of a run that is under way. In the middle of the run the phase isn't moved.
fn advance<B: Bus>(bus: &mut B, phase: &mut Phase, group: &mut Group, pace: Pace)
    requires joined { IsJoined group.old.members.items group.old.extent }
    requires running { IfRunning phase.old (λ work. AreServable (lasting_of (session_of work)) group.old.members.items × IsWorkOf group.old work) }
    ensures held { IsHere phase.new }
    ensures stepped { IfRunning phase.old (λ work. (was : Stage) → Stepped pace (Running work) group.old (B.view bus.old) (outcome_of was phase.new) group.new (B.view bus.new)) }
{
    match phase {
        Phase::Serving(Stage::Running(work)) => match advance_run(bus, work, group, pace) {
            Standing::GoesOn => {}
            standing => leave_run(phase, standing),
        },
        Phase::Idle(_) | Phase::Serving(Stage::At(_)) | Phase::Taken => unreachable!(),
    }
}

// Whether the card is ready in this partition, so that a run can begin.
fn can_begin_run(phase: &Phase, part: Part) -> bool
    ensures yes { result ≡ true → IfReady phase.now (λ session. session.selected ≡ Some part) }
    ensures no { result ≡ false → (stands : Stands) → phase.now ≡ Serving (At stands) → IsElsewhere part stands }
{
    match phase {
        Phase::Serving(Stage::At(Stands::Ready(session))) => session.selected() == Some(part),
        Phase::Serving(_) | Phase::Idle(_) | Phase::Taken => false,
    }
}

// The run begins, and the phase has it.
fn begin_run_here(phase: &mut Phase, group: &Group)
    requires joined { IsJoined group.now.members.items group.now.extent }
    requires ready { IfReady phase.old (λ session. AreServable (lasting_of session) group.now.members.items
        × (session.selected ≡ Some group.now.extent.part)) }
    ensures { IfReady phase.old (λ session. IfRunning phase.new (HasBegun session group.now)) }
{
    *phase = match mem::replace(phase, Phase::Taken) {
        Phase::Serving(Stage::At(Stands::Ready(session))) => {
            Phase::Serving(Stage::Running(begin_run(session, group)))
        }
        Phase::Serving(_) | Phase::Idle(_) | Phase::Taken => unreachable!(),
    };
}

// The run begins, with its first exchanges.
#[inline(never)]
fn begin_and_advance<B: Bus>(bus: &mut B, phase: &mut Phase, group: &mut Group, pace: Pace)
    requires joined { IsJoined group.old.members.items group.old.extent }
    requires ready { IfReady phase.old (λ session. AreServable (lasting_of session) group.old.members.items
        × (session.selected ≡ Some group.old.extent.part)) }
    ensures held { IsHere phase.new }
    ensures stepped { IfReady phase.old (λ session. (was : Stage) → Stepped pace (At (Stands.Ready session)) group.old (B.view bus.old) (outcome_of was phase.new) group.new (B.view bus.new)) }
{
    begin_run_here(phase, group);
    advance(bus, phase, group, pace);
}

// From a card that no run can begin with yet.
fn settle_or_select<B: Bus>(
    bus: &mut B,
    stands: Stands,
    group: &Group,
    healed: &mut Healed,
) -> Progress<Stage>
    requires joined { IsJoined group.now.members.items group.now.extent }
    requires servable { AreServable (lasting_by stands) group.now.members.items }
    requires elsewhere { IsElsewhere group.now.extent.part stands }
    ensures stepped { (pace : Pace) → Stepped pace (At stands) group.now (B.view bus.old) result group.now (B.view bus.new) }
    ensures healed { StepHeals (At stands) (B.view bus.old) healed.old result (B.view bus.new) healed.new }
{
    match stands {
        Stands::Ready(session) => select_partition(bus, session, group),
        Stands::Broken(broken) => settle(bus, broken, healed),
    }
}

// A settle or a select.
#[inline(never)]
fn prepare<B: Bus>(bus: &mut B, phase: &mut Phase, group: &Group, healed: &mut Healed)
    requires joined { IsJoined group.now.members.items group.now.extent }
    requires at { IfAt phase.old (λ stands. AreServable (lasting_by stands) group.now.members.items × IsElsewhere group.now.extent.part stands) }
    ensures held { IsHere phase.new }
    ensures stepped { (pace : Pace) → IfServing phase.old (λ stage. Stepped pace stage group.now (B.view bus.old) (outcome_of stage phase.new) group.now (B.view bus.new)) }
    ensures healed { IfServing phase.old (λ stage. StepHeals stage (B.view bus.old) healed.old (outcome_of stage phase.new) (B.view bus.new) healed.new) }
{
    *phase = match mem::replace(phase, Phase::Taken) {
        Phase::Serving(Stage::At(stands)) => phase_after(settle_or_select(
            bus, stands, group, healed,
        )),
        Phase::Idle(_) | Phase::Serving(Stage::Running(_)) | Phase::Taken => unreachable!(),
    };
}

/// One settle, one select, or the next exchanges of a run, and the phase says what is left: the attempt, or the card where the attempt is over.
/// A settle is counted.
pub fn step<B: Bus>(
    bus: &mut B,
    phase: &mut Phase,
    group: &mut Group,
    pace: Pace,
    healed: &mut Healed,
)
    requires joined { IsJoined group.old.members.items group.old.extent }
    requires serving { IfServing phase.old (λ stage. AreServable (info_of_stage stage) group.old.members.items × IsStageOf group.old stage) }
    ensures held { IsHere phase.new }
    ensures stepped { IfServing phase.old (λ stage. Stepped pace stage group.old (B.view bus.old) (outcome_of stage phase.new) group.new (B.view bus.new)) }
    ensures healed { IfServing phase.old (λ stage. StepHeals stage (B.view bus.old) healed.old (outcome_of stage phase.new) (B.view bus.new) healed.new) }
{
    match phase {
        Phase::Serving(Stage::Running(_)) => advance(bus, phase, group, pace),
        Phase::Serving(Stage::At(_)) | Phase::Idle(_) | Phase::Taken => {
            if can_begin_run(phase, group.extent.part) {
                begin_and_advance(bus, phase, group, pace);
            } else {
                prepare(bus, phase, group, healed);
            }
        }
    }
}
