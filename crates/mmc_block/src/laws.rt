//! Laws about the sector machine. Each function does nothing; its contract is the law, which a caller then knows.
ghost use Rattle.std.specs.Prelude.{◌*◌, ◌+◌, ◌≡◌, ◌≤◌, ◌⊎◌, List, [], true, ℕ};
ghost use Rattle.mmc_card.specs.declared.part.Part.{Part};
ghost use Rattle.mmc_card.specs.Card.{Card, holds};
ghost use Rattle.mmc_card.specs.Sectors.{IsDecided, Sector, Sets, Within, touches};
ghost use Rattle.mmc_block.specs.declared.completion.Completion.{Completion};
ghost use Rattle.mmc_switch.specs.declared.info.Info.{Info};
ghost use Rattle.mmc_block.specs.Alone.{ServesAlone};
ghost use Rattle.mmc_block.specs.Answers.{any_failed, failures, is_failed};
ghost use Rattle.mmc_block.specs.Machine.{Completes, Decides, Machine, Turns};
ghost use Rattle.mmc_block.specs.MachineLaws.{EachOnce, KeepsValues};
ghost use Rattle.mmc_block.specs.Changes.{change_of};
ghost use Rattle.mmc_block.specs.ClientLaws.{ClientsSee, ClientsSeeAlone, ClientsSeeEach, NoneIsLost};
ghost use Rattle.mmc_queue.specs.Group.{IsJoined};
ghost use Rattle.mmc_queue.specs.declared.group.Group.{Group};
ghost use Rattle.mmc_block.specs.Entries.{waits_of};
ghost use Rattle.mmc_block.specs.Groups.{IsChangeOf};
ghost use Rattle.mmc_block.specs.Service.{change_of_group};
ghost use Rattle.mmc_block.specs.Execution.{Counted, IsCountedExecution, Event, Reply, IsExecution};
ghost use Rattle.mmc_block.specs.ExecutionLaws.{ExecutionLaws};
ghost use Rattle.mmc_block.specs.InOrder.{AreDecided, EndsInOrder, IsInOrder, MayHold, answers, history};
ghost use Rattle.mmc_block.specs.Together.{AnswersTogether, EndsTogether, FailsAlone, FailsTogether, StartsTogether};

use mmc_bus::card_laws;
use mmc_queue::laws::{
    a_group_is_one_extent, a_group_lends_each_sector_of_its_extent,
    a_group_lends_the_blocks_of_its_members,
};
pub use mmc_queue::laws::{a_conflict_is_a_common_sector, conflict_is_symmetric};

/// A sector that has a value never loses its last one, neither by an answer nor by a turn.
pub fn a_set_is_never_empty()
    ensures completes { (info : Info) (old : Machine) (completion : Completion) (new : Machine) → Completes info old completion new → KeepsValues old.sets new.sets }
    ensures turns { (info : Info) (old : Machine) (completions : List Completion) (new : Machine) → Turns info old completions new → KeepsValues old.sets new.sets }
{}

/// A sector that is decided stays so, unless a request that names it fails.
pub fn a_decided_sector_stays_decided()
    ensures completes { (info : Info) (old : Machine) (completion : Completion) (new : Machine) (step : Completes info old completion new)
        (part : Part) (sector : ℕ) → IsDecided (old.sets part sector)
        → IsDecided (new.sets part sector) ⊎ ((is_failed completion.answer ≡ true) × (touches (change_of info step.w.request) part sector ≡ true)) }
    ensures decides { (old new : Sets) → Decides old new → (part : Part) (sector : ℕ) → IsDecided (old part sector) → IsDecided (new part sector) }
{}

/// In an execution from a machine in which no request waits or is in service, each ticket is accepted at most once, and it is
/// answered or given back at most once, and after it was accepted.
pub fn a_ticket_is_answered_once_and_after_its_submission()
    ensures { (info : Info) (old : Machine) (events : List Event) (replies : List Reply) (new : Machine)
        → old.waits ≡ [] → old.in_service ≡ [] → IsExecution info old events replies new → EachOnce [] [] events replies }
{}

/// An execution with own faults is an execution.
pub fn a_counted_execution_is_an_execution()
    ensures { (info : Info) (old : Counted) (events : List Event) (replies : List Reply) (new : Counted)
        → IsCountedExecution info old events replies new → IsExecution info old.machine events replies new.machine }
{}

/// In an execution with a card in profile, from a machine in which no request waits or is in service, each failure takes four
/// faults of its own. So where fewer than four faults fall no answer is a failure.
pub fn a_failure_takes_four_faults()
    ensures each { (info : Info) (old : Counted) (events : List Event) (replies : List Reply) (new : Counted)
        → old.in_profile ≡ true → old.machine.waits ≡ [] → old.machine.in_service ≡ [] → IsCountedExecution info old events replies new
        → old.faults + 4 * failures (answers replies) ≤ new.faults }
    ensures any { (info : Info) (old : Counted) (events : List Event) (replies : List Reply) (new : Counted)
        → old.in_profile ≡ true → old.machine.waits ≡ [] → old.machine.in_service ≡ [] → IsCountedExecution info old events replies new
        → any_failed (answers replies) ≡ true → old.faults + 4 ≤ new.faults }
{}

/// In an execution from a machine whose sectors are decided, and in which no request waits or is in service, each answer with data
/// gives for each sector its ordered value below the request's ticket: what the earlier requests leave in it in order of
/// submission, whichever order the machine completed them in, where of each failed write each sector is old or new.
pub fn answers_are_in_order()
    ensures { (info : Info) (old : Machine) (events : List Event) (replies : List Reply) (new : Machine)
        → AreDecided old.sets → old.waits ≡ [] → old.in_service ≡ [] → IsExecution info old events replies new → IsInOrder (history info old.sets events replies) }
{}

/// The same with what the sectors hold at the end, where they hold no more than the last machine allows: it is the ordered
/// value below the next ticket, by the same choices.
pub fn contents_are_in_order()
    ensures { (info : Info) (old : Machine) (events : List Event) (replies : List Reply) (new : Machine) (sets : Sets) (contents : Part → ℕ → Sector)
        → AreDecided old.sets → old.waits ≡ [] → old.in_service ≡ [] → IsExecution info old events replies new → Within sets new.sets → MayHold sets contents
        → EndsInOrder (history info old.sets events replies) sets new.next contents }
{}

/// The four laws of every execution together.
pub fn an_execution_has_its_laws()
    ensures { ExecutionLaws }
{
    a_counted_execution_is_an_execution();
    a_failure_takes_four_faults();
    answers_are_in_order();
    contents_are_in_order();
}

/// A request that is served on a card at which nothing waits is a step of the machine too, by which it is submitted and then answered.
pub fn a_request_alone_is_a_submission_and_a_turn()
    ensures { ServesAlone }
{}

/// Requests that are served together by one change of the card, in one go: a start, and a turn that answers them once it has carried the
/// change out. Where it has failed, what it holds is what failed requests may leave, and one that is alone is answered so.
pub fn a_group_served_at_once_is_a_start_and_a_turn()
    ensures starts { StartsTogether }
    ensures answers { AnswersTogether }
    ensures ends { EndsTogether }
    ensures fails { FailsTogether }
    ensures fails_alone { FailsAlone }
{
    a_group_is_one_extent();
    a_group_lends_each_sector_of_its_extent();
    a_group_lends_the_blocks_of_its_members();
}

/// What clients see of an execution of the sector machine, from the opening on, is an execution of a machine that knows no groups, with
/// the same sectors, whose requests without an answer are those that wait and those in service.
pub fn clients_see_no_groups()
    ensures { ClientsSee }
{}

/// Each step of the sector machine is one that clients see.
pub fn clients_see_each_step()
    ensures { ClientsSeeEach }
{}

/// The same of a request that is served on a card at which nothing waits: clients see a submission and a turn with its answer.
pub fn clients_see_a_request_alone()
    ensures { ClientsSeeAlone }
{}

/// As clients see it no request is lost: each that was accepted is answered or given back, or is one of those without an answer.
pub fn no_request_is_lost()
    ensures { NoneIsLost }
{}

/// Each sector of a card at rest is decided: no write or erase is unfinished.
pub fn a_card_at_rest_is_decided()
    ensures { (card : Card) → card.values ≡ [] → AreDecided (holds card) }
{
    card_laws::a_card_at_rest_holds_what_it_stores();
}

/// The change that a group makes is that of its requests together: it changes just the sectors that one of them does,
/// and gives each of them the same value.
pub fn a_group_changes_what_its_members_do()
    ensures { (info : Info) (group : Group) → IsJoined group.members.items group.extent
        → IsChangeOf info (waits_of group.members.items) (change_of_group info group) }
{
    a_group_is_one_extent();
    a_group_lends_each_sector_of_its_extent();
    a_group_lends_the_blocks_of_its_members();
}
