// What the device decides after a settle, a select or an exchange. Nothing is sent here. What comes once for a group stands in
// functions of their own, so that a turn of a run doesn't pay for their locals.
ghost use Rattle.std.specs.Prelude.{◌≡◌, ◌+◌, ◌<◌, ◌∷◌, [], length, map, MatchOption};
ghost use Rattle.mmc_queue.specs.Waiting.{AreSound};
ghost use Rattle.mmc_block.specs.Entries.{completion_of, done_answer};
ghost use Rattle.mmc_block.specs.Service.{AfterAttempt, AfterFailure, Concludes, EmptyIfIdle, IsHere, IsNext, IsTried, outcome_of, service_of, tries};
ghost use Rattle.mmc_block.specs.declared.completion.Answer.TheVariants.{Failed};
ghost use Rattle.mmc_block.specs.declared.service.Stage.{Stage};

use crate::completion::{Answer, Completion};
use crate::service::{Attempt, Phase, Stage};
use arrayvec::ArrayVec;
use mmc_bus::Bytes;
use mmc_queue::{Entry, MAX_GROUP, Members, Request};
use mmc_requests::{ATTEMPTS, ATTEMPTS_OF_A_GROUP};
use mmc_switch::{Broken, Stands};
use std::mem;

/// Answers by ticket.
pub type Completions = ArrayVec<Completion, MAX_GROUP>;

/// How many attempts these have.
pub fn tries(members: &Members) -> u8
    requires { 0 < length members.now.items }
    ensures { result ≡ tries members.now.items }
{
    let tries = if members.len() == 1 {
        ATTEMPTS
    } else {
        ATTEMPTS_OF_A_GROUP
    };
    tries as u8
}

// The answer to a request that was carried out.
fn answer(request: Request, buffer: Bytes) -> Answer
    ensures { result ≡ done_answer request buffer }
{
    match request {
        Request::Read { .. } => Answer::Data(buffer),
        _ => Answer::Done,
    }
}

// Takes the first out. `remove` would do so too, with a second list on the stack.
fn take_first(members: &mut Members) -> Option<Entry>
    ensures { MatchOption result ((members.old.items ≡ []) × (members.new.items ≡ [])) (λ e. members.old.items ≡ e ∷ members.new.items) }
{
    members.reverse();
    let first = members.pop();
    members.reverse();
    first
}

// The answers to requests whose run is done, who leave.
#[inline(never)]
fn answer_all(members: &mut Members, answers: &mut Completions)
    requires { answers.old.items ≡ [] }
    ensures answers { answers.new.items ≡ map completion_of members.old.items }
    ensures members { members.new.items ≡ [] }
{
    members.reverse();
    while let Some(
        Entry {
            ticket,
            client,
            request,
            buffer,
        },
    ) = members.pop()
    {
        answers.push(Completion {
            ticket,
            client,
            answer: answer(request, buffer),
        });
    }
}

// Goes on with the first of the others alone, if there is one.
#[inline(never)]
fn serve_next_alone(stands: Stands, attempt: &mut Attempt) -> Phase
    requires none { attempt.old.group.members.items ≡ [] }
    requires sound { AreSound attempt.old.others.items }
    ensures next { IsNext stands attempt.old.others.items (service_of result attempt.new) }
    ensures empty { EmptyIfIdle result attempt.new }
{
    let Some(first) = take_first(&mut attempt.others) else {
        return Phase::Idle(stands);
    };
    attempt.group.take_alone(first);
    attempt.failed = 0;
    Phase::Serving(Stage::At(stands))
}

// The last attempt at these has failed: one alone is answered, and several go on alone.
#[inline(never)]
fn answer_or_split(broken: Broken, attempt: &mut Attempt, answers: &mut Completions) -> Phase
    requires { IsTried attempt.old answers.old.items }
    ensures after { AfterFailure broken attempt.old.group.members.items attempt.old.others.items (service_of result attempt.new) answers.new.items }
    ensures empty { EmptyIfIdle result attempt.new }
{
    if attempt.group.members.len() > 1 {
        mem::swap(&mut attempt.group.members, &mut attempt.others);
        return serve_next_alone(Stands::Broken(broken), attempt);
    }
    let Some(
        Entry {
            ticket,
            client,
            request: _,
            buffer: _,
        },
    ) = take_first(&mut attempt.group.members)
    else {
        unreachable!()
    };
    answers.push(Completion {
        ticket,
        client,
        answer: Answer::Failed(broken.cause()),
    });
    serve_next_alone(Stands::Broken(broken), attempt)
}

// After a failure.
#[inline(never)]
fn after_failure(broken: Broken, attempt: &mut Attempt, answers: &mut Completions) -> Phase
    requires { IsTried attempt.old answers.old.items }
    ensures after { AfterAttempt broken attempt.old (service_of result attempt.new) answers.new.items }
    ensures empty { EmptyIfIdle result attempt.new }
{
    if attempt.failed + 1 == tries(&attempt.group.members) {
        return answer_or_split(broken, attempt, answers);
    }
    attempt.failed = attempt.failed + 1;
    Phase::Serving(Stage::At(Stands::Broken(broken)))
}

// What follows an attempt that is over.
#[inline(never)]
fn after_attempt(phase: &mut Phase, attempt: &mut Attempt, answers: &mut Completions)
    requires here { IsHere phase.old }
    requires tried { IsTried attempt.old answers.old.items }
    ensures concludes { (was : Stage) → Concludes (outcome_of was phase.old) attempt.old (service_of phase.new attempt.new) answers.new.items }
    ensures empty { EmptyIfIdle phase.new attempt.new }
{
    *phase = match mem::replace(phase, Phase::Taken) {
        Phase::Serving(stage) => Phase::Serving(stage),
        Phase::Idle(Stands::Ready(session)) => {
            answer_all(&mut attempt.group.members, answers);
            serve_next_alone(Stands::Ready(session), attempt)
        }
        Phase::Idle(Stands::Broken(broken)) => after_failure(broken, attempt, answers),
        Phase::Taken => unreachable!(),
    };
}

/// What follows a step, which is the phase then, and the answers. Where the attempt goes on, or is done and nobody is to be served
/// alone after it, the phase isn't moved. It takes no memory.
pub fn conclude(phase: &mut Phase, attempt: &mut Attempt, answers: &mut Completions)
    requires here { IsHere phase.old }
    requires tried { IsTried attempt.old answers.old.items }
    ensures concludes { (was : Stage) → Concludes (outcome_of was phase.old) attempt.old (service_of phase.new attempt.new) answers.new.items }
    ensures empty { EmptyIfIdle phase.new attempt.new }
{
    match phase {
        Phase::Serving(_) => {}
        Phase::Idle(Stands::Ready(_)) if attempt.others.is_empty() => {
            answer_all(&mut attempt.group.members, answers)
        }
        Phase::Idle(_) | Phase::Taken => after_attempt(phase, attempt, answers),
    }
}
