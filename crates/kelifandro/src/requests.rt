// A request of C: one call of `serve_over`, over the host that C has given, with a diary of what its host did, in earlier calls too. What
// is promised of the card holds for every story that is true of the diary.
ghost use Rattle.std.specs.Prelude.{◌*◌, ◌≡◌, ◌≤◌, Err, IfErr, IfOk, IsOk, Ok, false, is_err, is_some, length, pos, true};
ghost use Rattle.mmc_direct.specs.Attempts.{exchanges_of};
ghost use Rattle.mmc_direct.specs.Noted.{IsCounted, IsServed, Notes};
ghost use Rattle.mmc_direct.specs.Refusal.{refusal_of};
ghost use Rattle.mmc_direct.specs.Requests.{Serves};
ghost use Rattle.mmc_direct.specs.Served.{IfRefused, IfServed, refusal_in};
ghost use Rattle.mmc_host.specs.Hosts.{Where};
ghost use Rattle.mmc_requests.specs.Kinds.{is_read};
ghost use Rattle.mmc_sdhci.specs.Driver.{IsReady};
ghost use Rattle.mmc_switch.specs.Stands.{info_of};
ghost use Rattle.c_host.specs.declared.given.WayRecord.{WayRecord};
ghost use Rattle.kelifandro.specs.Answers.{answer_number, is_unready, minus};
ghost use Rattle.kelifandro.specs.Asked.{AreWhole, asked_with, attempts_by};
ghost use Rattle.kelifandro.specs.Calls.{IfNoted, IfOpen, TellsCounts, TellsWhy, is_attempted, is_open};
ghost use Rattle.kelifandro.specs.Done.{IsFit, IsLeft, IsTrueOf, OnlyTold, TellsUnready, done_of, host_after, stories_of};
ghost use Rattle.kelifandro.specs.History.Call.{Served};
ghost use Rattle.kelifandro.specs.History.{GoesOn};

use crate::answers::{NOT_OPEN, answer_number};
use crate::asked::Wanted;
use crate::calls::open_card;
use crate::did::Did;
use crate::hosts::{CHost, end, end_over, go_back};
use crate::noting::{Memory, Shown};
use crate::request::CRequest;
use c_host::WayRecord;
use ghost_diary::Seen;
use mmc_block::laws::{a_card_at_rest_is_decided, a_request_alone_is_a_submission_and_a_turn};
use mmc_bus::Bus;
use mmc_direct::{Left, NotDone, Request, serve_over};
use mmc_host::{Host, HostBus};
use mmc_record::CardRecord;
use mmc_recovery::Healed;
use mmc_story::HasStory;
use sdhci_story::HasRegisterStory;

/// What became of a request that came to a host.
#[derive(Drop)]
pub struct Called<H: Host> {
    /// The answer.
    pub answer: Result<(), NotDone>,
    /// The bus over the host; or the host, where the request was refused.
    pub left: Left<H>,
}

// Whether attempts have failed.
fn has_failed(answer: Result<(), NotDone>) -> bool
    ensures { answer ≡ Ok tt → result ≡ false }
{
    matches!(answer, Err(NotDone::Failed(_)))
}

// Ends the use of what a request has left of its host.
fn let_go<S: HasStory + HasRegisterStory>(
    answer: Result<(), NotDone>,
    left: Left<CHost<S>>,
    did: &mut Did,
)
    ensures refused { IfErr left (λ host. (way : WayRecord)
        → Where (host_after (stories_of S.HasStory.story S.HasRegisterStory.story) way (done_of did.new))
        (IsLeft (Unit {0}) (⟦<CHost<S> as Host>⟧.view host)
        (host_after (stories_of S.HasStory.story S.HasRegisterStory.story) way (done_of did.new)))) }
    ensures left { IfOk left (λ bus. (way : WayRecord)
        → Where (host_after (stories_of S.HasStory.story S.HasRegisterStory.story) way (done_of did.new)) ((bus.is_misused ≡ false)
        × IsLeft (answer ≡ Ok tt) (⟦<CHost<S> as Host>⟧.view bus.host)
        (host_after (stories_of S.HasStory.story S.HasRegisterStory.story) way (done_of did.new)))) }
    ensures ready { IsReady (S.HasRegisterStory.story.controller did.new.accesses.past) }
{
    match left {
        Ok(bus) => end_over::<S>(bus, has_failed(answer), did),
        Err(host) => end::<S>(host, false, false, did),
    }
}

// Ends a call: notes what was done in it, leaves nothing under way, and tells the number that C is told.
fn told<S: HasStory + HasRegisterStory>(called: Result<Called<CHost<S>>, i32>, did: &mut Did) -> i32
    ensures answer { IfOk called (λ came. result ≡ answer_number came.answer) }
    ensures why { IfErr called (λ number. result ≡ number) }
    ensures none { IfErr called (λ number. did.new ≡ did.old) }
    ensures refused { IfOk called (λ came. IfErr came.left (λ host. (way : WayRecord)
        → Where (host_after (stories_of S.HasStory.story S.HasRegisterStory.story) way (done_of did.new))
        (IsLeft (Unit {0}) (⟦<CHost<S> as Host>⟧.view host)
        (host_after (stories_of S.HasStory.story S.HasRegisterStory.story) way (done_of did.new))))) }
    ensures left { IfOk called (λ came. IfOk came.left (λ bus. (way : WayRecord)
        → Where (host_after (stories_of S.HasStory.story S.HasRegisterStory.story) way (done_of did.new)) ((bus.is_misused ≡ false)
        × IsLeft (came.answer ≡ Ok tt) (⟦<CHost<S> as Host>⟧.view bus.host)
        (host_after (stories_of S.HasStory.story S.HasRegisterStory.story) way (done_of did.new))))) }
    ensures ready { IfOk called (λ came. IsReady (S.HasRegisterStory.story.controller did.new.accesses.past)) }
{
    match called {
        Ok(Called { answer, left }) => {
            let_go::<S>(answer, left, did);
            answer_number(answer)
        }
        Err(number) => number,
    }
}

/// Serves a request.
///
/// # Errors
/// The number of why it came to no host.
pub fn serve_by<S: HasStory + HasRegisterStory, R: Request>(
    way: &WayRecord,
    card: &mut CardRecord,
    healed: &mut Healed,
    request: &mut R,
    did: &mut Did,
) -> Result<Called<CHost<S>>, i32>
    requires fit { IsFit (stories_of S.HasStory.story S.HasRegisterStory.story) way.now (done_of did.old) card.old }
    ensures not_open { is_open way.now card.old ≡ false → result ≡ Err (minus 1) }
    ensures functions { way.now.by ≡ 0 → IfOpen way.now card.old (λ stands. IsOk result) }
    ensures fault { IfErr result (λ number. number ≡ pos 0 → ⊥) }
    ensures unmade { IfErr result (λ number. is_attempted number ≡ false) }
    ensures unready { IfOpen way.now card.old (λ stands. IfErr result (λ number.
        TellsUnready (stories_of S.HasStory.story S.HasRegisterStory.story) (done_of did.new) number)) }
    ensures no_clock { IfOpen way.now card.old (λ stands. IfErr result (λ number. number ≡ minus 23)) }
    ensures no_host { IfErr result (λ number. (card.new ≡ card.old) × (request.new ≡ request.old)) }
    ensures stays { IfErr result (λ number. OnlyTold
        (host_after (stories_of S.HasStory.story S.HasRegisterStory.story) way.now (done_of did.old))
        (host_after (stories_of S.HasStory.story S.HasRegisterStory.story) way.now (done_of did.new))) }
    ensures fit_again { IfErr result (λ number.
        IsFit (stories_of S.HasStory.story S.HasRegisterStory.story) way.now (done_of did.new) card.new) }
    ensures did { IfOk result (λ came. did.new ≡ did.old) }
    ensures judged { IfNoted card.old (λ stands. IfOk result (λ did.
        refusal_in did.answer ≡ refusal_of (info_of stands) (R.asked request.old))) }
    ensures left { IfOk result (λ did. is_err did.left ≡ is_some (refusal_in did.answer)) }
    ensures untouched { IfOk result (λ did. IfRefused did.answer (request.new ≡ request.old)) }
    ensures noted { IfNoted card.old (λ stands. IfOk result (λ did. IfRefused did.answer (Notes stands card.new))) }
    ensures uncounted { IfErr result (λ number. healed.new ≡ healed.old) }
    ensures not_counted { IfOk result (λ did. IfRefused did.answer (healed.new ≡ healed.old)) }
    ensures counted { IfNoted card.old (λ stands. IfOk result (λ did. IfServed did.answer
        (IsCounted (R.attempts request.old) stands healed.old did.answer card.new healed.new))) }
    ensures leaves { R.leaves request.old request.new }
    ensures bounded { IfOk result (λ did. IfOk did.left (λ bus.
        (⟦<HostBus<CHost<S>> as Bus>⟧.view bus).exchanges ≤ R.attempts request.old * exchanges_of (R.asked request.old))) }
    ensures untold { IfOk result (λ came. IfErr came.left (λ host. OnlyTold
        (host_after (stories_of S.HasStory.story S.HasRegisterStory.story) way.now (done_of did.old)) (⟦<CHost<S> as Host>⟧.view host))) }
    ensures was_true { IfOk result (λ came. IfOk came.left (λ bus. (⟦<HostBus<CHost<S>> as Bus>⟧.view bus).is_kept ≡ true
        → IsTrueOf (stories_of S.HasStory.story S.HasRegisterStory.story) way.now (done_of did.old))) }
    ensures served { IfNoted card.old (λ stands. IfOk result (λ came. IfOk came.left (λ bus.
        IsServed (Serves (R.attempts request.old) (R.change (info_of stands) request.old) (λ sets. R.has sets request.new)) stands
        (host_after (stories_of S.HasStory.story S.HasRegisterStory.story) way.now (done_of did.old)) came.answer card.new
        (⟦<HostBus<CHost<S>> as Bus>⟧.view bus)))) }
{
    let Some(stands) = open_card(way, card) else {
        return Err(NOT_OPEN);
    };
    let host = go_back::<S>(way, &stands, did)?;
    let (answer, left) = serve_over(host, card, healed, stands, request);
    Ok(Called { answer, left })
}

// What memory holds, for proofs: blocks of 512 bytes each.
pub(crate) fn seen(blocks: &[[u8; 512]]) -> Seen<Memory>
    ensures same { result ≡ blocks.now }
    ensures whole { AreWhole blocks.now }
{
    Seen::of(&Shown { blocks })
}

/// Serves what is wanted, with this memory, after what was done in earlier calls.
pub fn serve_told<S: HasStory + HasRegisterStory>(
    way: &WayRecord,
    card: &mut CardRecord,
    healed: &mut Healed,
    wanted: &Wanted,
    blocks: &mut [[u8; 512]],
    did: &mut Did,
) -> i32
    requires fit { IsFit (stories_of S.HasStory.story S.HasRegisterStory.story) way.now (done_of did.old) card.old }
    ensures not_open { is_open way.now card.old ≡ false → result ≡ minus 1 }
    ensures judged { IfOpen way.now card.old (λ stands.
        TellsWhy way.now.by (refusal_of (info_of stands) (asked_with wanted.now.asked blocks.old)) result) }
    ensures unready { IfOpen way.now card.old (λ stands. is_unready result ≡ true
        → TellsUnready (stories_of S.HasStory.story S.HasRegisterStory.story) (done_of did.new) result) }
    ensures no_clock { IfOpen way.now card.old (λ stands. is_unready result ≡ true → result ≡ minus 23) }
    ensures uncounted { is_attempted result ≡ false → healed.new ≡ healed.old }
    ensures counted { IfNoted card.old (λ stands. TellsCounts (attempts_by wanted.now.attempts) stands healed.old result card.new healed.new) }
    ensures untouched { is_attempted result ≡ false → blocks.new ≡ blocks.old }
    ensures kept { is_read wanted.now.asked.kind ≡ false → blocks.new ≡ blocks.old }
    ensures length { length blocks.new ≡ length blocks.old }
    ensures fit_again { IsFit (stories_of S.HasStory.story S.HasRegisterStory.story) way.now (done_of did.new) card.new }
    ensures goes_on { IsTrueOf (stories_of S.HasStory.story S.HasRegisterStory.story) way.now (done_of did.new) → GoesOn
        (Served (record { asked = wanted.now.asked; before = blocks.old; after = blocks.new; number = result }))
        (host_after (stories_of S.HasStory.story S.HasRegisterStory.story) way.now (done_of did.old)) card.old
        (host_after (stories_of S.HasStory.story S.HasRegisterStory.story) way.now (done_of did.new)) card.new }
{
    a_request_alone_is_a_submission_and_a_turn();
    a_card_at_rest_is_decided();
    let _before = seen(blocks);
    let mut request = CRequest {
        kind: wanted.asked.kind,
        part: wanted.asked.part,
        start: wanted.asked.start,
        count: wanted.asked.count,
        attempts: wanted.attempts,
        blocks,
    };
    let called = serve_by::<S, CRequest<'_>>(way, card, healed, &mut request, did);
    let _after = seen(blocks);
    told::<S>(called, did)
}
