// Serves a request of any kind.
ghost use Rattle.std.specs.Prelude.{◌≡◌, ◌*◌, ◌+◌, ◌-◌, ◌≤◌, None, true};
ghost use Rattle.mmc_switch.specs.Info.{lasting};
ghost use Rattle.mmc_direct.specs.Attempts.{exchanges_of};
ghost use Rattle.mmc_direct.specs.Healing.{HasHealed};
ghost use Rattle.mmc_direct.specs.Refusal.{refusal_of};
ghost use Rattle.mmc_direct.specs.Requests.{Serves};
ghost use Rattle.mmc_direct.specs.Served.{AnswersBy, IfLeft, IfRefused, IfServed, IsCausedIn, refusal_in};
ghost use Rattle.mmc_switch.specs.Stands.{StandsIn, info_of};

use crate::request::Request;
use crate::retries::keep_trying;
use crate::rules::refusal;
use crate::served::Served;
use mmc_bus::Bus;
use mmc_recovery::Healed;
use mmc_switch::Stands;

/// Serves a request, or refuses it by what is known of the card: then nothing is sent, and nothing has changed. Otherwise at most
/// as many attempts are made as it has: each settles the card where something has failed, selects the partition where another one is selected,
/// and makes the run. Where all have failed each sector of the change is old or new.
pub fn serve<B: Bus, R: Request>(
    bus: &mut B,
    healed: &mut Healed,
    stands: Stands,
    request: &mut R,
) -> Served
    ensures refused { refusal_in result.answer ≡ refusal_of (info_of stands) (R.asked request.old) }
    ensures untouched { IfRefused result.answer ((bus.new ≡ bus.old) × (result.stands ≡ stands) × (request.new ≡ request.old)) }
    ensures answer { AnswersBy result.answer result.stands }
    ensures uncounted { IfRefused result.answer (healed.new ≡ healed.old) }
    ensures healed { IfServed result.answer (HasHealed (R.attempts request.old) stands healed.old result.stands healed.new) }
    ensures info { lasting (info_of result.stands) ≡ lasting (info_of stands) }
    ensures leaves { R.leaves request.old request.new }
    ensures bounded { (B.view bus.new).exchanges ≤ (B.view bus.old).exchanges + R.attempts request.old * exchanges_of (R.asked request.old) }
    ensures cause { IfLeft result.answer result.stands (λ broken.
        IsCausedIn ((R.attempts request.old - 1) * exchanges_of (R.asked request.old)) broken (B.view bus.old) (B.view bus.new)) }

    ensures kept { (B.view bus.new).is_kept ≡ true → (B.view bus.old).is_kept ≡ true }
    ensures served { (B.view bus.new).is_kept ≡ true → StandsIn stands (B.view bus.old)
        → Serves (R.attempts request.old) (R.change (info_of stands) request.old) (λ sets. R.has sets request.new)
        (B.view bus.old) result (B.view bus.new) }
{
    let asked = request.asked();
    match refusal(
        stands.info(),
        asked.kind,
        asked.part,
        asked.start,
        asked.count,
    ) {
        Some(refused) => Served::refused(stands, refused),
        None => Served::of(keep_trying(bus, healed, stands, request)),
    }
}
