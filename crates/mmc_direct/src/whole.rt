// A whole call: a request is judged, a host goes on with a card that was noted, the request is served, and how the card stands is
// noted. The bus is handed out, since by it the contract says what became of the card.
ghost use Rattle.std.specs.Prelude.{◌*◌, ◌≡◌, ◌≤◌, Err, IfOk, is_err, is_some, true};
ghost use Rattle.mmc_direct.specs.Attempts.{exchanges_of};
ghost use Rattle.mmc_direct.specs.Refusal.{refusal_of};
ghost use Rattle.mmc_direct.specs.Requests.{Serves};
ghost use Rattle.mmc_direct.specs.Served.{IfRefused, IfServed, refusal_in};
ghost use Rattle.mmc_switch.specs.Stands.{StandsIn, info_of};
ghost use Rattle.mmc_host.specs.HostStates.{IsBetween};
ghost use Rattle.mmc_host.specs.Hosts.{Where};
ghost use Rattle.mmc_direct.specs.Noted.{IsCounted, IsNotedOf, IsServed, Notes, WhereStood, bus_going_on, lines_in};

use crate::going_on::go_on;
use crate::noting::{noted, noted_after};
use crate::refused::NotDone;
use crate::request::Request;
use crate::retries::keep_trying;
use crate::rules::refusal;
use crate::served::answer;
use mmc_bus::Bus;
use mmc_host::{Host, HostBus};
use mmc_record::CardRecord;
use mmc_recovery::Healed;
use mmc_switch::Stands;

/// What is left of the host of a call: the bus over it, by which the request was attempted; or, where the request was refused, the
/// host as it came, which was told nothing.
pub type Left<H> = Result<HostBus<H>, H>;

/// Serves a request, as `serve`, of the card of a host that is between two commands.
///
/// # Errors
/// Why it wasn't done. The record notes how the card stands then; where it was refused, as it stood.
pub fn serve_over<H: Host, R: Request>(
    host: H,
    card: &mut CardRecord,
    healed: &mut Healed,
    stands: Stands,
    request: &mut R,
) -> (Result<(), NotDone>, Left<H>)
    requires { Where (H.view host) (IsBetween (H.view host).state) }
    ensures refused { refusal_in result.0 ≡ refusal_of (info_of stands) (R.asked request.old) }
    ensures left { is_err result.1 ≡ is_some (refusal_in result.0) }
    ensures untouched { IfRefused result.0 ((result.1 ≡ Err host) × (request.new ≡ request.old) × Notes stands card.new) }
    ensures uncounted { IfRefused result.0 (healed.new ≡ healed.old) }
    ensures healed { IfServed result.0 (IsCounted (R.attempts request.old) stands healed.old result.0 card.new healed.new) }
    ensures leaves { R.leaves request.old request.new }
    ensures bounded { IfOk result.1 (λ bus.
        (⟦<HostBus<H> as Bus>⟧.view bus).exchanges ≤ R.attempts request.old * exchanges_of (R.asked request.old)) }
    ensures kept { IfOk result.1 (λ bus. (⟦<HostBus<H> as Bus>⟧.view bus).is_kept ≡ true → (H.view host).is_kept ≡ true) }
    ensures served { IfOk result.1 (λ bus. IsServed (Serves (R.attempts request.old) (R.change (info_of stands) request.old) (λ sets. R.has sets request.new))
        stands (H.view host) result.0 card.new (⟦<HostBus<H> as Bus>⟧.view bus)) }
    ensures noted { IfOk result.1 (λ bus. WhereStood stands (H.view host) (⟦<HostBus<H> as Bus>⟧.view bus)
        (IsNotedOf card.new (H.view bus.host))) }
    ensures noted_again { IfRefused result.0 (StandsIn stands (bus_going_on (H.view host) (lines_in stands))
        → IsNotedOf card.new (H.view host)) }
{
    let asked = request.asked();
    if let Some(why) = refusal(
        stands.info(),
        asked.kind,
        asked.part,
        asked.start,
        asked.count,
    ) {
        *card = noted(&stands);
        return (Err(NotDone::Refused(why)), Err(host));
    }
    let mut bus = go_on(host, &stands);
    let outcome = keep_trying(&mut bus, healed, stands, request);
    *card = noted_after(&outcome);
    (answer(&outcome), Ok(bus))
}
