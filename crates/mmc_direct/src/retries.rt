// Attempts at a request that isn't refused, until one is done or all that it has have failed.
ghost use Rattle.std.specs.Prelude.{◌≡◌, IfOk, None, true};
ghost use Rattle.mmc_card.specs.Card.{holds};
ghost use Rattle.mmc_direct.specs.Attempts.{Tries, exchanges_of};
ghost use Rattle.mmc_direct.specs.Healing.{HasHealed};
ghost use Rattle.mmc_direct.specs.Refusal.{refusal_of};
ghost use Rattle.mmc_switch.specs.Stands.{StandsIn, info_of, stands_of};

use crate::attempts::attempt;
use crate::counting::{count_done, count_failed};
use crate::request::Request;
use mmc_bus::Bus;
use mmc_recovery::Healed;
use mmc_switch::{Broken, Session, Stands};

/// Makes attempts until one is done, as many at most as the request has.
///
/// # Errors
/// `Broken` as the last one left it, where each of them has failed.
pub fn keep_trying<B: Bus, R: Request>(
    bus: &mut B,
    healed: &mut Healed,
    stands: Stands,
    request: &mut R,
) -> Result<Session, Broken>
    requires served { refusal_of (info_of stands) (R.asked request.old) ≡ None }
    ensures leaves { R.leaves request.old request.new }
    ensures healed { HasHealed (R.attempts request.old) stands healed.old (stands_of result) healed.new }
    ensures tries { Tries (R.attempts request.old) (exchanges_of (R.asked request.old)) (R.change (info_of stands) request.old) stands
        (B.view bus.old) result (B.view bus.new) }
    ensures has { (B.view bus.new).is_kept ≡ true → StandsIn stands (B.view bus.old)
        → IfOk result (λ session. R.has (holds (B.view bus.new).card) request.new) }
{
    let most = request.attempts();
    let mut broken = match attempt(bus, healed, stands, request) {
        Ok(session) => {
            count_done(healed);
            return Ok(session);
        }
        Err(broken) => {
            count_failed(healed, broken.cause());
            broken
        }
    };
    for _failed in 1..most {
        match attempt(bus, healed, Stands::Broken(broken), request) {
            Ok(session) => {
                count_done(healed);
                return Ok(session);
            }
            Err(left) => {
                count_failed(healed, left.cause());
                broken = left;
            }
        }
    }
    Err(broken)
}
