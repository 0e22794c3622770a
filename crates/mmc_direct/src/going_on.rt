// The bus over a host with which a call goes on.
ghost use Rattle.std.specs.Prelude.{◌≡◌, false, true};
ghost use Rattle.mmc_host.specs.HostStates.{IsBetween, resting};
ghost use Rattle.mmc_host.specs.Hosts.{GoesOn, IsWithin, Where, bus_over};
ghost use Rattle.mmc_direct.specs.Noted.{bus_going_on, lines_in};

use mmc_bus::Lines;
use mmc_host::{Host, HostBus};
use mmc_switch::Stands;

/// The bus over a host whose card stands so. The host, whatever it was told before, is told the card's lines and timing.
pub fn go_on<H: Host>(host: H, stands: &Stands) -> HostBus<H>
    requires { Where (H.view host) (IsBetween (H.view host).state) }
    ensures told { IsWithin (lines_in stands.now) result.wire.limits
        → H.has_told result.host (resting (lines_in stands.now)).ios }
    ensures goes_on { GoesOn (H.view host) (H.view result.host) }
    ensures view { (H.view result.host).is_kept ≡ true
        → bus_over (H.view result.host) result.wire result.is_misused ≡ bus_going_on (H.view host) (lines_in stands.now) }
    ensures exchanges { result.wire.exchanges ≡ 0 }
    ensures misused { result.is_misused ≡ false }
{
    let info = stands.info();
    HostBus::resume(
        host,
        Lines {
            width: info.width,
            timing: info.timing,
        },
    )
}
