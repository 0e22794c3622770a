// Which requests are refused, and why.
ghost use Rattle.std.specs.Prelude.{◌≡◌};
ghost use Rattle.mmc_direct.specs.Refusal.{refusal};

use mmc_bus::Part;
use mmc_requests::{Kind, Refused, change_refusal, sectors_refusal};
use mmc_switch::Info;
use mmc_transfer::MAX_BLOCKS;

/// The first reason to refuse a request for so many sectors of a partition, from this one on, or `None` where a card of which
/// this is known can serve it.
pub fn refusal(info: &Info, kind: Kind, part: Part, start: u64, count: u64) -> Option<Refused>
    ensures { result ≡ refusal kind info.now part start count }
{
    match sectors_refusal(u64::from(MAX_BLOCKS), kind, info, part, start, count) {
        Some(refused) => Some(refused),
        None => change_refusal(kind, info, part, start, count),
    }
}
