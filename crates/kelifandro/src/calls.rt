// What a call of C begins with: how a card of which a record was kept stands.
ghost use Rattle.std.specs.Prelude.{◌≡◌, IfSome, is_some};
ghost use Rattle.kelifandro.specs.Calls.{IsAsNoted, is_open};

use c_host::{WayRecord, kinds_by};
use mmc_direct::{Stands, stands_by};
use mmc_record::{CardRecord, kind_of};

/// How the card of a record stands; `None` where none is open.
pub fn open_card(way: &WayRecord, card: &CardRecord) -> Option<Stands>
    ensures open { is_some result ≡ is_open way.now card.now }
    ensures stands { IfSome result (λ stands. IsAsNoted stands card.now) }
{
    if !kinds_by(way).serve(kind_of(card.kind)) {
        return None;
    }
    stands_by(card)
}
