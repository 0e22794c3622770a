// Which requests are refused, and why: first whether their sectors are there, then whether these may be changed.
ghost use Rattle.std.specs.Prelude.{◌≡◌, ◌+◌, ◌≤◌, IfNone};
ghost use Rattle.mmc_switch.specs.Sizes.{size_of};
ghost use Rattle.mmc_requests.specs.Refusal.{change_refusal, erase_refusal, refused_unless, sectors_refusal};
ghost use Rattle.mmc_requests.specs.RefusalLaws.{AreThere};

use crate::kind::Kind;
use crate::refused::Refused;
use mmc_bus::Part;
use mmc_switch::Info;

/// The first reason for which so many sectors of a partition, from this one on, aren't there for a request of this kind, of which
/// one that moves blocks may name so many at most; or `None`.
pub fn sectors_refusal(
    most: u64,
    kind: Kind,
    info: &Info,
    part: Part,
    start: u64,
    count: u64,
) -> Option<Refused>
    ensures refusal { result ≡ sectors_refusal most kind info.now part start count }
    ensures there { IfNone result (AreThere most kind info.now part start count) }
{
    let Some(sectors) = info.sectors(part) else {
        return Some(Refused::NoSuchPartition);
    };
    if count == 0 {
        Some(Refused::Empty)
    } else if kind.moves_blocks() && count > most {
        Some(Refused::TooLong)
    } else if count > sectors || start > sectors - count {
        Some(Refused::OutOfRange)
    } else {
        None
    }
}

// The refusal where sectors of this partition aren't given up, or otherwise where they may not be.
fn refused_unless(may: bool, part: Part, otherwise: Refused) -> Option<Refused>
    ensures { result ≡ refused_unless may part otherwise }
{
    if matches!(part, Part::Boot1 | Part::Boot2) {
        Some(Refused::NotInPartition)
    } else if may {
        None
    } else {
        Some(otherwise)
    }
}

// Why no erase or trim of these sectors may be.
fn erase_refusal(kind: Kind, info: &Info, part: Part, start: u64, count: u64) -> Option<Refused>
    requires { start + count ≤ size_of info.now.sizes part }
    ensures { result ≡ erase_refusal kind info.now part start count }
{
    match kind {
        Kind::Read | Kind::Write => None,
        Kind::Erase => {
            let unit = info.erase_unit;
            let end = start + count;
            let is_whole = start % unit == 0 && (end % unit == 0 || end == info.sizes.of(part));
            refused_unless(is_whole, part, Refused::Unaligned)
        }
        Kind::Trim => refused_unless(info.trims, part, Refused::NoTrim),
    }
}

/// The first reason for which a request of this kind may not change these sectors, which are there; or `None`, as for a read.
pub fn change_refusal(
    kind: Kind,
    info: &Info,
    part: Part,
    start: u64,
    count: u64,
) -> Option<Refused>
    requires { start + count ≤ size_of info.now.sizes part }
    ensures { result ≡ change_refusal kind info.now part start count }
{
    if info.read_only && !kind.is_read() {
        Some(Refused::ReadOnly)
    } else {
        erase_refusal(kind, info, part, start, count)
    }
}
