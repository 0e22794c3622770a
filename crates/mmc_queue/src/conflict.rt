ghost use Rattle.std.specs.Prelude.{◌≡◌};
ghost use Rattle.mmc_queue.specs.Requests.{asked_of, conflicts, overlap};
ghost use Rattle.mmc_queue.specs.declared.request.Request.{Request};

use mmc_requests::Asked;

// Whether a sector lies in what both ask for. The sums can't overflow in 128 bits.
fn overlap(a: &Asked, b: &Asked) -> bool
    ensures { (first second : Request) → a.now ≡ asked_of first → b.now ≡ asked_of second → result ≡ overlap first second }
{
    let (first, second) = (a.start as u128, b.start as u128);
    let (m, n) = (a.count as u128, b.count as u128);
    a.part == b.part && (0 < m && 0 < n) && (first < second + n && second < first + m)
}

/// Whether two requests that ask for these conflict: a sector lies in both of them, and not both are reads. So the order in which
/// they take effect shows.
pub fn conflicts(a: &Asked, b: &Asked) -> bool
    ensures { (first second : Request) → a.now ≡ asked_of first → b.now ≡ asked_of second → result ≡ conflicts first second }
{
    overlap(a, b) && !(a.kind.is_read() && b.kind.is_read())
}
