// Lines and timing within what a host can.
ghost use Rattle.std.specs.Prelude.{◌≡◌, true};
ghost use Rattle.mmc_host.specs.Hosts.{IsWithin};

use mmc_card::Lines;

/// As many of these lines and as fast as the limits allow.
pub fn limited(lines: Lines, limits: Lines) -> Lines
    ensures within { IsWithin result limits }
    ensures same { IsWithin lines limits → result ≡ lines }
{
    Lines {
        width: lines.width.fewer(limits.width),
        timing: lines.timing.slower(limits.timing),
    }
}

/// Whether the limits allow these lines.
pub fn are_within(lines: Lines, limits: Lines) -> bool
    ensures within { result ≡ true → IsWithin lines limits }
    ensures can { IsWithin lines limits → result ≡ true }
{
    limited(lines, limits) == lines
}
