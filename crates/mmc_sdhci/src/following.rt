// What comes after a block.
ghost use Rattle.std.specs.Prelude.{◌≡◌};
ghost use Rattle.mmc_sdhci.specs.DataLooks.{following_counted, following_of};

use mmc_host::Data;

/// What comes after a block.
#[derive(Clone, Copy, Debug, PartialEq, Eq)]
pub enum Following {
    /// Nothing: it is the last one that is counted.
    End,
    /// Another block.
    Another,
}

fn following_counted(count: u16) -> Following
    ensures { result ≡ following_counted count }
{
    if count == 1 {
        Following::End
    } else {
        Following::Another
    }
}

/// What comes after the next block of this data.
pub fn following_of(transfer: Data) -> Following
    ensures { result ≡ following_of transfer }
{
    match transfer {
        Data::Nothing => Following::End,
        Data::Read { length: _, blocks } => following_counted(blocks),
        Data::Write { blocks } => following_counted(blocks),
    }
}
