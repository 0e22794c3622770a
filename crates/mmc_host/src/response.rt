// The responses to commands.
ghost use Rattle.std.specs.Prelude.{◌≡◌};
ghost use Rattle.mmc_host.specs.Table.{response_of};

use mmc_card::Command;
pub use mmc_card::Response;

/// The response to each command, as its row says (SD Physical Layer 6.00, section 4.7.4; JESD84-B51, section 6.10.4). An unknown
/// command is told as one with an R1.
pub fn response_of(command: Command) -> Response
    ensures { result ≡ response_of command }
{
    match command {
        Command::GoIdleState => Response::Nothing,
        Command::AllSendCid | Command::SendCsd => Response::R2,
        Command::SendOpCond | Command::SdSendOpCond => Response::R3,
        Command::SendRelativeAddr => Response::R6,
        Command::SendIfCond => Response::R7,
        Command::SelectCard | Command::StopTransmission | Command::Erase | Command::Switch =>
            Response::R1b,
        _ => Response::R1,
    }
}
