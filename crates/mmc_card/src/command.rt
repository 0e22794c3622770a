ghost use Rattle.std.specs.Prelude.{◌≡◌, Bool};
ghost use Rattle.mmc_frame.specs.declared.kind.Kind.{Kind};
ghost use Rattle.mmc_card.specs.Rows.{command_of, is_addressed, leaves_erase, may_find};
ghost use Rattle.mmc_card.specs.Wanted.{response_to};

use crate::exchange::Want;
use mmc_frame::commands::{ALL_SEND_CID, GO_IDLE_STATE, SEND_CSD};

/// The commands of the card relation, by the standards' names (SD Physical Layer 6.00, section 4.7.4; JESD84-B51,
/// section 6.10.4). `SdSendOpCond`, `SetBusWidth` and `SendScr` are application commands: the host sends each after
/// CMD55.
#[derive(Clone, Copy, Debug, PartialEq, Eq)]
pub enum Command {
    /// CMD0.
    GoIdleState,
    /// CMD1 of eMMC.
    SendOpCond,
    /// ACMD41 of SD: CMD41 after CMD55.
    SdSendOpCond,
    /// CMD2.
    AllSendCid,
    /// CMD3 of SD.
    SendRelativeAddr,
    /// CMD3 of eMMC.
    SetRelativeAddr,
    /// CMD7.
    SelectCard,
    /// CMD8 of SD.
    SendIfCond,
    /// CMD8 of eMMC.
    SendExtCsd,
    /// CMD9.
    SendCsd,
    /// CMD12.
    StopTransmission,
    /// CMD13.
    SendStatus,
    /// CMD16.
    SetBlocklen,
    /// CMD17.
    ReadSingleBlock,
    /// CMD18.
    ReadMultipleBlock,
    /// CMD23.
    SetBlockCount,
    /// CMD24.
    WriteBlock,
    /// CMD25.
    WriteMultipleBlock,
    /// CMD32 of SD, CMD35 of eMMC.
    EraseStart,
    /// CMD33 of SD, CMD36 of eMMC.
    EraseEnd,
    /// CMD38.
    Erase,
    /// CMD6 of eMMC.
    Switch,
    /// CMD6 of SD, not after CMD55.
    SwitchFunc,
    /// ACMD6 of SD: CMD6 after CMD55.
    SetBusWidth,
    /// ACMD51 of SD: CMD51 after CMD55.
    SendScr,
    /// CMD55 of SD: the next command is an application command.
    AppCmd,
    /// Any other.
    Unknown,
}

/// Whether a command names a card in argument bits 31 to 16.
pub fn is_addressed(command: Command) -> bool
    ensures { result ≡ is_addressed command }
{
    matches!(
        command,
        Command::SelectCard | Command::SendCsd | Command::SendStatus | Command::AppCmd
    )
}

/// Whether a command leaves held erase addresses as they are, or judges them.
pub fn leaves_erase(command: Command) -> bool
    ensures { result ≡ leaves_erase command }
{
    matches!(
        command,
        Command::SendStatus | Command::EraseStart | Command::EraseEnd | Command::Erase
    )
}

/// Whether an error may keep a command from being carried out: all with an R1 but CMD7, CMD12 and CMD13.
pub fn may_find(command: Command) -> bool
    ensures { result ≡ may_find command }
{
    match command {
        Command::SetRelativeAddr
        | Command::SendExtCsd
        | Command::SetBlocklen
        | Command::ReadSingleBlock
        | Command::ReadMultipleBlock
        | Command::SetBlockCount
        | Command::WriteBlock
        | Command::WriteMultipleBlock
        | Command::EraseStart
        | Command::EraseEnd
        | Command::Erase
        | Command::Switch
        | Command::SwitchFunc
        | Command::SetBusWidth
        | Command::SendScr
        | Command::AppCmd => true,
        _ => false,
    }
}

/// The response that a host wants of the command with this index, of whichever kind the card is, and whether the
/// command is an application command or not (SD Physical Layer 6.00, section 4.7.4; JESD84-B51, section 6.10.4).
pub fn wanted(index: u8) -> Want
    ensures { (kind : Kind) (app : Bool) → result ≡ response_to (command_of kind app index) }
{
    match index {
        GO_IDLE_STATE => Want::Nothing,
        ALL_SEND_CID | SEND_CSD => Want::Long,
        _ => Want::Short,
    }
}
