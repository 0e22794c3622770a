// Which command an index names.
ghost use Rattle.std.specs.Prelude.{◌≡◌};
ghost use Rattle.mmc_card.specs.Rows.{command_of};

use mmc_card::Command;
use mmc_frame::Kind::{self, Mmc, Sd};
use mmc_frame::commands;

/// The command that this index (0 to 63) names to a card of this kind: to an SD card after CMD55 an application
/// command, where there is one.
pub fn command_of(kind: Kind, is_app: bool, index: u8) -> Command
    ensures { result ≡ command_of kind is_app index }
{
    match (kind, index) {
        (_, commands::GO_IDLE_STATE) => Command::GoIdleState,
        (Mmc, commands::SEND_OP_COND) => Command::SendOpCond,
        (_, commands::ALL_SEND_CID) => Command::AllSendCid,
        (Sd, commands::SEND_RELATIVE_ADDR) => Command::SendRelativeAddr,
        (Mmc, commands::SEND_RELATIVE_ADDR) => Command::SetRelativeAddr,
        (Sd, commands::SET_BUS_WIDTH) if is_app => Command::SetBusWidth,
        (Sd, commands::SWITCH_FUNC) => Command::SwitchFunc,
        (Mmc, commands::SWITCH_FUNC) => Command::Switch,
        (_, commands::SELECT_CARD) => Command::SelectCard,
        (Sd, commands::SEND_IF_COND) => Command::SendIfCond,
        (Mmc, commands::SEND_IF_COND) => Command::SendExtCsd,
        (_, commands::SEND_CSD) => Command::SendCsd,
        (_, commands::STOP_TRANSMISSION) => Command::StopTransmission,
        (_, commands::SEND_STATUS) => Command::SendStatus,
        (_, commands::SET_BLOCKLEN) => Command::SetBlocklen,
        (_, commands::READ_SINGLE_BLOCK) => Command::ReadSingleBlock,
        (_, commands::READ_MULTIPLE_BLOCK) => Command::ReadMultipleBlock,
        (_, commands::SET_BLOCK_COUNT) => Command::SetBlockCount,
        (_, commands::WRITE_BLOCK) => Command::WriteBlock,
        (_, commands::WRITE_MULTIPLE_BLOCK) => Command::WriteMultipleBlock,
        (Sd, commands::ERASE_WR_BLK_START) => Command::EraseStart,
        (Sd, commands::ERASE_WR_BLK_END) => Command::EraseEnd,
        (Mmc, commands::ERASE_GROUP_START) => Command::EraseStart,
        (Mmc, commands::ERASE_GROUP_END) => Command::EraseEnd,
        (_, commands::ERASE) => Command::Erase,
        (Sd, commands::SD_SEND_OP_COND) if is_app => Command::SdSendOpCond,
        (Sd, commands::SEND_SCR) if is_app => Command::SendScr,
        (_, commands::APP_CMD) => Command::AppCmd,
        _ => Command::Unknown,
    }
}
