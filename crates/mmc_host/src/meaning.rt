// Which command a frame holds.
ghost use Rattle.std.specs.Prelude.{◌≡◌, true, ℕ};
ghost use Rattle.mmc_frame.specs.declared.kind.Kind.TheVariants.{Mmc, Sd};
ghost use Rattle.mmc_card.specs.Rows.{command_of};
ghost use Rattle.mmc_host.specs.Meaning.{IsSentTo};
ghost use Rattle.mmc_host.specs.Misuse.{carries_data, has_data};
ghost use Rattle.mmc_host.specs.HostStates.{blocks_in};
ghost use Rattle.mmc_host.specs.Table.{blocks_of, data_of, moves_several};

use mmc_card::Command;
use mmc_frame::commands::*;

/// The command that an index means with this argument, after CMD55 or not, whichever kind the card is. Where both kinds have one
/// with this index the argument tells them apart: CMD3 and CMD8 by whether it is 0, and CMD6 by bits 25 and 24, which are an
/// access mode of eMMC and reserved on SD (SD Physical Layer 6.00, sections 4.3.10 and 4.7.4; JESD84-B51, sections 6.6.1 and
/// 6.10.4).
pub fn meant(index: u8, argument: u32, is_app: bool) -> Command
    ensures sd { IsSentTo Sd is_app index argument → result ≡ command_of Sd is_app index }
    ensures mmc { IsSentTo Mmc is_app index argument → result ≡ command_of Mmc is_app index }
    ensures data { (count moved : ℕ) → has_data (data_of result count moved) ≡ carries_data is_app index argument }
    ensures several { (count moved : ℕ) → moves_several index ≡ true → blocks_in (data_of result count moved) ≡ blocks_of count moved }
{
    match index {
        GO_IDLE_STATE => Command::GoIdleState,
        SEND_OP_COND => Command::SendOpCond,
        ALL_SEND_CID => Command::AllSendCid,
        SEND_RELATIVE_ADDR if argument == 0 => Command::SendRelativeAddr,
        SEND_RELATIVE_ADDR => Command::SetRelativeAddr,
        SET_BUS_WIDTH if is_app => Command::SetBusWidth,
        SWITCH_FUNC if argument / 0x0100_0000 % 4 == 0 => Command::SwitchFunc,
        SWITCH_FUNC => Command::Switch,
        SELECT_CARD => Command::SelectCard,
        SEND_IF_COND if argument == 0 => Command::SendExtCsd,
        SEND_IF_COND => Command::SendIfCond,
        SEND_CSD => Command::SendCsd,
        STOP_TRANSMISSION => Command::StopTransmission,
        SEND_STATUS => Command::SendStatus,
        SET_BLOCKLEN => Command::SetBlocklen,
        READ_SINGLE_BLOCK => Command::ReadSingleBlock,
        READ_MULTIPLE_BLOCK => Command::ReadMultipleBlock,
        SET_BLOCK_COUNT => Command::SetBlockCount,
        WRITE_BLOCK => Command::WriteBlock,
        WRITE_MULTIPLE_BLOCK => Command::WriteMultipleBlock,
        ERASE_WR_BLK_START | ERASE_GROUP_START => Command::EraseStart,
        ERASE_WR_BLK_END | ERASE_GROUP_END => Command::EraseEnd,
        ERASE => Command::Erase,
        SD_SEND_OP_COND if is_app => Command::SdSendOpCond,
        SEND_SCR if is_app => Command::SendScr,
        APP_CMD => Command::AppCmd,
        _ => Command::Unknown,
    }
}
