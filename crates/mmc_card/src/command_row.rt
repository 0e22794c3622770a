//! One row a command: its index and its name, who has it, its response and the data after it (SD Physical Layer 6.00,
//! sections 4.7.4 and 4.9; JESD84-B51, sections 6.10.4 and 6.12).
ghost use Rattle.std.specs.Prelude.{◌≡◌};
ghost use Rattle.mmc_card.specs.CommandRows.{IsKnownByItsRow, row_of, told};

use crate::command::Command;
use crate::response::Response;
use mmc_frame::commands;
use mmc_frame::status_bits::Standard;

/// The data after a command, over the data lines.
#[derive(Clone, Copy, Debug, PartialEq, Eq)]
pub enum Carried {
    /// None.
    Nothing,
    /// The card sends one block of this many bytes.
    ReadOne(u16),
    /// The card sends blocks of 512 bytes: as many as CMD23 has preset, or until it is stopped.
    ReadSeveral,
    /// The host sends one block of 512 bytes.
    WriteOne,
    /// The host sends blocks of 512 bytes: as many as CMD23 has preset, or until it stops.
    WriteSeveral,
}

/// What the standards say of a command, whichever card it goes to.
#[derive(Clone, Copy, Debug)]
pub struct CommandRow {
    /// Its index in SD's standard, or in eMMC's where that alone defines it.
    pub index: u8,
    /// Its name in SD's standard, or in eMMC's where that alone defines it.
    pub name: &'static [u8],
    /// Its index in eMMC's standard, or in SD's where that alone defines it.
    pub mmc_index: u8,
    /// Its name in eMMC's standard, or in SD's where that alone defines it.
    pub mmc_name: &'static [u8],
    /// Who defines it.
    pub standard: Standard,
    /// Whether it is an application command, which goes after CMD55.
    pub is_app: bool,
    /// Its response.
    pub response: Response,
    /// The data after it.
    pub carries: Carried,
}

// A command that has one index and one name.
macro_rules! row {
    ($standard:ident, $is_app:literal, $index:expr, $name:literal, $response:ident, $carries:expr) => {
        CommandRow {
            index: $index,
            name: $name,
            mmc_index: $index,
            mmc_name: $name,
            standard: Standard::$standard,
            is_app: $is_app,
            response: Response::$response,
            carries: $carries,
        }
    };
}

// A command that the two kinds have by different indexes.
macro_rules! apart {
    ($index:expr, $name:literal, $mmc_index:expr, $mmc_name:literal) => {
        CommandRow {
            index: $index,
            name: $name,
            mmc_index: $mmc_index,
            mmc_name: $mmc_name,
            standard: Standard::Both,
            is_app: false,
            response: Response::R1,
            carries: Carried::Nothing,
        }
    };
}

// CMD0.
const GO_IDLE_STATE: CommandRow = row!(
    Both,
    false,
    commands::GO_IDLE_STATE,
    b"GO_IDLE_STATE",
    Nothing,
    Carried::Nothing
);
// CMD1 of eMMC.
const SEND_OP_COND: CommandRow = row!(
    Mmc,
    false,
    commands::SEND_OP_COND,
    b"SEND_OP_COND",
    R3,
    Carried::Nothing
);
// ACMD41 of SD.
const SD_SEND_OP_COND: CommandRow = row!(
    Sd,
    true,
    commands::SD_SEND_OP_COND,
    b"SD_SEND_OP_COND",
    R3,
    Carried::Nothing
);
// CMD2.
const ALL_SEND_CID: CommandRow = row!(
    Both,
    false,
    commands::ALL_SEND_CID,
    b"ALL_SEND_CID",
    R2,
    Carried::Nothing
);
// CMD3 of SD.
const SEND_RELATIVE_ADDR: CommandRow = row!(
    Sd,
    false,
    commands::SEND_RELATIVE_ADDR,
    b"SEND_RELATIVE_ADDR",
    R6,
    Carried::Nothing
);
// CMD3 of eMMC.
const SET_RELATIVE_ADDR: CommandRow = row!(
    Mmc,
    false,
    commands::SEND_RELATIVE_ADDR,
    b"SET_RELATIVE_ADDR",
    R1,
    Carried::Nothing
);
// CMD7.
const SELECT_CARD: CommandRow = row!(
    Both,
    false,
    commands::SELECT_CARD,
    b"SELECT_CARD",
    R1b,
    Carried::Nothing
);
// CMD8 of SD.
const SEND_IF_COND: CommandRow = row!(
    Sd,
    false,
    commands::SEND_IF_COND,
    b"SEND_IF_COND",
    R7,
    Carried::Nothing
);
// CMD8 of eMMC.
const SEND_EXT_CSD: CommandRow = row!(
    Mmc,
    false,
    commands::SEND_IF_COND,
    b"SEND_EXT_CSD",
    R1,
    Carried::ReadOne(512)
);
// CMD9.
const SEND_CSD: CommandRow = row!(
    Both,
    false,
    commands::SEND_CSD,
    b"SEND_CSD",
    R2,
    Carried::Nothing
);
// CMD12.
const STOP_TRANSMISSION: CommandRow = row!(
    Both,
    false,
    commands::STOP_TRANSMISSION,
    b"STOP_TRANSMISSION",
    R1b,
    Carried::Nothing
);
// CMD13.
const SEND_STATUS: CommandRow = row!(
    Both,
    false,
    commands::SEND_STATUS,
    b"SEND_STATUS",
    R1,
    Carried::Nothing
);
// CMD16.
const SET_BLOCKLEN: CommandRow = row!(
    Both,
    false,
    commands::SET_BLOCKLEN,
    b"SET_BLOCKLEN",
    R1,
    Carried::Nothing
);
// CMD17.
const READ_SINGLE_BLOCK: CommandRow = row!(
    Both,
    false,
    commands::READ_SINGLE_BLOCK,
    b"READ_SINGLE_BLOCK",
    R1,
    Carried::ReadOne(512)
);
// CMD18.
const READ_MULTIPLE_BLOCK: CommandRow = row!(
    Both,
    false,
    commands::READ_MULTIPLE_BLOCK,
    b"READ_MULTIPLE_BLOCK",
    R1,
    Carried::ReadSeveral
);
// CMD23.
const SET_BLOCK_COUNT: CommandRow = row!(
    Both,
    false,
    commands::SET_BLOCK_COUNT,
    b"SET_BLOCK_COUNT",
    R1,
    Carried::Nothing
);
// CMD24.
const WRITE_BLOCK: CommandRow = row!(
    Both,
    false,
    commands::WRITE_BLOCK,
    b"WRITE_BLOCK",
    R1,
    Carried::WriteOne
);
// CMD25.
const WRITE_MULTIPLE_BLOCK: CommandRow = row!(
    Both,
    false,
    commands::WRITE_MULTIPLE_BLOCK,
    b"WRITE_MULTIPLE_BLOCK",
    R1,
    Carried::WriteSeveral
);
// CMD32 of SD, CMD35 of eMMC.
const ERASE_START: CommandRow = apart!(
    commands::ERASE_WR_BLK_START,
    b"ERASE_WR_BLK_START",
    commands::ERASE_GROUP_START,
    b"ERASE_GROUP_START"
);
// CMD33 of SD, CMD36 of eMMC.
const ERASE_END: CommandRow = apart!(
    commands::ERASE_WR_BLK_END,
    b"ERASE_WR_BLK_END",
    commands::ERASE_GROUP_END,
    b"ERASE_GROUP_END"
);
// CMD38.
const ERASE: CommandRow = row!(
    Both,
    false,
    commands::ERASE,
    b"ERASE",
    R1b,
    Carried::Nothing
);
// CMD6 of eMMC.
const SWITCH: CommandRow = row!(
    Mmc,
    false,
    commands::SWITCH_FUNC,
    b"SWITCH",
    R1b,
    Carried::Nothing
);
// CMD6 of SD.
const SWITCH_FUNC: CommandRow = row!(
    Sd,
    false,
    commands::SWITCH_FUNC,
    b"SWITCH_FUNC",
    R1,
    Carried::ReadOne(64)
);
// ACMD6 of SD.
const SET_BUS_WIDTH: CommandRow = row!(
    Sd,
    true,
    commands::SET_BUS_WIDTH,
    b"SET_BUS_WIDTH",
    R1,
    Carried::Nothing
);
// ACMD51 of SD.
const SEND_SCR: CommandRow = row!(
    Sd,
    true,
    commands::SEND_SCR,
    b"SEND_SCR",
    R1,
    Carried::ReadOne(8)
);
// CMD55, which an eMMC device doesn't take here.
const APP_CMD: CommandRow = row!(
    Both,
    false,
    commands::APP_CMD,
    b"APP_CMD",
    R1,
    Carried::Nothing
);
// A command of no name, which is told as one with an R1.
const UNKNOWN: CommandRow = row!(Both, false, 63, b"", R1, Carried::Nothing);

/// The row of a command.
pub fn row_of(command: Command) -> CommandRow
    ensures whole { told result ≡ row_of command }
    ensures known { IsKnownByItsRow command }
    ensures response { result.response ≡ (row_of command).response }
    ensures carries { result.carries ≡ (row_of command).carries }
{
    match command {
        Command::GoIdleState => GO_IDLE_STATE,
        Command::SendOpCond => SEND_OP_COND,
        Command::SdSendOpCond => SD_SEND_OP_COND,
        Command::AllSendCid => ALL_SEND_CID,
        Command::SendRelativeAddr => SEND_RELATIVE_ADDR,
        Command::SetRelativeAddr => SET_RELATIVE_ADDR,
        Command::SelectCard => SELECT_CARD,
        Command::SendIfCond => SEND_IF_COND,
        Command::SendExtCsd => SEND_EXT_CSD,
        Command::SendCsd => SEND_CSD,
        Command::StopTransmission => STOP_TRANSMISSION,
        Command::SendStatus => SEND_STATUS,
        Command::SetBlocklen => SET_BLOCKLEN,
        Command::ReadSingleBlock => READ_SINGLE_BLOCK,
        Command::ReadMultipleBlock => READ_MULTIPLE_BLOCK,
        Command::SetBlockCount => SET_BLOCK_COUNT,
        Command::WriteBlock => WRITE_BLOCK,
        Command::WriteMultipleBlock => WRITE_MULTIPLE_BLOCK,
        Command::EraseStart => ERASE_START,
        Command::EraseEnd => ERASE_END,
        Command::Erase => ERASE,
        Command::Switch => SWITCH,
        Command::SwitchFunc => SWITCH_FUNC,
        Command::SetBusWidth => SET_BUS_WIDTH,
        Command::SendScr => SEND_SCR,
        Command::AppCmd => APP_CMD,
        Command::Unknown => UNKNOWN,
    }
}
