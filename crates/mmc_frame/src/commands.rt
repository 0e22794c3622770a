// Indexes of commands (SD Physical Layer 6.00, section 4.7.4; JESD84-B51, section 6.10.4). SD alone has those with an A in
// front of their number: CMD55 makes the next command one of them.

/// CMD0: takes the card to idle, as after power on.
pub const GO_IDLE_STATE: u8 = 0;
/// CMD1 of eMMC: asks whether the device is ready, with the voltages that the host has.
pub const SEND_OP_COND: u8 = 1;
/// CMD2: asks for the CID.
pub const ALL_SEND_CID: u8 = 2;
/// CMD3 of SD: asks the card to publish a relative card address.
pub const SEND_RELATIVE_ADDR: u8 = 3;
/// CMD6 of SD: asks for the switch status, or switches to high speed.
pub const SWITCH_FUNC: u8 = 6;
/// ACMD6: how many lines carry a block.
pub const SET_BUS_WIDTH: u8 = 6;
/// CMD7: selects the card with the RCA in argument bits 31 to 16.
pub const SELECT_CARD: u8 = 7;
/// CMD8 of SD: tells the host's voltage, and asks for an echo of the check pattern.
pub const SEND_IF_COND: u8 = 8;
/// CMD9: asks for the CSD of the card with the RCA in argument bits 31 to 16.
pub const SEND_CSD: u8 = 9;
/// CMD12: ends a transfer of several blocks.
pub const STOP_TRANSMISSION: u8 = 12;
/// CMD13: the status of the card with the RCA in argument bits 31 to 16.
pub const SEND_STATUS: u8 = 13;
/// CMD16: the length of a block, in bytes.
pub const SET_BLOCKLEN: u8 = 16;
/// CMD17: reads the block at the address in the argument.
pub const READ_SINGLE_BLOCK: u8 = 17;
/// CMD18: reads blocks from the address in the argument on.
pub const READ_MULTIPLE_BLOCK: u8 = 18;
/// CMD23: how many blocks the next transfer has.
pub const SET_BLOCK_COUNT: u8 = 23;
/// CMD24: writes the block at the address in the argument.
pub const WRITE_BLOCK: u8 = 24;
/// CMD25: writes blocks from the address in the argument on.
pub const WRITE_MULTIPLE_BLOCK: u8 = 25;
/// CMD32 of SD: the first address of an erase.
pub const ERASE_WR_BLK_START: u8 = 32;
/// CMD33 of SD: the last address of an erase.
pub const ERASE_WR_BLK_END: u8 = 33;
/// CMD35 of eMMC: the first address of an erase or trim.
pub const ERASE_GROUP_START: u8 = 35;
/// CMD36 of eMMC: the last address of an erase or trim.
pub const ERASE_GROUP_END: u8 = 36;
/// CMD38: erases what the commands before it named.
pub const ERASE: u8 = 38;
/// ACMD41: asks whether the card is ready, with the voltages that the host has.
pub const SD_SEND_OP_COND: u8 = 41;
/// ACMD51: asks for the SCR.
pub const SEND_SCR: u8 = 51;
/// CMD55: makes the next command an application command.
pub const APP_CMD: u8 = 55;
