// What a card in memory is built by, and what is refused.
use mmc_bus::Bytes;
use mmc_card_rows::{Refusal, Registers};
use thiserror::Error;

/// The most sectors of a card that `SimCard::build` makes, in all its partitions together.
pub const MAX_SECTORS: usize = 65_536;

/// What a card in memory is built by: what a card file says but its faults, and an image.
#[derive(Debug, Drop)]
pub struct CardSpec {
    /// The registers.
    pub registers: Registers,
    /// The size of the user partition in sectors, which is to be that of the registers.
    pub sectors: u64,
    /// How many of the first readiness inquiries are answered with not ready, 0 to 15.
    pub ready: u8,
    /// How many of the first polls of a busy time are answered yes, 0 to 15.
    pub busy: u8,
    /// Bits 30 and 29 of the OCR while the card isn't ready, 0 to 3. Without them they are those of the OCR.
    pub early: Option<u8>,
    /// Whether the block length outlives CMD0 and a loss of power. Otherwise it is the one that the registers name then:
    /// 2^READ_BL_LEN of a card with byte addresses, and 512 of any other.
    pub keeps_length: bool,
    /// How an SD card whose switch status names high speed refuses to switch to it. Without a refusal it switches.
    pub refusal: Option<Refusal>,
    /// Whether CMD12 that ends a read leaves the card busy, for as many polls as any busy time.
    pub stays_busy: bool,
    /// How many statuses lag behind each programming and still show prg: they and the polls that were answered yes are as many
    /// as this and the delay of busy say, 15 at most.
    pub lagging: u8,
    /// How many statuses lag behind CMD7, and after CMD12 that ends a read, and still show stby or data, counted in the same way.
    pub late: u8,
    /// Whether the card goes on by itself between two exchanges: before a command, and before a block that is written, its busy
    /// time has ended, and a read has sent one block that nobody took.
    pub goes_on: bool,
    /// Whether an SD card shows APP_CMD, bit 5 of the status, in each response to CMD3, as most do in their R6: ACMD41 is answered
    /// by an R3, which has no status (SD Physical Layer 6.00, sections 4.9.5 and 4.10.1).
    pub shows_app_cmd: bool,
    /// Whether an eMMC device ages: at each CMD0 it says one more of its life time, in DEVICE_LIFE_TIME_EST_TYP_A, byte 268 of its
    /// EXT_CSD, which nobody reads, and 0 after 255 (JESD84-B51, section 7.4).
    pub ages: bool,
    /// The bytes of all sectors, 512 each, a partition after the other in the order of `Part`; the card keeps its
    /// sectors in them. Without an image all bytes are the erased byte.
    pub image: Option<Bytes>,
}

/// Why a card isn't built. Where several hold, the first is named.
#[derive(Clone, Copy, Debug, PartialEq, Eq, Error)]
pub enum BuildFault {
    /// The CID or the CSD is refused by its reader; the OCR has not both bits 20 and 21, which are 3.2 to 3.4 V, or it
    /// has bit 31; an SD card publishes RCA 0; an eMMC device has no erase unit, or the reserved access modes 1 and 3;
    /// `ready` or `busy` is above 15, or `early` above 3; the user partition has no sector, or not as many as `sectors` says.
    #[error("a register is refused")]
    Register,
    /// All partitions together have more sectors than the card that is built may have, `MAX_SECTORS` by
    /// `SimCard::build` and `MAX_LARGE` by `SimCard::build_large`, or the image hasn't 512 bytes for each of them.
    #[error("the image has another size")]
    ImageSize,
    /// The room for the sectors is refused.
    #[error("no memory")]
    NoMemory,
}
