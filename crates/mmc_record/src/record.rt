use std::mem::size_of;

// As `struct kelifandro_card` of C.
const _: () = prove!(size_of::<CardRecord>() == 104);

/// What is known of a card, and how it stands. It is read with a check, so that a record which nobody has noted does no harm.
#[repr(C)]
#[derive(Clone, Copy, Debug, PartialEq, Eq)]
pub struct CardRecord {
    /// 1 ready, 2 to be settled, 3 to be reset; anything else: nothing was noted.
    pub state: u8,
    /// 0 SD, 1 eMMC.
    pub kind: u8,
    /// 0 commands name bytes, 1 sectors.
    pub addressing: u8,
    /// The partition that is selected, as `part_of` has them, or 255 where that isn't known.
    pub selected: u8,
    /// PARTITION_CONFIG of an eMMC device, 0 of an SD card.
    pub partition_config: u8,
    /// 1, 4 or 8 data lines.
    pub lines: u8,
    /// 1 at high speed.
    pub high_speed: u8,
    /// 1 where it is write protected.
    pub read_only: u8,
    /// 1 where it trims.
    pub trims: u8,
    /// 1 where it takes CMD23.
    pub cmd23: u8,
    /// What each byte of an erased sector holds.
    pub erased_byte: u8,
    /// Why it has to be settled: 0 a response, 1 a block, 2 a status, 3 busy, 4 recovery.
    pub cause: u8,
    /// Its address on the bus.
    pub rca: u16,
    /// The CID, with its check.
    pub cid: [u8; 16],
    /// The CSD, with its check.
    pub csd: [u8; 16],
    /// The user partition in sectors.
    pub user: u64,
    /// Each boot partition in sectors.
    pub boot: u64,
    /// General purpose partition 1 in sectors.
    pub gp1: u64,
    /// General purpose partition 2 in sectors.
    pub gp2: u64,
    /// General purpose partition 3 in sectors.
    pub gp3: u64,
    /// General purpose partition 4 in sectors.
    pub gp4: u64,
    /// The erase unit in sectors.
    pub erase_unit: u64,
}
