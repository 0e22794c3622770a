// The EXT_CSD of a new eMMC device.
ghost use Rattle.std.specs.Prelude.{◌≡◌};
ghost use Rattle.card_maker.specs.NewExtCsd.{new_ext_csd};

/// The EXT_CSD of an eMMC device (JESD84-B51, section 7.4) with so many sectors, where its commands name sectors, boot
/// partitions of so many times 256 sectors, and a first general purpose partition of so many times 1,024: revision 8, trim,
/// erase units and write protect groups of 1,024 sectors, and erased bytes 00h.
#[tactic(auto, unfolding(crate::specs::NewExtCsd::new_ext_csd))]
pub fn ext_csd(sectors: u32, boot: u8, gp: u32, high_speed: bool) -> [u8; 512]
    ensures { result ≡ new_ext_csd sectors boot gp high_speed }
{
    let mut block = [0; 512];
    let [low, middle, high, _] = gp.to_le_bytes();
    block[143] = low;
    block[144] = middle;
    block[145] = high;
    block[155] = u8::from(gp != 0);
    block[160] = u8::from(gp != 0);
    block[192] = 8;
    block[194] = 2;
    block[196] = if high_speed { 3 } else { 1 };
    let [low, second, third, high] = sectors.to_le_bytes();
    block[212] = low;
    block[213] = second;
    block[214] = third;
    block[215] = high;
    block[221] = 1;
    block[224] = 1;
    block[226] = boot;
    block[231] = 0x10;
    block
}
