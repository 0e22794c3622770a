// Cards that are known to do wrong what their registers say they can, by MID and PNM of their CID (SD Physical Layer 6.00,
// section 5.2; JESD84-B51, section 7.2).
ghost use Rattle.std.specs.Prelude.{◌≡◌};
ghost use Rattle.mmc_switch.specs.KnownFaults.{locks_up_at_cmd23, loses_by_trim};

use mmc_frame::Kind;
use mmc_regs::Cid;

/// Whether a trim loses sectors that it doesn't name, or leaves those that it names: SanDisk "SEM02G" to "SEM32G", Kingston
/// "V10008", "V10016" and "M62704", Micron "Q2J54A".
pub fn loses_by_trim(kind: Kind, cid: Cid) -> bool
    ensures { result ≡ loses_by_trim kind cid }
{
    let name = cid.product_name(kind);
    match (kind, cid.manufacturer()) {
        (Kind::Mmc, 0x02) => matches!(
            name,
            0x5345_4d30_3247
                | 0x5345_4d30_3447
                | 0x5345_4d30_3847
                | 0x5345_4d31_3647
                | 0x5345_4d33_3247
        ),
        (Kind::Mmc, 0x70) => matches!(name, 0x5631_3030_3038 | 0x5631_3030_3136 | 0x4d36_3237_3034),
        (Kind::Mmc, 0x13) => name == 0x5132_4a35_3441,
        _ => false,
    }
}

/// Whether CMD23 locks it up: ATP "AF SD", Apacer "APUSD".
pub fn locks_up_at_cmd23(kind: Kind, cid: Cid) -> bool
    ensures { result ≡ locks_up_at_cmd23 kind cid }
{
    match (kind, cid.manufacturer()) {
        (Kind::Sd, 0x09) => cid.product_name(kind) == 0x41_4620_5344,
        (Kind::Sd, 0x27) => cid.product_name(kind) == 0x41_5055_5344,
        _ => false,
    }
}
