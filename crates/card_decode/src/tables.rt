// The fields of each register as data, from the highest bit down. A row has a name, the highest and the lowest bit (of
// an EXT_CSD byte), and a meaning.

// A row of a table.
macro_rules! field {
    ($name:literal, $high:literal, $low:literal, $meaning:expr) => {
        Field { name: $name, high: $high, low: $low, meaning: $meaning }
    };
}

// A row of bits that have to be 0.
macro_rules! reserved {
    ($high:literal, $low:literal) => {
        Field { name: b"reserved", high: $high, low: $low, meaning: Meaning::Reserved }
    };
}

// The values or bits that have a name.
macro_rules! names {
    ($($value:literal => $text:literal),* $(,)?) => {
        &[$(Name { value: $value, text: $text }),*]
    };
}

// The value plus an offset, times a factor, of a unit.
macro_rules! scaled {
    ($offset:literal, $factor:literal, $unit:literal) => {
        Meaning::Scaled(Scale { offset: $offset, factor: $factor, unit: $unit })
    };
}

mod cid;
mod csd;
mod csd_common;
mod csd_mmc;
pub(crate) mod ext_csd;
mod ext_csd_names;
mod ocr;
mod scr;
mod status;
mod switch_status;

pub(crate) use cid::{cid_mmc, cid_sd};
pub(crate) use csd::{csd_v1, csd_v2, csd_v3};
pub(crate) use csd_mmc::csd_mmc;
pub(crate) use ocr::{ocr_mmc, ocr_sd};
pub(crate) use scr::scr;
pub(crate) use status::{status_mmc, status_sd};
pub(crate) use switch_status::switch_status;
