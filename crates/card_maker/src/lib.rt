//! Card files of new cards: the registers of an SD card or an eMMC device of a wanted size, and the text from which they
//! are read again.
#![tactic(auto)]

mod card;
mod card_file;
mod csd;
mod ext_csd;
mod fault;
pub mod laws;
mod sizes;
mod wanted;

pub use card::card_by;
pub use card_file::put_card_file;
pub use fault::MakeFault;
pub use wanted::Wanted;
