//! From a card that is identified to one that is ready: width, speed and partition.
#![tactic(auto)]

mod broken;
mod ending;
mod fault;
mod info;
mod initialization;
mod known_faults;
mod mmc;
mod opening;
mod progress;
mod registers;
mod sd;
mod selection;
mod session;
mod sizes;
mod stands;
mod widening;

pub use broken::Broken;
pub use ending::{EXCHANGES_OF_AN_ENDING, Ending, one_more};
pub use fault::SwitchFault;
pub use info::Info;
pub use initialization::{EXCHANGES_OF_AN_INITIALIZATION, InitializationFault, initialize};
pub use mmc::EXCHANGES_OF_A_SWITCH;
pub use mmc_bus::Cause;
pub use opening::{EXCHANGES_OF_AN_OPENING, ROUNDS_OF_AN_OPENING, initialize_in, open_card};
pub use progress::{Progress, Standing};
pub use selection::select;
pub use session::Session;
pub use sizes::Sizes;
pub use stands::Stands;
pub use widening::widen;
