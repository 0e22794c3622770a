//! Requests of one client, one at a time, without a queue and without a heap: over a bus, by how the card stands, or as a whole call
//! over a host, by a plain record of what is known of the card. The card is opened and noted, and each later call reads the record,
//! goes on over the host, which is told the card's lines again, makes one request, and notes how the card stands then. A request that
//! is refused tells the host nothing.
#![tactic(auto)]

mod attempts;
mod counting;
mod erasing;
mod going_on;
mod noting;
mod opening;
mod reading;
mod refused;
mod request;
mod requests;
mod retries;
mod rules;
mod served;
mod serving;
mod whole;
mod writing;

pub use attempts::EXCHANGES_BESIDE_A_RUN;
pub use erasing::{Erasing, action_of};
pub use going_on::go_on;
pub use mmc_erase::How;
pub use mmc_recovery::Healed;
pub use mmc_requests::{ATTEMPTS, Asked, Kind, Kind as Action, Refused};
pub use mmc_switch::Stands;
pub use noting::{noted, stands_by};
pub use opening::{EXCHANGES_OF_AN_OPENING, ROUNDS_OF_AN_OPENING, open};
pub use reading::Reading;
pub use refused::NotDone;
pub use request::Request;
pub use requests::{erase, read, write};
pub use rules::refusal;
pub use served::Served;
pub use serving::serve;
pub use whole::{Left, serve_over};
pub use writing::Writing;
