//! The serial file server: what it is set up with, its world, what it is asked and tells, and whoever answers
//! asks out of one history.
#![tactic(auto)]

mod answered;
mod ask;
mod attachment;
mod checks;
pub mod fork_laws;
mod house;
mod house_fault;
pub mod laws;
pub mod limits;
mod ranges;
pub mod session_laws;
mod status;
pub mod status_words;
mod teller;
mod user;

pub use answered::{Answered, put_told};
pub use ask::{Ask, Entry, Outcome, Told};
pub use attachment::Attachment;
pub use checks::{has_user_named, has_volume_named, is_name};
pub use house::House;
pub use house_fault::HouseFault;
pub use ranges::{entry_in_range, moment_in_range};
pub use teller::Teller;
pub use user::User;
