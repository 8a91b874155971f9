//! The tree of a volume: its nodes with their forks, what calls find in it, and its edits.
#![tactic(auto)]

mod after;
mod asked;
mod children;
mod edit;
mod edit_forks;
mod fill;
mod forks;
mod going;
mod head;
mod kept_forks;
mod marks;
mod parts;
mod places;
mod resolve;
mod restore;
mod rights;
mod settings;
mod tails;
mod volume;

pub use after::NodeAfter;
pub use asked::{DELETE_INHIBIT, RENAME_INHIBIT, is_busy};
pub use forks::FileForks;
pub use head::VolumeHead;
pub use parts::{NewName, NodeWithForks};
pub use places::{new_name, only_name, steps_are_named};
pub use resolve::PlanFault;
pub use restore::LoadedNode;
pub use rights::rights_of;
pub use settings::Settings;
pub use tails::{is_short_tail, settings_in};
pub use volume::Volume;
