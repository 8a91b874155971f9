//! The desktop database of a volume: icons, APPL mappings and comments, each kind in a sorted vector.
#![tactic(auto)]

mod appl;
mod appls;
mod bytes;
mod comment;
mod comments;
mod desktop;
mod fault;
mod icon;
mod icons;
mod place;

pub use appl::Appl;
pub use comment::Comment;
pub use desktop::Desktop;
pub use fault::DeskFault;
pub use icon::{Icon, icon_key};
