//! A volume with its desktop database, and edits of it: one after the other they are what a call does.

mod after;
mod appl_after;
mod apply;
mod before;
mod blocks_after;
mod carry_out;
mod changed;
mod comment_after;
mod edit;
mod fork_after;
mod head_after;
mod icon_after;
mod kinds;
pub mod laws;
mod plan;
mod whole;
mod whole_node;

pub use crate::edits::after::NodeStep;
pub use crate::edits::edit::Edit;
pub use crate::edits::fork_after::ForkAfter;
pub use crate::edits::plan::Plan;
pub use crate::edits::whole::WholeVolume;
pub use crate::edits::whole_node::WholeNode;
