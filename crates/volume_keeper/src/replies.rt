//! What a volume tells: the bytes of its parameters, of a node's parameters and of lists, as the serial file server tells them.

mod asked;
mod directory;
mod entry;
mod fields;
mod file;
mod found_file;
mod list_asked;
mod lists;
mod names;
mod node;
mod parms;
mod volume;

pub use crate::replies::found_file::open_fork;
pub use crate::replies::list_asked::ListAsked;
pub use crate::replies::lists::list;
pub use crate::replies::node::node_params;
pub use crate::replies::parms::{get_file_dir_parms, get_vol_parms, open_dir};
pub use crate::replies::volume::volume_params;
