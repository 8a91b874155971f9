//! The plans of calls that change a volume: why a call is refused, or its edits, all that carrying them out takes memory for included.

mod add_appl;
mod add_comment;
mod add_icon;
mod asked;
mod copy_file;
mod copy_source;
mod create_dir;
mod create_file;
mod create_id;
mod delete;
mod delete_id;
mod exchange_files;
mod move_and_rename;
mod new_node;
mod one;
mod remove_appl;
mod remove_comment;
mod rename;
mod set_parms;
mod set_vol_parms;
mod tree_asked;
mod tree_call;

pub use crate::plans::add_appl::plan_add_appl;
pub use crate::plans::add_comment::plan_add_comment;
pub use crate::plans::add_icon::plan_add_icon;
pub use crate::plans::copy_file::plan_copy_file;
pub use crate::plans::copy_source::{CopiedFile, copied_file};
pub use crate::plans::create_dir::plan_create_dir;
pub use crate::plans::create_file::plan_create_file;
pub use crate::plans::create_id::plan_create_id;
pub use crate::plans::delete::plan_delete;
pub use crate::plans::delete_id::plan_delete_id;
pub use crate::plans::exchange_files::plan_exchange_files;
pub use crate::plans::move_and_rename::plan_move_and_rename;
pub use crate::plans::remove_appl::plan_remove_appl;
pub use crate::plans::remove_comment::plan_remove_comment;
pub use crate::plans::rename::plan_rename;
pub use crate::plans::set_parms::{
    plan_set_dir_parms, plan_set_file_dir_parms, plan_set_file_parms,
};
pub use crate::plans::set_vol_parms::plan_set_vol_parms;
pub use crate::plans::tree_call::plan_tree_call;
