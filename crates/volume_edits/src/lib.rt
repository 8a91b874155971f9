//! Edits of a volume and its desktop database, and the plan of each call that changes a volume: why
//! it is refused, or the edits that one after the other are what the call does.
#![tactic(auto)]

pub mod edits;
mod plans;

pub use edits::{Edit, ForkAfter, NodeStep, Plan, WholeNode, WholeVolume};
pub use plans::{
    CopiedFile, copied_file, plan_add_appl, plan_add_comment, plan_add_icon, plan_copy_file,
    plan_create_dir, plan_create_file, plan_create_id, plan_delete, plan_delete_id,
    plan_exchange_files, plan_move_and_rename, plan_remove_appl, plan_remove_comment, plan_rename,
    plan_set_dir_parms, plan_set_file_dir_parms, plan_set_file_parms, plan_set_vol_parms,
    plan_tree_call,
};
