//! A volume beside the keeper of its records: it is loaded from them, what changes it is committed
//! to the keeper first, and its parameters and lists are told from it.
#![tactic(auto)]

pub mod kept;
mod loading;
mod replies;

pub use kept::{KeptVolume, Reason, plan_fork_length, plan_fork_write};
pub use loading::{LoadFault, load};
pub use replies::{
    ListAsked, get_file_dir_parms, get_vol_parms, list, node_params, open_dir, open_fork,
    volume_params,
};
