//! The requests that the commands of a client's script ask.

mod desk;
mod directory;
mod forks;
mod moves;
mod parms;
mod path;
mod volume;

pub use crate::calls::desk::{add_comment, get_comment, open_desk};
pub use crate::calls::directory::{create_dir, create_file, delete, get_id, list};
pub use crate::calls::forks::{
    close_fork, lock, open_fork, open_resource_fork, read, unlock, write,
};
pub use crate::calls::moves::{copy_to, exchange, move_to};
pub use crate::calls::parms::{get_shown, set_file};
pub use crate::calls::volume::{logout, open_volume, resolve};
