//! The row of each call: a function that answers it, and meets what the serial file server says of it (`afp_serial`). A module is a group of the AFP
//! Reference, and has the calls of that group's requests: `session` those of `afp_calls_session`, and so on.
#![tactic(auto)]

mod desktop;
mod directory;
mod file;
mod fork;
mod node_reply;
mod session;
mod tree_changes;
mod volume;

pub use desktop::appls::{add_appl, get_appl, remove_appl};
pub use desktop::comments::{add_comment, get_comment, remove_comment};
pub use desktop::icons::{add_icon, get_icon, get_icon_info};
pub use desktop::open_dt::{close_dt, open_dt};
pub use directory::create_dir::create_dir;
pub use directory::delete::delete;
pub use directory::enumerate::{enumerate, enumerate_ext, enumerate_ext2};
pub use directory::get_file_dir_parms::get_file_dir_parms;
pub use directory::move_and_rename::move_and_rename;
pub use directory::open_dir::{close_dir, open_dir};
pub use directory::rename::rename;
pub use directory::set_dir_parms::set_dir_parms;
pub use directory::set_file_dir_parms::set_file_dir_parms;
pub use file::copy_file::copy_file;
pub use file::create_file::create_file;
pub use file::exchange_files::exchange_files;
pub use file::file_ids::{create_id, delete_id, resolve_id};
pub use file::set_file_parms::set_file_parms;
pub use fork::byte_range_lock::{byte_range_lock, byte_range_lock_ext};
pub use fork::close_fork::close_fork;
pub use fork::flush_fork::flush_fork;
pub use fork::get_fork_parms::get_fork_parms;
pub use fork::open_fork::open_fork;
pub use fork::read::{read, read_ext};
pub use fork::set_fork_parms::set_fork_parms;
pub use fork::write::{write, write_ext};
pub use session::login::{login, login_ext};
pub use session::logout::logout;
pub use session::server::{get_srvr_info, get_srvr_msg, get_srvr_parms};
pub use session::session_token::{disconnect_old_session, get_session_token};
pub use session::user_calls::{get_user_info, map_id, map_name};
pub use volume::close_vol::close_vol;
pub use volume::flush::flush;
pub use volume::get_vol_parms::get_vol_parms;
pub use volume::open_vol::open_vol;
pub use volume::set_vol_parms::set_vol_parms;
