//! The rows of the calls about directories, and on files and directories alike (AFP Reference, "Directory Commands", "Combined Directory-File Commands").

pub mod create_dir;
pub mod delete;
pub mod enumerate;
pub mod get_file_dir_parms;
pub mod move_and_rename;
pub mod open_dir;
pub mod rename;
pub mod set_dir_parms;
pub mod set_file_dir_parms;
