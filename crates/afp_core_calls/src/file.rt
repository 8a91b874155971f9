//! The rows of the calls about files (AFP Reference, "File Commands").

pub mod copy_file;
pub mod create_file;
pub mod exchange_files;
pub mod file_ids;
mod rights;
pub mod set_file_parms;
