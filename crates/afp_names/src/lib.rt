//! Names of files and directories, their keys and long names, and paths.
#![tactic(auto)]

mod long_names;
pub mod mac_roman;
mod name;
mod path;

pub use long_names::{LONGEST_EXTENSION, LONGEST_LONG_NAME, long_name, put_shown};
pub use name::{LONGEST_NAME, Name, NameFault};
pub use path::{
    LONG_NAMES, LONGEST_LONG_PATH, LONGEST_PATH, Path, PathFault, Step, UTF8_NAMES,
    longest_paths_are_as_sent,
};
