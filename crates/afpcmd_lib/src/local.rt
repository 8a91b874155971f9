//! Files of this machine.
use afp_outside::{Sink, Source};
use std::io;

/// What the system says of a local file.
pub type LocalFault = io::Error;

/// A local file or directory; its date is in seconds from 1970.
#[derive(Clone, Copy)]
pub struct Seen {
    pub is_dir: bool,
    pub is_file: bool,
    pub size: u64,
    pub modified: i64,
}

/// Local files.
pub trait Local {
    /// Bytes of a local file.
    type From: Source + Drop;

    /// Where bytes of a local file go.
    type To: Sink + Drop;

    /// What stands at a path; a link to a file is what it leads to.
    fn look(&mut self, path: &str) -> Option<Seen>;

    /// A file's bytes from this one on.
    fn open(&mut self, path: &str, from: u64) -> Result<Self::From, LocalFault>;

    /// A file's bytes from this one on; those behind it are dropped.
    fn make(&mut self, path: &str, from: u64) -> Result<Self::To, LocalFault>;

    /// A directory, where none is.
    fn make_dir(&mut self, path: &str) -> Result<(), LocalFault>;

    /// The names in a directory, in order.
    fn names(&mut self, path: &str) -> Result<Vec<String>, LocalFault>;

    /// Sets the date of a file or directory.
    fn date(&mut self, path: &str, seconds: i64) -> Result<(), LocalFault>;
}
