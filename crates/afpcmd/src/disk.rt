//! Local files of this machine.
use afp_outside::{ReadResult, Sink, Source, Wrote};
use afpcmd_lib::{Local, LocalFault, Seen};
use std::fs::{File, OpenFile, OpenOptions};
use std::io::{ErrorKind, Read, Seek, SeekFrom, Write};
use std::os::unix::fs::MetadataExt;
use std::time::{Duration, UNIX_EPOCH};
use std::{fs, io};

/// What stands in place of a name that is not UTF-8: nothing is found there, which a person is told.
const NO_NAME: &str = "(a name that is not UTF-8)";

/// Bytes of a file. It counts its errors and tells no bytes.
#[derive(Drop)]
pub struct FileSource {
    file: File,
    ended: bool,
    faults: u64,
}

impl FileSource {
    /// The bytes of an open file, from where it stands.
    pub fn new(file: File) -> FileSource {
        FileSource {
            file,
            ended: false,
            faults: 0,
        }
    }
}

impl Source for FileSource {
    ghost use Rattle.std.specs.Prelude.{None};

    ghost source_state = { λ s. record { given = None; given_before = None; coming = None; ended = s.ended; faults = s.faults } };

    fn read(&mut self, room: &mut [u8]) -> ReadResult {
        match self.file.read(room) {
            Ok(0) => {
                self.ended = true;
                ReadResult::End
            }
            Ok(n) => ReadResult::Got(n),
            Err(_) => {
                self.faults = self.faults.saturating_add(1);
                ReadResult::Failed
            }
        }
    }
}

/// Where bytes of a file go.
#[derive(Drop)]
pub struct FileSink {
    file: File,
    faults: u64,
}

impl Sink for FileSink {
    ghost use Rattle.std.specs.Prelude.{None};

    ghost sink_state = { λ s. record { written = None; faults = s.faults } };

    fn write(&mut self, piece: &[u8]) -> Wrote {
        match self.file.write(piece) {
            Ok(n) if n > 0 => Wrote::Took(n),
            _ => {
                self.faults = self.faults.saturating_add(1);
                Wrote::Failed
            }
        }
    }
}

/// The files of this machine.
#[derive(Drop)]
pub struct Disk<'a> {
    rt: &'a HostRuntime,
}

impl<'a> Disk<'a> {
    /// The files of this machine.
    pub fn new(rt: &'a HostRuntime) -> Disk<'a> {
        Disk { rt }
    }

    /// A file at a place in it.
    fn opened(&self, how: &OpenOptions, path: &str, from: u64) -> io::Result<File> {
        let mut file = how.open(self.rt, path)?;
        let _at = file.seek(SeekFrom::Start(from))?;
        Ok(file)
    }

    /// A file whose bytes from this one on are dropped.
    fn made(&self, path: &str, from: u64) -> io::Result<File> {
        let mut how = OpenOptions::new();
        let _how = how.write(true).create(true);
        let file = self.opened(&how, path, from)?;
        file.set_len(from)?;
        Ok(file)
    }

    /// The names in a directory.
    fn listed(&self, path: &str) -> io::Result<Vec<String>> {
        let mut names = Vec::new(self.rt.alloc());
        for entry in fs::read_dir(self.rt, path)? {
            match entry {
                Ok(entry) => names.push(String::from_str(self.rt.alloc(), entry.file_name())?)?,
                Err(error) if error.kind() == ErrorKind::InvalidFilename => {
                    names.push(String::from_str(self.rt.alloc(), NO_NAME)?)?;
                }
                Err(error) => return Err(error),
            }
        }
        names.sort()?;
        Ok(names)
    }

    /// Sets a date.
    fn dated(&self, path: &str, seconds: i64) -> io::Result<()> {
        let file = File::open(self.rt, path)?;
        if seconds >= 0 {
            if let Some(date) = UNIX_EPOCH.checked_add(Duration::from_secs(seconds as u64)) {
                file.set_modified(date)?;
            }
        }
        Ok(())
    }
}

impl<'a> Local for Disk<'a> {
    type From = FileSource;

    type To = FileSink;

    fn look(&mut self, path: &str) -> Option<Seen> {
        let path = if path.is_empty() { "." } else { path };
        let Ok(data) = fs::metadata(self.rt, path) else {
            return None;
        };
        Some(Seen {
            is_dir: data.is_dir(),
            is_file: data.is_file(),
            size: data.len(),
            modified: data.mtime(),
        })
    }

    fn open(&mut self, path: &str, from: u64) -> Result<FileSource, LocalFault> {
        let mut how = OpenOptions::new();
        let _how = how.read(true);
        match self.opened(&how, path, from) {
            Ok(file) => Ok(FileSource::new(file)),
            Err(error) => Err(error),
        }
    }

    fn make(&mut self, path: &str, from: u64) -> Result<FileSink, LocalFault> {
        match self.made(path, from) {
            Ok(file) => Ok(FileSink { file, faults: 0 }),
            Err(error) => Err(error),
        }
    }

    fn make_dir(&mut self, path: &str) -> Result<(), LocalFault> {
        match fs::create_dir(self.rt, path) {
            Ok(()) => Ok(()),
            Err(error) if error.kind() == ErrorKind::AlreadyExists => Ok(()),
            Err(error) => Err(error),
        }
    }

    fn names(&mut self, path: &str) -> Result<Vec<String>, LocalFault> {
        let path = if path.is_empty() { "." } else { path };
        self.listed(path)
    }

    fn date(&mut self, path: &str, seconds: i64) -> Result<(), LocalFault> {
        self.dated(path, seconds)
    }
}
