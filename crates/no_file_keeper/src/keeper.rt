//! A keeper over a file that is never there.
ghost use Rattle.std.specs.Prelude.{◌≡◌, false, IfOk};

use afp_base::Bytes;
use record_keeper::{Change, Keeper, KeeperFault, MemoryKeeper, RecordKey};
use std::alloc::Global;
use thiserror::Error;

/// Would keep its records in a file; no value is made, since no file is opened. It has a keeper in memory, so that its calls mean something.
#[derive(Drop)]
pub struct FileKeeper {
    kept: MemoryKeeper,
}

/// Why a file is not taken.
#[derive(Debug, Drop, Error)]
pub enum OpenFault {
    /// Nothing is kept in files. The text tells a person so.
    #[error("{0}")]
    File(&'static str),
    /// No open answers it.
    #[error("{0}")]
    Start(&'static str),
}

impl OpenFault {
    /// Whether there was no memory: that is never why no file is opened.
    pub fn is_memory(&self) -> bool
        ensures { result ≡ false }
    {
        false
    }
}

impl FileKeeper {
    /// Opens no file, at any path.
    pub fn open(_rt: &HostRuntime, _path: &str) -> Result<FileKeeper, OpenFault>
        ensures { IfOk result (λ _. ⊥) }
    {
        Err(OpenFault::File("this build keeps volumes in memory alone, and nothing in files"))
    }
}

impl Keeper for FileKeeper {
    ghost use Rattle.std.specs.Prelude.{Some, true};
    ghost use Rattle.record_keeper.specs.Planned.{never_fails};

    ghost records = { λ k. Some k.kept.records };

    ghost faults = { λ k. k.kept.planned.faults };

    ghost sure = { λ k. never_fails k.kept.planned };

    ghost steady = { λ _. true };

    ghost settles = { λ k. k.kept.settles };

    fn read(&mut self, alloc: Global, key: &RecordKey) -> Result<Option<Bytes>, KeeperFault> {
        self.kept.read(alloc, key)
    }

    fn next_key(
        &mut self,
        alloc: Global,
        after: Option<&RecordKey>,
    ) -> Result<Option<RecordKey>, KeeperFault> {
        self.kept.next_key(alloc, after)
    }

    fn commit(&mut self, alloc: Global, changes: Vec<Change>) -> Result<(), KeeperFault> {
        self.kept.commit(alloc, changes)
    }

    fn settle(&mut self) -> Result<(), KeeperFault> {
        self.kept.settle()
    }
}

/// Empties no log, at any path.
pub fn empty_log(_rt: &HostRuntime, _path: &str) -> Result<(), &'static str>
    ensures { IfOk result (λ _. ⊥) }
{
    Err("this build keeps nothing in files")
}
