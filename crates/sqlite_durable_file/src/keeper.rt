//! A keeper over a database file.
ghost use Rattle.std.specs.Prelude.{◌≡◌, ◌≢◌, ◌⊎◌, ◌≤◌, IfOk, IfErr, IsTrue, Err, codes, true, []};
ghost use Rattle.record_keeper.specs.Stops.{IsSettled};
ghost use Rattle.sqlite.specs.Files.{file_state};
ghost use Rattle.sqlite.specs.Opening.{is_open_error};
ghost use Rattle.sqlite.specs.State.{HasCleanDisk, store_error};
ghost use Rattle.sqlite_durable.specs.Durable.{IsFoundIn};
ghost use Rattle.sqlite_durable_file.specs.Found.{HasFound, file_leaves, file_told};
ghost use Rattle.sqlite_trees.specs.View.{doubt};
ghost use Rattle.sqlite_wal.specs.Files.{image_at};

use afp_base::Bytes;
use record_keeper::{Change, Keeper, KeeperFault, RecordKey};
use sqlite::{Connection, Error, ErrorCode, File, FileFrom, FileStore, Start, Unknown};
use sqlite_durable::{DurableKeeper, StartFault};
use std::alloc::Global;
use thiserror::Error;

/// Keeps its records in a database file. It tells them as the keeper does that it is made of.
#[derive(Drop)]
pub struct FileKeeper {
    inner: DurableKeeper<FileStore<File>>,
}

/// Why a file is not taken.
#[derive(Debug, Drop, Error)]
pub enum OpenFault {
    /// It is not opened: it cannot be read or written, it is no database, or another has it open.
    #[error("{0}")]
    File(Error),
    /// It is a database in which no keeper starts.
    #[error("{0}")]
    Start(StartFault),
}

impl OpenFault {
    /// Whether there was no memory.
    pub fn is_memory(&self) -> bool
        ensures file { self.now ≡ OpenFault.File (Error.SqliteFailure ErrorCode.OutOfMemory) → result ≡ true }
        ensures start { self.now ≡ OpenFault.Start StartFault.Memory → result ≡ true }
        ensures only { result ≡ true → (self.now ≡ OpenFault.File (Error.SqliteFailure ErrorCode.OutOfMemory)) ⊎ (self.now ≡ OpenFault.Start StartFault.Memory) }
    {
        match self {
            OpenFault::File(Error::SqliteFailure(ErrorCode::OutOfMemory)) => true,
            OpenFault::Start(StartFault::Memory) => true,
            _ => false,
        }
    }
}

impl FileKeeper {
    /// A keeper over the database in a file, which is made where it is not there. Beside it lies its log, `PATH-wal`.
    /// Each page of a file that is made here ends in a sum, so a file that was changed between two runs is refused. A program
    /// that writes no such sums spoils them. A file that was made without sums stays without them.
    pub fn open(rt: &HostRuntime, path: &str) -> Result<FileKeeper, OpenFault>
        ensures faults { IfOk result (λ keeper. keeper.inner.faults ≡ 0) }
        ensures settles { IfOk result (λ keeper. keeper.inner.settles ≡ []) }
        ensures named { IfErr result (λ fault. (error : _) → fault ≡ OpenFault.File error → IsTrue (is_open_error error)) }
        ensures alone { result ≢ Err (OpenFault.Start StartFault.InTransaction) }
        ensures path { path.now ≡ codes ":memory:" → result ≡ Err (OpenFault.File (Error.SqliteFailure ErrorCode.CannotOpen)) }
    {
        match open_from(rt, path, Unknown) {
            Ok(inner) => Ok(FileKeeper { inner }),
            Err(fault) => Err(fault),
        }
    }
}

/// The keeper that a `FileKeeper` is made of. `S` stands for what the files held as they were opened, which no code can read: what
/// is said for each `S` holds of any files. No clause ties those to the path. A program names `Unknown`, at which `found` says
/// nothing of a file that held something.
pub fn open_from<S: Start>(
    rt: &HostRuntime,
    path: &str,
    start: S,
) -> Result<DurableKeeper<FileStore<FileFrom<S>>>, OpenFault>
    ensures faults { IfOk result (λ keeper. keeper.faults ≡ 0) }
    ensures settles { IfOk result (λ keeper. keeper.settles ≡ []) }
    ensures named { IfErr result (λ fault. (error : _) → fault ≡ OpenFault.File error → IsTrue (is_open_error error)) }
    ensures alone { result ≢ Err (OpenFault.Start StartFault.InTransaction) }
    ensures path { path.now ≡ codes ":memory:" → result ≡ Err (OpenFault.File (Error.SqliteFailure ErrorCode.CannotOpen)) }
    ensures found { IfOk result (λ keeper. HasCleanDisk (file_state keeper.database) → HasFound (image_at S.Start) (file_state keeper.database)) }
    ensures settled { IfOk result (λ keeper. IsSettled (file_state keeper.database).is_clean (file_told keeper.database) (file_leaves keeper.database)) }
{
    match Connection::open_from(rt, path, true, start) {
        Ok(connection) => started(connection),
        Err((error, _left)) => Err(OpenFault::File(error)),
    }
}

fn started<S: Start>(
    connection: Connection<FileStore<FileFrom<S>>>,
) -> Result<DurableKeeper<FileStore<FileFrom<S>>>, OpenFault>
    ensures faults { IfOk result (λ keeper. keeper.faults ≡ 0) }
    ensures settles { IfOk result (λ keeper. keeper.settles ≡ []) }
    ensures named { IfErr result (λ fault. (error : _) → fault ≢ OpenFault.File error) }
    ensures busy { result ≡ Err (OpenFault.Start StartFault.InTransaction) → connection.in_transaction ≡ true }
    ensures clean { IfOk result (λ keeper. doubt (file_state connection).is_clean ≤ doubt (file_state keeper.database).is_clean) }
    ensures tells { IfOk result (λ keeper. HasCleanDisk (file_state keeper.database) → IsTrue (file_state connection).is_open → IsTrue (file_state keeper.database).is_open) }
    ensures found { IfOk result (λ keeper. IsTrue (file_state keeper.database).is_open → IsFoundIn (file_state connection).now (file_state keeper.database).now) }
    ensures settled { IfOk result (λ keeper. IsSettled (file_state keeper.database).is_clean (file_told keeper.database) (file_leaves keeper.database)) }
{
    match DurableKeeper::new(connection) {
        Ok(keeper) => Ok(keeper),
        Err((fault, _refused)) => Err(OpenFault::Start(fault)),
    }
}

impl Keeper for FileKeeper {
    ghost use Rattle.std.specs.Prelude.{false};
    ghost use Rattle.sqlite.specs.Files.{file_state};
    ghost use Rattle.sqlite_durable_file.specs.Found.{file_leaves, file_told};

    ghost records = { λ k. file_told k.inner.database };

    ghost faults = { λ k. k.inner.faults };

    ghost sure = { λ _. false };

    ghost steady = { λ _. false };

    ghost settles = { λ k. k.inner.settles };

    ghost lasts = { λ k. (file_state k.inner.database).is_clean };

    ghost leaves = { λ k. file_leaves k.inner.database };

    fn read(&mut self, alloc: Global, key: &RecordKey) -> Result<Option<Bytes>, KeeperFault> {
        self.inner.read(alloc, key)
    }

    fn next_key(
        &mut self,
        alloc: Global,
        after: Option<&RecordKey>,
    ) -> Result<Option<RecordKey>, KeeperFault> {
        self.inner.next_key(alloc, after)
    }

    fn commit(&mut self, alloc: Global, changes: Vec<Change>) -> Result<(), KeeperFault> {
        self.inner.commit(alloc, changes)
    }

    fn settle(&mut self) -> Result<(), KeeperFault> {
        self.inner.settle()
    }
}

/// Copies what the log beside a file holds into the file, and leaves the log empty. No keeper may have the file open. A file
/// that is not there is made.
///
/// An error is one of an open, or the store's as it copies; the log then keeps what it held.
pub fn empty_log(rt: &HostRuntime, path: &str) -> Result<(), Error>
    ensures named { IfErr result (λ error. IsTrue (is_open_error error) ⊎ ((cause : _) × (error ≡ store_error cause))) }
{
    match Connection::open_with_sums(rt, path) {
        Ok(connection) => connection.close(),
        Err(error) => Err(error),
    }
}

fn settle_each(keepers: &mut Vec<Box<dyn Keeper + Send>>) {
    for keeper in keepers.iter_mut() {
        let _ = keeper.settle();
    }
}

/// Has a keeper over a file settle in a box, as a server holds it in its list.
pub fn settle_boxed(alloc: Global, inner: FileKeeper) {
    let mut keepers: Vec<Box<dyn Keeper + Send>> = Vec::new(alloc);
    let Ok(keeper) = Box::new(alloc, inner) else {
        return;
    };
    if keepers.push(keeper).is_err() {
        return;
    }
    settle_each(&mut keepers);
}
