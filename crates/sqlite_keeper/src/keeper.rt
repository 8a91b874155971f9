//! The keeper, and its count of faults.
ghost use Rattle.std.specs.Prelude.{◌≡◌, ◌≢◌, ◌⊎◌, ◌+◌, ◌-◌, ◌^◌, []};

use crate::statements;
use afp_base::Bytes;
use ghost_log::Log;
use record_keeper::{Change, Keeper, KeeperFault, RecordKey};
use sqlite::{Alter, Connection, Error, ErrorCode};
use std::alloc::Global;

/// Keeps its records in the table `records` of a database, which each call first makes where it is not there. It tells
/// none of them to proofs, and is not sure: it is for stores that promise nothing.
///
/// Each statement that is refused for anything but want of memory is a fault. At 2^64 - 1 faults the count stands still,
/// and what is refused then is told as want of memory. A database that is handed in within a transaction stays in it, and
/// each commit is a fault.
#[derive(Drop)]
pub struct SqliteKeeper<S: Alter + Drop> {
    connection: Connection<S>,
    faults: u64,
    settles: Log<Result<(), KeeperFault>>,
}

impl<S: Alter + Drop> SqliteKeeper<S> {
    /// A keeper over this database. It takes no memory, and runs no statement yet.
    pub fn new(connection: Connection<S>) -> SqliteKeeper<S>
        ensures connection { result.connection ≡ connection }
        ensures faults { result.faults ≡ 0 }
        ensures settles { result.settles.items ≡ [] }
    {
        SqliteKeeper {
            connection,
            faults: 0,
            settles: Log::new(),
        }
    }
}

/// Counts a refused statement in the keeper's faults, and says what it is to the keeper's caller: want of memory where
/// it was that, or where the count stands at its end, and else a fault.
pub fn counted(faults: &mut u64, error: Error) -> KeeperFault
    ensures failed { result ≡ KeeperFault.Failed → faults.new ≡ faults.old + 1 }
    ensures memory { result ≡ KeeperFault.Memory → faults.new ≡ faults.old }
    ensures cause { result ≡ KeeperFault.Failed → error ≢ Error.SqliteFailure ErrorCode.OutOfMemory }
    ensures wanting { result ≡ KeeperFault.Memory → (error ≡ Error.SqliteFailure ErrorCode.OutOfMemory) ⊎ (faults.old ≡ 2 ^ 64 - 1) }
{
    if error == Error::SqliteFailure(ErrorCode::OutOfMemory) || *faults == u64::MAX {
        return KeeperFault::Memory;
    }
    *faults += 1;
    KeeperFault::Failed
}

impl<S: Alter + Drop> Keeper for SqliteKeeper<S> {
    ghost use Rattle.std.specs.Prelude.{None, false};

    ghost records = { λ _. None };

    ghost faults = { λ k. k.faults };

    ghost sure = { λ _. false };

    ghost steady = { λ _. false };

    ghost settles = { λ k. k.settles.items };

    fn read(&mut self, alloc: Global, key: &RecordKey) -> Result<Option<Bytes>, KeeperFault> {
        match statements::value_at(alloc, &mut self.connection, key) {
            Ok(value) => Ok(value),
            Err(error) => Err(counted(&mut self.faults, error)),
        }
    }

    fn next_key(
        &mut self,
        alloc: Global,
        after: Option<&RecordKey>,
    ) -> Result<Option<RecordKey>, KeeperFault> {
        match statements::key_after(alloc, &mut self.connection, after) {
            Ok(key) => Ok(key),
            Err(error) => Err(counted(&mut self.faults, error)),
        }
    }

    fn commit(&mut self, _alloc: Global, changes: Vec<Change>) -> Result<(), KeeperFault> {
        match statements::make_all(&mut self.connection, changes.as_slice()) {
            Ok(()) => Ok(()),
            Err(error) => Err(counted(&mut self.faults, error)),
        }
    }

    /// Each commit is on the disk before it is told, so nothing is left to do but to find the table there.
    fn settle(&mut self) -> Result<(), KeeperFault> {
        let answer = match statements::make_table(&mut self.connection) {
            Ok(()) => Ok(()),
            Err(error) => Err(counted(&mut self.faults, error)),
        };
        self.settles = self.settles.and(&answer);
        answer
    }
}
