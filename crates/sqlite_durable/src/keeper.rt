//! The keeper, how it starts, and its count of faults.
ghost use Rattle.std.specs.Prelude.{◌≡◌, ◌≢◌, ◌⊎◌, ◌+◌, ◌++◌, ◌∷◌, ◌≤◌, [], IfOk, IfErr, IfSome, IsTrue, OnOk, OnErr, IsErrOf, true, false};
ghost use Rattle.std.specs.FinMap.{get};
ghost use Rattle.std.specs.Option.{option_copied};
ghost use Rattle.record_keeper.specs.Causes.{HasCause};
ghost use Rattle.record_keeper.specs.Records.{Makes, same_records, changed, IsNextKey};
ghost use Rattle.sqlite.specs.Held.{state};
ghost use Rattle.sqlite.specs.State.{HasCleanDisk};
ghost use Rattle.sqlite_trees.specs.View.{doubt};
ghost use Rattle.sqlite_durable.specs.Table.{no_schema, records_schema};
ghost use Rattle.sqlite_durable.specs.Durable.{told_of, lasts_of, leaves_of, IsFoundIn, IsOpen, KeepsOpen, LeavesTold};
ghost use Rattle.record_keeper.specs.Stops.{Adds, AddsNone, Changed, IsSettled, TellsIf};

use crate::{reading, schema, writing};
use afp_base::Bytes;
use ghost_log::Log;
use record_keeper::{Change, Keeper, KeeperFault, RecordKey};
use sqlite::{Alter, Connection, Error, Row};
use sqlite_keeper::counted;
use std::alloc::Global;
use std::collections::VecDeque;
use std::marker::Model;
use thiserror::Error;

/// Keeps its records in the table `records` of a database, and tells them: they are the rows of the table, as long as the
/// database is open. A fault of its disk shuts it, and it may do so unseen; from then on the keeper tells none.
///
/// It reads up to 255 records ahead of the one that is asked for, so that all of them by rising keys take one statement for so many. Each
/// commit forgets them, and is one transaction. Each statement that is refused for anything but want of memory is a fault. At 2^64 - 1
/// faults the count stands still, and what is refused then is told as want of memory.
#[derive(Drop)]
pub struct DurableKeeper<S: Alter + Drop> {
    connection: Connection<S>,
    ahead: Option<VecDeque<Row>>,
    faults: u64,
    settles: Log<Result<(), KeeperFault>>,
}

impl<S: Alter + Drop> Model for DurableKeeper<S> {
    ghost use Rattle.sqlite_durable.specs.Durable.{Durable};
    ghost use Rattle.sqlite_durable.specs.lemma.Ahead.{rows_in};
    ghost use Rattle.sqlite_durable.specs.lemma.Stored.{durable_code, IsReady};

    ghost Value = { Durable S };

    ghost coded = { durable_code S.code };

    ghost view = { λ k. record { database = k.connection; faults = k.faults; settles = k.settles.items } };

    ghost invariant = { λ k. IsReady S.Store k.connection (rows_in k.ahead) };
}

/// Why a keeper does not start over a database.
#[derive(Clone, Copy, Debug, PartialEq, Eq, Error)]
pub enum StartFault {
    /// A transaction is open in it.
    #[error("a transaction is open in the database")]
    InTransaction,
    /// It has another table, another index or a view, or the table of the records with other columns.
    #[error("the database has other tables")]
    OtherTables,
    /// The table of the records could not be made.
    #[error("the table of the records could not be made")]
    Failed,
    /// There is no memory.
    #[error("out of memory")]
    Memory,
}

/// Why the table was not made.
fn start_fault(error: Error) -> StartFault
    ensures busy { result ≢ StartFault.InTransaction }
    ensures others { result ≢ StartFault.OtherTables }
{
    match counted(&mut 0, error) {
        KeeperFault::Failed => StartFault::Failed,
        KeeperFault::Memory => StartFault::Memory,
    }
}

impl<S: Alter + Drop> DurableKeeper<S> {
    /// A keeper over a database. Where that has no table at all, the table is made, by a commit of its own. A fault gives the database back.
    pub fn new(
        mut connection: Connection<S>,
    ) -> Result<DurableKeeper<S>, (StartFault, Connection<S>)>
        ensures found { IfOk result (λ keeper. IsOpen S.Store keeper → IsFoundIn (state S.Store connection).now (state S.Store keeper.database).now) }
        ensures faults { IfOk result (λ keeper. keeper.faults ≡ 0) }
        ensures settles { IfOk result (λ keeper. keeper.settles ≡ []) }
        ensures busy { IfErr result (λ e. e.0 ≡ StartFault.InTransaction → connection.in_transaction ≡ true) }
        ensures others { IfErr result (λ e. e.0 ≡ StartFault.OtherTables → (connection.schema ≢ records_schema) × (connection.schema ≢ no_schema)) }
        ensures tables { OnOk result ((connection.schema ≡ records_schema) ⊎ (connection.schema ≡ no_schema)) }
        ensures unmade { IfErr result (λ e. e.0 ≡ StartFault.Failed → connection.schema ≡ no_schema) }
        ensures clean { IfOk result (λ keeper. doubt (state S.Store connection).is_clean ≤ doubt (state S.Store keeper.database).is_clean) }
        ensures tells { IfOk result (λ keeper. HasCleanDisk (state S.Store keeper.database) → IsTrue (state S.Store connection).is_open → IsOpen S.Store keeper) }
        ensures settled { IfOk result (λ keeper. IsSettled (lasts_of S.Store keeper) (told_of S.Store keeper) (leaves_of S.Store keeper)) }
    {
        if !connection.is_autocommit() {
            return Err((StartFault::InTransaction, connection));
        }
        if !schema::is_records(connection.schema()) {
            if !schema::is_blank(connection.schema()) {
                return Err((StartFault::OtherTables, connection));
            }
            if let Err(error) = writing::make_table(&mut connection) {
                return Err((start_fault(error), connection));
            }
        }
        let keeper = DurableKeeper {
            connection,
            ahead: None,
            faults: 0,
            settles: Log::new(),
        };
        keeper.leaves_what_it_tells();
        Ok(keeper)
    }

    /// The database, given back.
    pub fn into_connection(self) -> Connection<S>
        ensures { result ≡ self.database }
    {
        let DurableKeeper {
            connection,
            ahead: _,
            faults: _,
            settles: _,
        } = self;
        connection
    }

    /// While the database is open, a crash between two calls leaves the records that are told, and nothing else.
    pub fn leaves_what_it_tells(&self)
        ensures { LeavesTold S.Store self.now }
    {
        let _alone = self.connection.is_autocommit();
    }

    fn value(&mut self, alloc: Global, key: &RecordKey) -> Result<Option<Bytes>, KeeperFault>
        ensures value { IfOk result (λ value. IfSome (told_of S.Store self.new) (λ kept. value ≡ get kept key.now)) }
        ensures records { Makes same_records (told_of S.Store self.old) (told_of S.Store self.new) }
        ensures cause { HasCause false self.old.faults self.new.faults result }
        ensures one { IsErrOf result KeeperFault.Failed → self.new.faults ≡ self.old.faults + 1 }
        ensures settles { self.new.settles ≡ self.old.settles }
        ensures stops { AddsNone (lasts_of S.Store self.old) (lasts_of S.Store self.new) (leaves_of S.Store self.old) (leaves_of S.Store self.new) }
        ensures open { KeepsOpen S.Store self.old self.new }
        ensures tells { OnOk result (TellsIf (lasts_of S.Store self.new) (told_of S.Store self.new)) }
    {
        if !schema::is_records(self.connection.schema()) {
            return Err(counted(&mut self.faults, Error::InvalidQuery));
        }
        match reading::value_of(alloc, &mut self.connection, &self.ahead, key) {
            Ok(value) => Ok(value),
            Err(error) => {
                self.ahead = None;
                Err(counted(&mut self.faults, error))
            }
        }
    }

    fn key_behind(
        &mut self,
        alloc: Global,
        after: Option<&RecordKey>,
    ) -> Result<Option<RecordKey>, KeeperFault>
        ensures key { IfOk result (λ key. IfSome (told_of S.Store self.new) (λ kept. IsNextKey kept (option_copied after.entry) key)) }
        ensures records { Makes same_records (told_of S.Store self.old) (told_of S.Store self.new) }
        ensures cause { HasCause false self.old.faults self.new.faults result }
        ensures one { IsErrOf result KeeperFault.Failed → self.new.faults ≡ self.old.faults + 1 }
        ensures settles { self.new.settles ≡ self.old.settles }
        ensures stops { AddsNone (lasts_of S.Store self.old) (lasts_of S.Store self.new) (leaves_of S.Store self.old) (leaves_of S.Store self.new) }
        ensures open { KeepsOpen S.Store self.old self.new }
        ensures tells { OnOk result (TellsIf (lasts_of S.Store self.new) (told_of S.Store self.new)) }
    {
        if !schema::is_records(self.connection.schema()) {
            return Err(counted(&mut self.faults, Error::InvalidQuery));
        }
        match reading::key_after(alloc, &mut self.connection, &mut self.ahead, after) {
            Ok(key) => Ok(key),
            Err(error) => {
                self.ahead = None;
                Err(counted(&mut self.faults, error))
            }
        }
    }

    fn make(&mut self, alloc: Global, changes: Vec<Change>) -> Result<(), KeeperFault>
        ensures ok { OnOk result (Makes (changed changes.items) (told_of S.Store self.old) (told_of S.Store self.new)) }
        ensures err { OnErr result (Makes same_records (told_of S.Store self.old) (told_of S.Store self.new)) }
        ensures cause { HasCause false self.old.faults self.new.faults result }
        ensures one { IsErrOf result KeeperFault.Failed → self.new.faults ≡ self.old.faults + 1 }
        ensures settles { self.new.settles ≡ self.old.settles }
        ensures stops { Adds (lasts_of S.Store self.old) (lasts_of S.Store self.new) (leaves_of S.Store self.old) (leaves_of S.Store self.new) (Changed (changed changes.items) (told_of S.Store self.old) result) }
        ensures open { KeepsOpen S.Store self.old self.new }
        ensures tells { OnOk result (TellsIf (lasts_of S.Store self.new) (told_of S.Store self.new)) }
    {
        self.ahead = None; // a commit changes the records
        if self.faults == u64::MAX {
            return Err(KeeperFault::Memory);
        }
        if !schema::is_records(self.connection.schema()) {
            return Err(counted(&mut self.faults, Error::InvalidQuery));
        }
        let any = RecordKey::new(Bytes::new(alloc));
        let mut tried = false;
        match writing::make_all(&mut self.connection, &any, changes.as_slice(), &mut tried) {
            Ok(()) => Ok(()),
            Err(error) => {
                if tried {
                    self.faults += 1;
                    Err(KeeperFault::Failed)
                } else {
                    Err(counted(&mut self.faults, error))
                }
            }
        }
    }
}

impl<S: Alter + Drop> Keeper for DurableKeeper<S> {
    ghost records = { λ k. told_of S.Store k };

    ghost faults = { λ k. k.faults };

    ghost sure = { λ _. false };

    ghost steady = { λ _. false };

    ghost settles = { λ k. k.settles };

    ghost lasts = { λ k. lasts_of S.Store k };

    ghost leaves = { λ k. leaves_of S.Store k };

    fn read(&mut self, alloc: Global, key: &RecordKey) -> Result<Option<Bytes>, KeeperFault>
        ensures value { IfOk result (λ value. IfSome (told_of S.Store self.new) (λ kept. value ≡ get kept key.now)) }
        ensures records { Makes same_records (told_of S.Store self.old) (told_of S.Store self.new) }
        ensures cause { HasCause false self.old.faults self.new.faults result }
        ensures one { IsErrOf result KeeperFault.Failed → self.new.faults ≡ self.old.faults + 1 }
        ensures settles { self.new.settles ≡ self.old.settles }
        ensures stops { AddsNone (lasts_of S.Store self.old) (lasts_of S.Store self.new) (leaves_of S.Store self.old) (leaves_of S.Store self.new) }
        ensures open { KeepsOpen S.Store self.old self.new }
        ensures settled { IsSettled (lasts_of S.Store self.new) (told_of S.Store self.new) (leaves_of S.Store self.new) }
        ensures tells { OnOk result (TellsIf (lasts_of S.Store self.new) (told_of S.Store self.new)) }
    {
        let answer = self.value(alloc, key);
        self.leaves_what_it_tells();
        answer
    }

    fn next_key(
        &mut self,
        alloc: Global,
        after: Option<&RecordKey>,
    ) -> Result<Option<RecordKey>, KeeperFault>
        ensures key { IfOk result (λ key. IfSome (told_of S.Store self.new) (λ kept. IsNextKey kept (option_copied after.entry) key)) }
        ensures records { Makes same_records (told_of S.Store self.old) (told_of S.Store self.new) }
        ensures cause { HasCause false self.old.faults self.new.faults result }
        ensures one { IsErrOf result KeeperFault.Failed → self.new.faults ≡ self.old.faults + 1 }
        ensures settles { self.new.settles ≡ self.old.settles }
        ensures stops { AddsNone (lasts_of S.Store self.old) (lasts_of S.Store self.new) (leaves_of S.Store self.old) (leaves_of S.Store self.new) }
        ensures open { KeepsOpen S.Store self.old self.new }
        ensures settled { IsSettled (lasts_of S.Store self.new) (told_of S.Store self.new) (leaves_of S.Store self.new) }
        ensures tells { OnOk result (TellsIf (lasts_of S.Store self.new) (told_of S.Store self.new)) }
    {
        let answer = self.key_behind(alloc, after);
        self.leaves_what_it_tells();
        answer
    }

    fn commit(&mut self, alloc: Global, changes: Vec<Change>) -> Result<(), KeeperFault>
        ensures ok { OnOk result (Makes (changed changes.items) (told_of S.Store self.old) (told_of S.Store self.new)) }
        ensures err { OnErr result (Makes same_records (told_of S.Store self.old) (told_of S.Store self.new)) }
        ensures cause { HasCause false self.old.faults self.new.faults result }
        ensures one { IsErrOf result KeeperFault.Failed → self.new.faults ≡ self.old.faults + 1 }
        ensures settles { self.new.settles ≡ self.old.settles }
        ensures stops { Adds (lasts_of S.Store self.old) (lasts_of S.Store self.new) (leaves_of S.Store self.old) (leaves_of S.Store self.new) (Changed (changed changes.items) (told_of S.Store self.old) result) }
        ensures open { KeepsOpen S.Store self.old self.new }
        ensures settled { IsSettled (lasts_of S.Store self.new) (told_of S.Store self.new) (leaves_of S.Store self.new) }
        ensures tells { OnOk result (TellsIf (lasts_of S.Store self.new) (told_of S.Store self.new)) }
    {
        let answer = self.make(alloc, changes);
        self.leaves_what_it_tells();
        answer
    }

    /// Each commit is on the disk before it is told, so nothing is left to do.
    fn settle(&mut self) -> Result<(), KeeperFault>
        ensures done { OnErr result ⊥ }
        ensures same { self.new.database ≡ self.old.database }
        ensures records { Makes same_records (told_of S.Store self.old) (told_of S.Store self.new) }
        ensures cause { HasCause false self.old.faults self.new.faults result }
        ensures settles { self.new.settles ≡ self.old.settles ++ result ∷ [] }
        ensures settled { IsSettled (lasts_of S.Store self.new) (told_of S.Store self.new) (leaves_of S.Store self.new) }
    {
        let answer = Ok(());
        self.settles = self.settles.and(&answer);
        self.leaves_what_it_tells();
        answer
    }
}
