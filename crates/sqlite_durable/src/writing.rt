//! The statements that change the table.
ghost use Rattle.std.specs.Prelude.{◌≡◌, ◌≤◌, ℕ, List, IfOk, OnOk, OnErr, IsTrue, Some, None, false};
ghost use Rattle.sqlite_trees.specs.View.{doubt};
ghost use Rattle.std.specs.FinMap.{get, insert, remove, empty};
ghost use Rattle.sqlite.specs.Held.{state};
ghost use Rattle.sqlite.specs.State.{HasCleanDisk, Survives, IsUnchanged, KeepsCommit};
ghost use Rattle.record_keeper.specs.Records.{changed, changed_by};
ghost use Rattle.sqlite_durable.specs.Table.{no_schema, records_schema};
ghost use Rattle.sqlite_durable.specs.Turned.{HasTable, Holds, Turns, records_in, LeavesAsBefore, LeavesOrTold, StaysOpen};
ghost use Rattle.sqlite_durable.specs.Kept.{IsPlaceOf};

use crate::rows::only_number;
use afp_base::Bytes;
use record_keeper::{Change, RecordKey};
use sqlite::{Alter, Connection, Error, Transaction, params};

const MAKE_TABLE: &str =
    "CREATE TABLE IF NOT EXISTS records (key BLOB NOT NULL PRIMARY KEY, value BLOB NOT NULL) STRICT";

const FIND: &str = "SELECT rowid FROM records WHERE key = ?1";

const TAKE: &str = "DELETE FROM records WHERE rowid = ?1";

const SET: &str = "UPDATE records SET value = ?2 WHERE rowid = ?1";

const ADD: &str = "INSERT INTO records (key, value) VALUES (?1, ?2)";

/// The number of the row that has the key.
fn find<S: Alter>(
    transaction: &mut Transaction<'_, S>,
    key: &RecordKey,
) -> Result<Option<i64>, Error>
    ensures same_reference { transaction.new.conn.ghost_name ≡ transaction.old.conn.ghost_name }
    ensures found { HasCleanDisk (state S.Store transaction.new.conn.now) → HasTable (state S.Store transaction.old.conn.now).now
        → IfOk result (IsPlaceOf key.now ((state S.Store transaction.old.conn.now).now.trees 0)) }
    ensures same { HasCleanDisk (state S.Store transaction.new.conn.now) → HasTable (state S.Store transaction.old.conn.now).now
        → OnOk result (IsUnchanged (state S.Store transaction.old.conn.now) (state S.Store transaction.new.conn.now)) }
    ensures open { HasCleanDisk (state S.Store transaction.new.conn.now) → OnOk result (IsTrue (state S.Store transaction.old.conn.now).is_open) }
    ensures inside { HasCleanDisk (state S.Store transaction.new.conn.now) → IsTrue (state S.Store transaction.old.conn.now).in_transaction → OnOk result (IsTrue (state S.Store transaction.new.conn.now).in_transaction) }
    ensures kept { HasCleanDisk (state S.Store transaction.new.conn.now) → IsTrue (state S.Store transaction.old.conn.now).in_transaction
        → KeepsCommit (state S.Store transaction.old.conn.now) (state S.Store transaction.new.conn.now) }
    ensures crash { Survives (state S.Store transaction.old.conn.now) (state S.Store transaction.new.conn.now) (λ _. ⊥) }
{
    let rows = transaction.query_all(FIND, params![key.as_slice()])?;
    only_number(rows.as_slice())
}

/// Takes the one row of a number out. Another count of rows is refused. So it is the row of whichever key had this number.
fn take<S: Alter>(transaction: &mut Transaction<'_, S>, id: i64) -> Result<(), Error>
    ensures same_reference { transaction.new.conn.ghost_name ≡ transaction.old.conn.ghost_name }
    ensures turns { HasCleanDisk (state S.Store transaction.new.conn.now) → IsTrue (state S.Store transaction.old.conn.now).in_transaction → HasTable (state S.Store transaction.old.conn.now).now
        → (key : List ℕ) → IsPlaceOf key ((state S.Store transaction.old.conn.now).now.trees 0) (Some id) → OnOk result (Turns (λ kept. remove kept key) (state S.Store transaction.old.conn.now).now (state S.Store transaction.new.conn.now).now) }
    ensures inside { HasCleanDisk (state S.Store transaction.new.conn.now) → IsTrue (state S.Store transaction.old.conn.now).in_transaction → OnOk result (IsTrue (state S.Store transaction.new.conn.now).in_transaction) }
    ensures kept { HasCleanDisk (state S.Store transaction.new.conn.now) → IsTrue (state S.Store transaction.old.conn.now).in_transaction
        → KeepsCommit (state S.Store transaction.old.conn.now) (state S.Store transaction.new.conn.now) }
    ensures crash { Survives (state S.Store transaction.old.conn.now) (state S.Store transaction.new.conn.now) (λ _. ⊥) }
{
    let count = transaction.execute(TAKE, params![id])?;
    if count == 1 {
        Ok(())
    } else {
        Err(Error::InvalidQuery)
    }
}

/// Gives the one row of a number another value. Another count of rows is refused. So it is the value of whichever key had this number.
fn set<S: Alter>(transaction: &mut Transaction<'_, S>, id: i64, value: &Bytes) -> Result<(), Error>
    ensures same_reference { transaction.new.conn.ghost_name ≡ transaction.old.conn.ghost_name }
    ensures turns { HasCleanDisk (state S.Store transaction.new.conn.now) → IsTrue (state S.Store transaction.old.conn.now).in_transaction → HasTable (state S.Store transaction.old.conn.now).now
        → (key : List ℕ) → IsPlaceOf key ((state S.Store transaction.old.conn.now).now.trees 0) (Some id)
        → OnOk result (Turns (λ kept. insert kept key value.now) (state S.Store transaction.old.conn.now).now (state S.Store transaction.new.conn.now).now) }
    ensures inside { HasCleanDisk (state S.Store transaction.new.conn.now) → IsTrue (state S.Store transaction.old.conn.now).in_transaction → OnOk result (IsTrue (state S.Store transaction.new.conn.now).in_transaction) }
    ensures kept { HasCleanDisk (state S.Store transaction.new.conn.now) → IsTrue (state S.Store transaction.old.conn.now).in_transaction
        → KeepsCommit (state S.Store transaction.old.conn.now) (state S.Store transaction.new.conn.now) }
    ensures crash { Survives (state S.Store transaction.old.conn.now) (state S.Store transaction.new.conn.now) (λ _. ⊥) }
{
    let count = transaction.execute(SET, params![id, value.as_slice()])?;
    if count == 1 {
        Ok(())
    } else {
        Err(Error::InvalidQuery)
    }
}

/// Puts a row in, where none has the key.
fn add<S: Alter>(
    transaction: &mut Transaction<'_, S>,
    key: &RecordKey,
    value: &Bytes,
) -> Result<(), Error>
    ensures same_reference { transaction.new.conn.ghost_name ≡ transaction.old.conn.ghost_name }
    ensures turns { HasCleanDisk (state S.Store transaction.new.conn.now) → IsTrue (state S.Store transaction.old.conn.now).in_transaction → HasTable (state S.Store transaction.old.conn.now).now
        → get (records_in (state S.Store transaction.old.conn.now).now) key.now ≡ None → OnOk result (Turns (λ kept. insert kept key.now value.now) (state S.Store transaction.old.conn.now).now (state S.Store transaction.new.conn.now).now) }
    ensures inside { HasCleanDisk (state S.Store transaction.new.conn.now) → IsTrue (state S.Store transaction.old.conn.now).in_transaction → OnOk result (IsTrue (state S.Store transaction.new.conn.now).in_transaction) }
    ensures kept { HasCleanDisk (state S.Store transaction.new.conn.now) → IsTrue (state S.Store transaction.old.conn.now).in_transaction
        → KeepsCommit (state S.Store transaction.old.conn.now) (state S.Store transaction.new.conn.now) }
    ensures crash { Survives (state S.Store transaction.old.conn.now) (state S.Store transaction.new.conn.now) (λ _. ⊥) }
{
    transaction.execute(ADD, params![key.as_slice(), value.as_slice()])?;
    Ok(())
}

/// Takes the row of a key out, where there is one.
fn clear<S: Alter>(transaction: &mut Transaction<'_, S>, key: &RecordKey) -> Result<(), Error>
    ensures same_reference { transaction.new.conn.ghost_name ≡ transaction.old.conn.ghost_name }
    ensures turns { HasCleanDisk (state S.Store transaction.new.conn.now) → IsTrue (state S.Store transaction.old.conn.now).in_transaction → HasTable (state S.Store transaction.old.conn.now).now
        → OnOk result (Turns (λ kept. remove kept key.now) (state S.Store transaction.old.conn.now).now (state S.Store transaction.new.conn.now).now) }
    ensures inside { HasCleanDisk (state S.Store transaction.new.conn.now) → IsTrue (state S.Store transaction.old.conn.now).in_transaction → OnOk result (IsTrue (state S.Store transaction.new.conn.now).in_transaction) }
    ensures kept { HasCleanDisk (state S.Store transaction.new.conn.now) → IsTrue (state S.Store transaction.old.conn.now).in_transaction
        → KeepsCommit (state S.Store transaction.old.conn.now) (state S.Store transaction.new.conn.now) }
    ensures crash { Survives (state S.Store transaction.old.conn.now) (state S.Store transaction.new.conn.now) (λ _. ⊥) }
{
    match find(transaction, key)? {
        Some(id) => take(transaction, id),
        None => Ok(()),
    }
}

/// Puts a value at a key, over what was there.
fn put<S: Alter>(
    transaction: &mut Transaction<'_, S>,
    key: &RecordKey,
    value: &Bytes,
) -> Result<(), Error>
    ensures same_reference { transaction.new.conn.ghost_name ≡ transaction.old.conn.ghost_name }
    ensures turns { HasCleanDisk (state S.Store transaction.new.conn.now) → IsTrue (state S.Store transaction.old.conn.now).in_transaction → HasTable (state S.Store transaction.old.conn.now).now
        → OnOk result (Turns (λ kept. insert kept key.now value.now) (state S.Store transaction.old.conn.now).now (state S.Store transaction.new.conn.now).now) }
    ensures inside { HasCleanDisk (state S.Store transaction.new.conn.now) → IsTrue (state S.Store transaction.old.conn.now).in_transaction → OnOk result (IsTrue (state S.Store transaction.new.conn.now).in_transaction) }
    ensures kept { HasCleanDisk (state S.Store transaction.new.conn.now) → IsTrue (state S.Store transaction.old.conn.now).in_transaction
        → KeepsCommit (state S.Store transaction.old.conn.now) (state S.Store transaction.new.conn.now) }
    ensures crash { Survives (state S.Store transaction.old.conn.now) (state S.Store transaction.new.conn.now) (λ _. ⊥) }
{
    match find(transaction, key)? {
        Some(id) => set(transaction, id, value),
        None => add(transaction, key, value),
    }
}

fn make_one<S: Alter>(transaction: &mut Transaction<'_, S>, change: &Change) -> Result<(), Error>
    ensures same_reference { transaction.new.conn.ghost_name ≡ transaction.old.conn.ghost_name }
    ensures turns { HasCleanDisk (state S.Store transaction.new.conn.now) → IsTrue (state S.Store transaction.old.conn.now).in_transaction → HasTable (state S.Store transaction.old.conn.now).now
        → OnOk result (Turns (changed_by change.now) (state S.Store transaction.old.conn.now).now (state S.Store transaction.new.conn.now).now) }
    ensures inside { HasCleanDisk (state S.Store transaction.new.conn.now) → IsTrue (state S.Store transaction.old.conn.now).in_transaction → OnOk result (IsTrue (state S.Store transaction.new.conn.now).in_transaction) }
    ensures kept { HasCleanDisk (state S.Store transaction.new.conn.now) → IsTrue (state S.Store transaction.old.conn.now).in_transaction
        → KeepsCommit (state S.Store transaction.old.conn.now) (state S.Store transaction.new.conn.now) }
    ensures crash { Survives (state S.Store transaction.old.conn.now) (state S.Store transaction.new.conn.now) (λ _. ⊥) }
{
    match change {
        Change::Put { key, value } => put(transaction, key, value),
        Change::Remove { key } => clear(transaction, key),
    }
}

fn make_each<S: Alter>(
    transaction: &mut Transaction<'_, S>,
    changes: &[Change],
) -> Result<(), Error>
    ensures same_reference { transaction.new.conn.ghost_name ≡ transaction.old.conn.ghost_name }
    ensures turns { HasCleanDisk (state S.Store transaction.new.conn.now) → IsTrue (state S.Store transaction.old.conn.now).in_transaction → HasTable (state S.Store transaction.old.conn.now).now
        → OnOk result (Turns (changed changes.now) (state S.Store transaction.old.conn.now).now (state S.Store transaction.new.conn.now).now) }
    ensures inside { HasCleanDisk (state S.Store transaction.new.conn.now) → IsTrue (state S.Store transaction.old.conn.now).in_transaction → OnOk result (IsTrue (state S.Store transaction.new.conn.now).in_transaction) }
    ensures kept { HasCleanDisk (state S.Store transaction.new.conn.now) → IsTrue (state S.Store transaction.old.conn.now).in_transaction
        → KeepsCommit (state S.Store transaction.old.conn.now) (state S.Store transaction.new.conn.now) }
    ensures crash { Survives (state S.Store transaction.old.conn.now) (state S.Store transaction.new.conn.now) (λ _. ⊥) }
{
    for change in changes {
        make_one(transaction, change)?;
    }
    Ok(())
}

/// Looks for a key, whichever, and makes the changes. So they are made only where the database is open.
fn change_all<S: Alter>(
    transaction: &mut Transaction<'_, S>,
    any: &RecordKey,
    changes: &[Change],
) -> Result<(), Error>
    ensures same_reference { transaction.new.conn.ghost_name ≡ transaction.old.conn.ghost_name }
    ensures turns { HasCleanDisk (state S.Store transaction.new.conn.now) → IsTrue (state S.Store transaction.old.conn.now).in_transaction → HasTable (state S.Store transaction.old.conn.now).now
        → OnOk result (Turns (changed changes.now) (state S.Store transaction.old.conn.now).now (state S.Store transaction.new.conn.now).now) }
    ensures open { HasCleanDisk (state S.Store transaction.new.conn.now) → OnOk result (IsTrue (state S.Store transaction.old.conn.now).is_open) }
    ensures inside { HasCleanDisk (state S.Store transaction.new.conn.now) → IsTrue (state S.Store transaction.old.conn.now).in_transaction → OnOk result (IsTrue (state S.Store transaction.new.conn.now).in_transaction) }
    ensures kept { HasCleanDisk (state S.Store transaction.new.conn.now) → IsTrue (state S.Store transaction.old.conn.now).in_transaction
        → KeepsCommit (state S.Store transaction.old.conn.now) (state S.Store transaction.new.conn.now) }
    ensures crash { Survives (state S.Store transaction.old.conn.now) (state S.Store transaction.new.conn.now) (λ _. ⊥) }
{
    find(transaction, any)?;
    make_each(transaction, changes)
}

/// Makes all changes in one transaction, or none. `tried` tells whether the commit was begun: before that nothing reaches the disk.
pub(crate) fn make_all<S: Alter>(
    connection: &mut Connection<S>,
    any: &RecordKey,
    changes: &[Change],
    tried: &mut bool,
) -> Result<(), Error>
    requires schema { (state S.Store connection.old).now.schema ≡ records_schema }
    requires mode { connection.old.in_transaction ≡ false }
    ensures ok { IsTrue (state S.Store connection.new).is_open → OnOk result (IsTrue (state S.Store connection.old).is_open × Turns (changed changes.now) (state S.Store connection.old).now (state S.Store connection.new).now) }
    ensures err { IsTrue (state S.Store connection.new).is_open → OnErr result (IsTrue (state S.Store connection.old).is_open × ((state S.Store connection.new).now ≡ (state S.Store connection.old).now)) }
    ensures mode { connection.new.in_transaction ≡ false }
    ensures open { HasCleanDisk (state S.Store connection.new) → OnOk result (IsTrue (state S.Store connection.new).is_open) }
    ensures clean { doubt (state S.Store connection.old).is_clean ≤ doubt (state S.Store connection.new).is_clean }
    ensures closes { StaysOpen (state S.Store connection.old) (state S.Store connection.new) }
    ensures crash { LeavesOrTold (changed changes.now) (state S.Store connection.old) (state S.Store connection.new) }
    ensures refused { tried.new ≡ false → LeavesAsBefore (state S.Store connection.old) (state S.Store connection.new) }
{
    let _alone = connection.is_autocommit();
    let _live = connection.schema();
    let mut transaction = connection.transaction();
    change_all(&mut transaction, any, changes)?;
    *tried = true;
    transaction.commit()
}

fn make_in<S: Alter>(transaction: &mut Transaction<'_, S>) -> Result<(), Error>
    ensures same_reference { transaction.new.conn.ghost_name ≡ transaction.old.conn.ghost_name }
    ensures made { HasCleanDisk (state S.Store transaction.new.conn.now) → IsTrue (state S.Store transaction.old.conn.now).in_transaction → (state S.Store transaction.old.conn.now).now.schema ≡ no_schema
        → OnOk result (Holds (state S.Store transaction.new.conn.now).now empty) }
    ensures inside { HasCleanDisk (state S.Store transaction.new.conn.now) → IsTrue (state S.Store transaction.old.conn.now).in_transaction → OnOk result (IsTrue (state S.Store transaction.new.conn.now).in_transaction) }
    ensures kept { HasCleanDisk (state S.Store transaction.new.conn.now) → IsTrue (state S.Store transaction.old.conn.now).in_transaction
        → KeepsCommit (state S.Store transaction.old.conn.now) (state S.Store transaction.new.conn.now) }
    ensures crash { Survives (state S.Store transaction.old.conn.now) (state S.Store transaction.new.conn.now) (λ _. ⊥) }
{
    transaction.execute(MAKE_TABLE, &[])?;
    Ok(())
}

/// Makes the table in a database that has none, in a transaction of its own.
pub(crate) fn make_table<S: Alter>(connection: &mut Connection<S>) -> Result<(), Error>
    requires schema { IsTrue (state S.Store connection.old).is_open → (state S.Store connection.old).now.schema ≡ no_schema }
    requires mode { connection.old.in_transaction ≡ false }
    ensures ok { IsTrue (state S.Store connection.new).is_open → OnOk result (Holds (state S.Store connection.new).now empty) }
    ensures mode { connection.new.in_transaction ≡ false }
    ensures open { HasCleanDisk (state S.Store connection.new) → OnOk result (IsTrue (state S.Store connection.new).is_open) }
    ensures clean { doubt (state S.Store connection.old).is_clean ≤ doubt (state S.Store connection.new).is_clean }
{
    let mut transaction = connection.transaction();
    make_in(&mut transaction)?;
    transaction.commit()
}
