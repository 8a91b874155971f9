//! The statements that read the table.
ghost use Rattle.std.specs.Prelude.{◌≡◌, ◌≤◌, [], IfOk, OnOk, OnErr, IsTrue, Some, None, false};
ghost use Rattle.std.specs.FinMap.{get};
ghost use Rattle.std.specs.Option.{option_copied};
ghost use Rattle.sqlite.specs.Held.{state};
ghost use Rattle.sqlite.specs.State.{HasCleanDisk, IsUnchanged};
ghost use Rattle.sqlite_trees.specs.View.{doubt};
ghost use Rattle.record_keeper.specs.Records.{IsNextKey};
ghost use Rattle.sqlite_durable.specs.Table.{records_schema};
ghost use Rattle.sqlite_durable.specs.Turned.{records_in, LeavesAsBefore, StaysOpen};
ghost use Rattle.sqlite_durable.specs.lemma.Ahead.{first_key, rows_in, IsPage, IsRun};

use crate::ahead::{goes_on, key_ahead, value_ahead};
use crate::rows::{only_bytes, page_of};
use afp_base::Bytes;
use record_keeper::RecordKey;
use sqlite::{Alter, Connection, Error, Row, params};
use std::alloc::Global;
use std::collections::VecDeque;

const READ: &str = "SELECT value FROM records WHERE key = ?1";

const PAGE: &str = "SELECT key, value FROM records ORDER BY key LIMIT 256";

const PAGE_ABOVE: &str = "SELECT key, value FROM records WHERE key > ?1 ORDER BY key LIMIT 256";

/// The value at the key, asked of the table.
fn value_at<S: Alter>(
    alloc: Global,
    connection: &mut Connection<S>,
    key: &RecordKey,
) -> Result<Option<Bytes>, Error>
    requires schema { (state S.Store connection.old).now.schema ≡ records_schema }
    requires mode { connection.old.in_transaction ≡ false }
    ensures value { IsTrue (state S.Store connection.new).is_open → IfOk result (λ value. value ≡ get (records_in (state S.Store connection.old).now) key.now) }
    ensures same { IsTrue (state S.Store connection.new).is_open → OnOk result (IsUnchanged (state S.Store connection.old) (state S.Store connection.new)) }
    ensures err { IsTrue (state S.Store connection.new).is_open → OnErr result (IsTrue (state S.Store connection.old).is_open × ((state S.Store connection.new).now ≡ (state S.Store connection.old).now)) }
    ensures mode { connection.new.in_transaction ≡ false }
    ensures open { HasCleanDisk (state S.Store connection.new) → OnOk result (IsTrue (state S.Store connection.new).is_open) }
    ensures clean { doubt (state S.Store connection.old).is_clean ≤ doubt (state S.Store connection.new).is_clean }
    ensures closes { StaysOpen (state S.Store connection.old) (state S.Store connection.new) }
    ensures crash { LeavesAsBefore (state S.Store connection.old) (state S.Store connection.new) }
{
    let _alone = connection.is_autocommit();
    let _live = connection.schema();
    let rows = connection.query_all(READ, params![key.as_slice()])?;
    only_bytes(alloc, rows.as_slice())
}

/// The first records.
fn first_page<S: Alter>(connection: &mut Connection<S>) -> Result<Vec<Row>, Error>
    requires schema { (state S.Store connection.old).now.schema ≡ records_schema }
    requires mode { connection.old.in_transaction ≡ false }
    ensures page { IsTrue (state S.Store connection.new).is_open → IfOk result (λ rows. IsPage (records_in (state S.Store connection.old).now) None rows.items) }
    ensures same { IsTrue (state S.Store connection.new).is_open → OnOk result (IsUnchanged (state S.Store connection.old) (state S.Store connection.new)) }
    ensures err { IsTrue (state S.Store connection.new).is_open → OnErr result (IsTrue (state S.Store connection.old).is_open × ((state S.Store connection.new).now ≡ (state S.Store connection.old).now)) }
    ensures mode { connection.new.in_transaction ≡ false }
    ensures open { HasCleanDisk (state S.Store connection.new) → OnOk result (IsTrue (state S.Store connection.new).is_open) }
    ensures clean { doubt (state S.Store connection.old).is_clean ≤ doubt (state S.Store connection.new).is_clean }
    ensures closes { StaysOpen (state S.Store connection.old) (state S.Store connection.new) }
    ensures crash { LeavesAsBefore (state S.Store connection.old) (state S.Store connection.new) }
{
    let _alone = connection.is_autocommit();
    let _live = connection.schema();
    let rows = connection.query_all(PAGE, &[])?;
    page_of(rows)
}

/// The records behind a key.
fn page_above<S: Alter>(connection: &mut Connection<S>, key: &RecordKey) -> Result<Vec<Row>, Error>
    requires schema { (state S.Store connection.old).now.schema ≡ records_schema }
    requires mode { connection.old.in_transaction ≡ false }
    ensures page { IsTrue (state S.Store connection.new).is_open → IfOk result (λ rows. IsPage (records_in (state S.Store connection.old).now) (Some key.now) rows.items) }
    ensures same { IsTrue (state S.Store connection.new).is_open → OnOk result (IsUnchanged (state S.Store connection.old) (state S.Store connection.new)) }
    ensures err { IsTrue (state S.Store connection.new).is_open → OnErr result (IsTrue (state S.Store connection.old).is_open × ((state S.Store connection.new).now ≡ (state S.Store connection.old).now)) }
    ensures mode { connection.new.in_transaction ≡ false }
    ensures open { HasCleanDisk (state S.Store connection.new) → OnOk result (IsTrue (state S.Store connection.new).is_open) }
    ensures clean { doubt (state S.Store connection.old).is_clean ≤ doubt (state S.Store connection.new).is_clean }
    ensures closes { StaysOpen (state S.Store connection.old) (state S.Store connection.new) }
    ensures crash { LeavesAsBefore (state S.Store connection.old) (state S.Store connection.new) }
{
    let _alone = connection.is_autocommit();
    let _live = connection.schema();
    let rows = connection.query_all(PAGE_ABOVE, params![key.as_slice()])?;
    page_of(rows)
}

/// The records behind a key, or the first ones.
fn page_after<S: Alter>(
    connection: &mut Connection<S>,
    after: Option<&RecordKey>,
) -> Result<Vec<Row>, Error>
    requires schema { (state S.Store connection.old).now.schema ≡ records_schema }
    requires mode { connection.old.in_transaction ≡ false }
    ensures page { IsTrue (state S.Store connection.new).is_open → IfOk result (λ rows. IsPage (records_in (state S.Store connection.old).now) (option_copied after.entry) rows.items) }
    ensures kept { IsTrue (state S.Store connection.new).is_open → IsTrue (state S.Store connection.old).is_open × ((state S.Store connection.new).now ≡ (state S.Store connection.old).now) }
    ensures mode { connection.new.in_transaction ≡ false }
    ensures open { HasCleanDisk (state S.Store connection.new) → OnOk result (IsTrue (state S.Store connection.new).is_open) }
    ensures clean { doubt (state S.Store connection.old).is_clean ≤ doubt (state S.Store connection.new).is_clean }
    ensures closes { StaysOpen (state S.Store connection.old) (state S.Store connection.new) }
    ensures crash { LeavesAsBefore (state S.Store connection.old) (state S.Store connection.new) }
{
    match after {
        None => first_page(connection),
        Some(key) => page_above(connection, key),
    }
}

/// Has the record behind a key, or the first one, stand first among those that were read ahead.
fn turn_to<S: Alter>(
    connection: &mut Connection<S>,
    ahead: &mut Option<VecDeque<Row>>,
    after: Option<&RecordKey>,
) -> Result<(), Error>
    requires schema { (state S.Store connection.old).now.schema ≡ records_schema }
    requires mode { connection.old.in_transaction ≡ false }
    requires run { IsTrue (state S.Store connection.old).is_open → IsRun (records_in (state S.Store connection.old).now) (rows_in ahead.old) }
    requires live { HasCleanDisk (state S.Store connection.old) → (rows_in ahead.old ≡ [] → ⊥) → IsTrue (state S.Store connection.old).is_open }
    ensures next { IsTrue (state S.Store connection.new).is_open → OnOk result (IsNextKey (records_in (state S.Store connection.old).now) (option_copied after.entry) (first_key (rows_in ahead.new))) }
    ensures run { IsTrue (state S.Store connection.new).is_open → IsRun (records_in (state S.Store connection.old).now) (rows_in ahead.new) }
    ensures kept { IsTrue (state S.Store connection.new).is_open → IsTrue (state S.Store connection.old).is_open × ((state S.Store connection.new).now ≡ (state S.Store connection.old).now) }
    ensures mode { connection.new.in_transaction ≡ false }
    ensures open { HasCleanDisk (state S.Store connection.new) → OnOk result (IsTrue (state S.Store connection.new).is_open) }
    ensures clean { doubt (state S.Store connection.old).is_clean ≤ doubt (state S.Store connection.new).is_clean }
    ensures closes { StaysOpen (state S.Store connection.old) (state S.Store connection.new) }
    ensures crash { LeavesAsBefore (state S.Store connection.old) (state S.Store connection.new) }
{
    if goes_on(ahead, after) {
        return Ok(());
    }
    let rows = page_after(connection, after)?;
    *ahead = Some(VecDeque::from(rows));
    Ok(())
}

/// The least key above one, or the least of all.
pub(crate) fn key_after<S: Alter>(
    alloc: Global,
    connection: &mut Connection<S>,
    ahead: &mut Option<VecDeque<Row>>,
    after: Option<&RecordKey>,
) -> Result<Option<RecordKey>, Error>
    requires schema { (state S.Store connection.old).now.schema ≡ records_schema }
    requires mode { connection.old.in_transaction ≡ false }
    requires run { IsTrue (state S.Store connection.old).is_open → IsRun (records_in (state S.Store connection.old).now) (rows_in ahead.old) }
    requires live { HasCleanDisk (state S.Store connection.old) → (rows_in ahead.old ≡ [] → ⊥) → IsTrue (state S.Store connection.old).is_open }
    ensures key { IsTrue (state S.Store connection.new).is_open → IfOk result (IsNextKey (records_in (state S.Store connection.old).now) (option_copied after.entry)) }
    ensures run { IsTrue (state S.Store connection.new).is_open → IsRun (records_in (state S.Store connection.old).now) (rows_in ahead.new) }
    ensures kept { IsTrue (state S.Store connection.new).is_open → IsTrue (state S.Store connection.old).is_open × ((state S.Store connection.new).now ≡ (state S.Store connection.old).now) }
    ensures mode { connection.new.in_transaction ≡ false }
    ensures open { HasCleanDisk (state S.Store connection.new) → OnOk result (IsTrue (state S.Store connection.new).is_open) }
    ensures clean { doubt (state S.Store connection.old).is_clean ≤ doubt (state S.Store connection.new).is_clean }
    ensures closes { StaysOpen (state S.Store connection.old) (state S.Store connection.new) }
    ensures crash { LeavesAsBefore (state S.Store connection.old) (state S.Store connection.new) }
{
    turn_to(connection, ahead, after)?;
    key_ahead(alloc, ahead)
}

/// The value at the key.
pub(crate) fn value_of<S: Alter>(
    alloc: Global,
    connection: &mut Connection<S>,
    ahead: &Option<VecDeque<Row>>,
    key: &RecordKey,
) -> Result<Option<Bytes>, Error>
    requires schema { (state S.Store connection.old).now.schema ≡ records_schema }
    requires mode { connection.old.in_transaction ≡ false }
    requires run { IsTrue (state S.Store connection.old).is_open → IsRun (records_in (state S.Store connection.old).now) (rows_in ahead.now) }
    requires live { HasCleanDisk (state S.Store connection.old) → (rows_in ahead.now ≡ [] → ⊥) → IsTrue (state S.Store connection.old).is_open }
    ensures value { IsTrue (state S.Store connection.new).is_open → IfOk result (λ value. value ≡ get (records_in (state S.Store connection.old).now) key.now) }
    ensures kept { IsTrue (state S.Store connection.new).is_open → IsTrue (state S.Store connection.old).is_open × ((state S.Store connection.new).now ≡ (state S.Store connection.old).now) }
    ensures mode { connection.new.in_transaction ≡ false }
    ensures open { HasCleanDisk (state S.Store connection.new) → OnOk result (IsTrue (state S.Store connection.new).is_open) }
    ensures clean { doubt (state S.Store connection.old).is_clean ≤ doubt (state S.Store connection.new).is_clean }
    ensures closes { StaysOpen (state S.Store connection.old) (state S.Store connection.new) }
    ensures crash { LeavesAsBefore (state S.Store connection.old) (state S.Store connection.new) }
{
    match value_ahead(alloc, ahead, key)? {
        Some(value) => Ok(Some(value)),
        None => value_at(alloc, connection, key),
    }
}
