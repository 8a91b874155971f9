//! The statements of the keeper.
use afp_base::Bytes;
use record_keeper::{Change, RecordKey};
use sqlite::types::ValueRef;
use sqlite::{Alter, Connection, Error, ErrorCode, Row, Transaction, params};
use std::alloc::Global;

const MAKE_TABLE: &str =
    "CREATE TABLE IF NOT EXISTS records (key BLOB NOT NULL PRIMARY KEY, value BLOB NOT NULL) STRICT";

const READ: &str = "SELECT value FROM records WHERE key = ?1";

const LEAST: &str = "SELECT key FROM records ORDER BY key LIMIT 1";

const LEAST_ABOVE: &str = "SELECT key FROM records WHERE key > ?1 ORDER BY key LIMIT 1";

const PUT: &str =
    "INSERT INTO records (key, value) VALUES (?1, ?2) ON CONFLICT (key) DO UPDATE SET value = excluded.value";

const REMOVE: &str = "DELETE FROM records WHERE key = ?1";

const NO_MEMORY: Error = Error::SqliteFailure(ErrorCode::OutOfMemory);

const IN_TRANSACTION: Error = Error::SqliteFailure(ErrorCode::TransactionState);

/// Makes the table where it is not there.
pub(crate) fn make_table<S: Alter>(connection: &mut Connection<S>) -> Result<(), Error> {
    connection.execute(MAKE_TABLE, &[])?;
    Ok(())
}

/// The value at the key.
pub(crate) fn value_at<S: Alter>(
    alloc: Global,
    connection: &mut Connection<S>,
    key: &RecordKey,
) -> Result<Option<Bytes>, Error> {
    make_table(connection)?;
    first_bytes(alloc, connection.query_row(READ, params![key.as_slice()]))
}

/// The least key above one, or the least of all.
pub(crate) fn key_after<S: Alter>(
    alloc: Global,
    connection: &mut Connection<S>,
    after: Option<&RecordKey>,
) -> Result<Option<RecordKey>, Error> {
    make_table(connection)?;
    match first_bytes(alloc, least_row(connection, after))? {
        Some(bytes) => Ok(Some(RecordKey::new(bytes))),
        None => Ok(None),
    }
}

/// The row of the least key above one, or of the least of all.
fn least_row<S: Alter>(
    connection: &mut Connection<S>,
    after: Option<&RecordKey>,
) -> Result<Row, Error> {
    match after {
        None => connection.query_row(LEAST, &[]),
        Some(key) => connection.query_row(LEAST_ABOVE, params![key.as_slice()]),
    }
}

/// The bytes that a row begins with, where there is a row.
fn first_bytes(alloc: Global, row: Result<Row, Error>) -> Result<Option<Bytes>, Error> {
    match row {
        Ok(row) => Ok(Some(bytes_of(alloc, &row)?)),
        Err(Error::QueryReturnedNoRows) => Ok(None),
        Err(error) => Err(error),
    }
}

fn bytes_of(alloc: Global, row: &Row) -> Result<Bytes, Error> {
    match row.get_ref(0)? {
        ValueRef::Blob(bytes) => match Bytes::of(alloc, bytes) {
            Ok(bytes) => Ok(bytes),
            Err(_) => Err(NO_MEMORY),
        },
        _ => Err(Error::InvalidQuery),
    }
}

/// Makes all changes in one transaction, or none. Where one is open already, it makes none.
pub(crate) fn make_all<S: Alter>(
    connection: &mut Connection<S>,
    changes: &[Change],
) -> Result<(), Error> {
    make_table(connection)?;
    if !connection.is_autocommit() {
        return Err(IN_TRANSACTION);
    }
    let mut transaction = connection.transaction();
    make_each(&mut transaction, changes)?;
    transaction.commit()
}

fn make_each<S: Alter>(
    transaction: &mut Transaction<'_, S>,
    changes: &[Change],
) -> Result<(), Error> {
    for change in changes {
        make_one(transaction, change)?;
    }
    Ok(())
}

fn make_one<S: Alter>(transaction: &mut Transaction<'_, S>, change: &Change) -> Result<(), Error> {
    match change {
        Change::Put { key, value } => {
            transaction.execute(PUT, params![key.as_slice(), value.as_slice()])?
        }
        Change::Remove { key } => transaction.execute(REMOVE, params![key.as_slice()])?,
    };
    Ok(())
}
