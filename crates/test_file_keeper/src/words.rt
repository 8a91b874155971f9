//! The words of results.
use record_keeper::{KeeperFault, ReadAllFault};
use sqlite::{Error, ErrorCode};
use sqlite_durable::StartFault;
use sqlite_durable_file::OpenFault;

/// The word of a fault.
pub fn fault_word(fault: KeeperFault) -> &'static str {
    match fault {
        KeeperFault::Failed => "failed",
        KeeperFault::Memory => "memory",
    }
}

/// The word of records that are not read.
pub fn read_word(fault: &ReadAllFault) -> &'static str {
    match fault {
        ReadAllFault::TooMany { key: _ } => "too many",
        ReadAllFault::Inconsistent { key: _ } => "inconsistent",
        ReadAllFault::Failed => "failed",
        ReadAllFault::Memory => "memory",
    }
}

fn file_word(error: &Error) -> &'static str {
    match error {
        Error::SqliteFailure(ErrorCode::DatabaseBusy) => "busy",
        Error::SqliteFailure(ErrorCode::DatabaseCorrupt) => "corrupt",
        Error::SqliteFailure(ErrorCode::NotADatabase) => "no database",
        Error::SqliteFailure(ErrorCode::CannotOpen) => "cannot open",
        Error::SqliteFailure(ErrorCode::SystemIoFailure) => "input or output",
        Error::SqliteFailure(ErrorCode::DiskFull) => "full",
        Error::SqliteFailure(ErrorCode::OutOfMemory) => "memory",
        _ => "other",
    }
}

/// The word of a file that is not taken.
pub fn open_word(fault: &OpenFault) -> &'static str {
    match fault {
        OpenFault::File(error) => file_word(error),
        OpenFault::Start(StartFault::InTransaction) => "in a transaction",
        OpenFault::Start(StartFault::OtherTables) => "other tables",
        OpenFault::Start(StartFault::Failed) => "failed",
        OpenFault::Start(StartFault::Memory) => "memory",
    }
}
