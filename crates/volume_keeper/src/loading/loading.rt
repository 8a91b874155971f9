//! A volume loaded from a keeper of records.
ghost use Rattle.std.specs.Prelude.{◌≡◌, [], None, IfOk, IfErr};
ghost use Rattle.afp_names.specs.Name.{name_fault};
ghost use Rattle.record_keeper.specs.Reading.{RisesByKey};
ghost use Rattle.record_keeper.specs.Records.{TellsOn};
ghost use Rattle.volume_keeper.specs.loading.Loading.{Becomes, HasLoadCause, IsFaultIn, IsLoad};
ghost use Rattle.volume_keeper.specs.loading.lemma.Loading.{IsMadeOf, IsNotFailed, IsReadFault};

use crate::loading::fresh::fresh_made;
use crate::loading::made::{Made, commit_made};
use crate::loading::raise::made_of;
use afp_base::Moment;
use record_keeper::{Keeper, ReadAllFault, Record, RecordKey, read_all};
use std::alloc::Global;
use thiserror::Error;
use volume_edits::WholeVolume;
use volume_keeper_records::laws::{older_records_migrate, records_are_images};
use volume_keeper_records::{Loaded, Reason, load_records};

/// Why a volume was not loaded.
#[derive(Debug, Drop, Error)]
pub enum LoadFault {
    /// The keeper has records, and this is the first key that breaks a rule of a volume of that name, with the first rule.
    #[error("the record with key {key} is refused: {reason}")]
    BadRecord { key: RecordKey, reason: Reason },
    /// The keeper failed.
    #[error("the keeper failed")]
    Failed,
    /// There is no memory.
    #[error("out of memory")]
    Memory,
}

/// The volume that records say, by rising key.
fn said_made(
    alloc: Global,
    name: &[u8],
    now: Moment,
    records: Vec<Record>,
) -> Result<Made, LoadFault>
    requires order { RisesByKey records.items }
    requires some { records.items ≡ [] → ⊥ }
    ensures ok { IfOk result (λ made. IsMadeOf name.now now records.items made.changes.items made.whole.state) }
    ensures err { IfErr result (IsFaultIn name.now records.items) }
    ensures failed { IfErr result IsNotFailed }
{
    let mut records = records;
    match load_records(alloc, name, &mut records) {
        Ok(Loaded::Good(rows)) => match made_of(alloc, rows) {
            Ok(made) => Ok(made),
            Err(_) => Err(LoadFault::Memory),
        },
        Ok(Loaded::Bad(bad)) => Err(LoadFault::BadRecord {
            key: RecordKey::new(bad.key),
            reason: bad.reason,
        }),
        Err(_) => Err(LoadFault::Memory),
    }
}

/// The volume that records say, by rising key, or where there is none a fresh one, made at that moment.
fn made_in(alloc: Global, name: &str, now: Moment, records: Vec<Record>) -> Result<Made, LoadFault>
    requires named { name_fault name.now ≡ None }
    requires order { RisesByKey records.items }
    ensures ok { IfOk result (λ made. IsMadeOf name.now now records.items made.changes.items made.whole.state) }
    ensures err { IfErr result (IsFaultIn name.now records.items) }
    ensures failed { IfErr result IsNotFailed }
{
    if records.is_empty() {
        match fresh_made(alloc, name, now) {
            Ok(made) => Ok(made),
            Err(_) => Err(LoadFault::Memory),
        }
    } else {
        said_made(alloc, name.as_bytes(), now, records)
    }
}

/// Why a keeper that was not read whole is no volume.
fn fault_of(fault: ReadAllFault) -> LoadFault
    ensures { IsReadFault fault result }
{
    match fault {
        ReadAllFault::TooMany { key } => LoadFault::BadRecord {
            key,
            reason: Reason::Limit,
        },
        ReadAllFault::Inconsistent { key } => LoadFault::BadRecord {
            key,
            reason: Reason::Shape,
        },
        ReadAllFault::Failed => LoadFault::Failed,
        ReadAllFault::Memory => LoadFault::Memory,
    }
}

/// The volume of that name that a keeper holds, with its desktop database. Where the keeper holds nothing, a fresh one, made at that moment, which the keeper holds
/// from then on. Where its records are of the older version, it holds those of the version that is written from then on. Each of these takes one commit, the last
/// thing that is done: beside an error the keeper holds what it held. Else nothing changes.
pub fn load<K: Keeper>(
    alloc: Global,
    keeper: &mut K,
    name: &str,
    now: Moment,
) -> Result<WholeVolume, LoadFault>
    requires { name_fault name.now ≡ None }
    ensures named { IfOk result (λ whole. whole.state.name ≡ name.now) }
    ensures records { Becomes (IsLoad name.now now result) (K.records keeper.old) (K.records keeper.new) }
    ensures cause { HasLoadCause (K.sure keeper.old) (K.faults keeper.old) (K.faults keeper.new) result }
    ensures told { TellsOn (K.steady keeper.old) (K.faults keeper.old) (K.faults keeper.new) (K.records keeper.old) (K.records keeper.new) }
    ensures sure { K.sure keeper.new ≡ K.sure keeper.old }
    ensures steady { K.steady keeper.new ≡ K.steady keeper.old }
{
    records_are_images();
    older_records_migrate();
    match read_all(alloc, keeper) {
        Ok(records) => match made_in(alloc, name, now, records) {
            Ok(made) => commit_made(alloc, keeper, made),
            Err(fault) => Err(fault),
        },
        Err(fault) => Err(fault_of(fault)),
    }
}
