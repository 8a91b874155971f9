//! A keeper that leaves its records and its calls behind when it is dropped.
use afp_base::{Bytes, OutOfMemory};
use record_keeper::{Change, Keeper, KeeperFault, MemoryKeeper, Record, RecordKey, read_all};
use std::alloc::Global;
use std::sync::{Arc, OnceLock};

/// What a keeper was called for.
#[derive(Clone, Copy, PartialEq, Eq)]
pub enum Called {
    LookUp,
    Commit,
    Settle,
}

/// What a keeper held at its end, and what it was called for, the first call first.
#[derive(Drop)]
pub struct Left {
    pub records: Vec<Record>,
    pub calls: Vec<Called>,
}

/// Where a keeper leaves it.
pub type Place = Arc<OnceLock<Left>>;

/// Keeps in memory, notes its calls, and leaves all where it was told to when it is dropped.
pub struct LeavingKeeper {
    kept: MemoryKeeper,
    calls: Vec<Called>,
    alloc: Global,
    place: Place,
}

impl Drop for LeavingKeeper {
    fn drop(self) {
        let LeavingKeeper {
            kept,
            calls,
            alloc,
            place,
        } = self;
        let mut kept = kept;
        if let Ok(records) = read_all(alloc, &mut kept) {
            let _ = place.try_set(Left { records, calls });
        }
    }
}

impl LeavingKeeper {
    /// A keeper that holds nothing, and whose call of this number fails, from 0.
    pub fn new(
        alloc: Global,
        place: &Place,
        failing: Option<u64>,
    ) -> Result<LeavingKeeper, OutOfMemory> {
        let failing = numbers_of(alloc, failing)?;
        Ok(LeavingKeeper {
            kept: MemoryKeeper::new(alloc, failing),
            calls: Vec::new(alloc),
            alloc,
            place: Arc::try_clone(place)?,
        })
    }
}

/// A list of this number, or of none.
pub fn numbers_of(alloc: Global, number: Option<u64>) -> Result<Vec<u64>, OutOfMemory> {
    let mut numbers = Vec::new(alloc);
    if let Some(number) = number {
        numbers.push(number)?;
    }
    Ok(numbers)
}

impl Keeper for LeavingKeeper {
    ghost use Rattle.std.specs.Prelude.{Some, true};
    ghost use Rattle.record_keeper.specs.Planned.{never_fails};

    ghost records = { λ k. Some k.kept.records };

    ghost faults = { λ k. k.kept.planned.faults };

    ghost sure = { λ k. never_fails k.kept.planned };

    ghost steady = { λ _. true };

    ghost settles = { λ k. k.kept.settles };

    fn read(&mut self, alloc: Global, key: &RecordKey) -> Result<Option<Bytes>, KeeperFault> {
        let _ = self.calls.push(Called::LookUp);
        self.kept.read(alloc, key)
    }

    fn next_key(
        &mut self,
        alloc: Global,
        after: Option<&RecordKey>,
    ) -> Result<Option<RecordKey>, KeeperFault> {
        let _ = self.calls.push(Called::LookUp);
        self.kept.next_key(alloc, after)
    }

    fn commit(&mut self, alloc: Global, changes: Vec<Change>) -> Result<(), KeeperFault> {
        let _ = self.calls.push(Called::Commit);
        self.kept.commit(alloc, changes)
    }

    fn settle(&mut self) -> Result<(), KeeperFault> {
        let _ = self.calls.push(Called::Settle);
        self.kept.settle()
    }
}
