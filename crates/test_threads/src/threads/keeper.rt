//! A keeper that leaves its records behind when it is dropped.
use afp_base::Bytes;
use record_keeper::{Change, Keeper, KeeperFault, MemoryKeeper, Record, RecordKey, read_all};
use std::alloc::Global;
use std::sync::{Arc, OnceLock};

/// Keeps in memory, and sets all its records where it was told to when it is dropped.
pub struct LeavingKeeper {
    pub kept: MemoryKeeper,
    pub alloc: Global,
    pub left: Arc<OnceLock<Vec<Record>>>,
}

impl Drop for LeavingKeeper {
    fn drop(self) {
        let LeavingKeeper { kept, alloc, left } = self;
        let mut kept = kept;
        if let Ok(records) = read_all(alloc, &mut kept) {
            let _ = left.try_set(records);
        }
    }
}

impl Keeper for LeavingKeeper {
    ghost use Rattle.std.specs.Prelude.{Some, true};
    ghost use Rattle.record_keeper.specs.Planned.{never_fails};

    ghost records = { λ k. Some k.kept.records };

    ghost faults = { λ k. k.kept.planned.faults };

    ghost sure = { λ k. never_fails k.kept.planned };

    ghost steady = { λ _. true };

    ghost settles = { λ k. k.kept.settles };

    fn read(&mut self, alloc: Global, key: &RecordKey) -> Result<Option<Bytes>, KeeperFault> {
        self.kept.read(alloc, key)
    }

    fn next_key(
        &mut self,
        alloc: Global,
        after: Option<&RecordKey>,
    ) -> Result<Option<RecordKey>, KeeperFault> {
        self.kept.next_key(alloc, after)
    }

    fn commit(&mut self, alloc: Global, changes: Vec<Change>) -> Result<(), KeeperFault> {
        self.kept.commit(alloc, changes)
    }

    fn settle(&mut self) -> Result<(), KeeperFault> {
        self.kept.settle()
    }
}
