//! A keeper in memory that notes what changes.
use afp_base::{Bytes, OutOfMemory};
use record_keeper::{Change, Keeper, KeeperFault, MemoryKeeper, RecordKey};
use std::alloc::Global;

/// A keeper in memory that has the changes of its last commit.
#[derive(Drop)]
pub struct NotingKeeper {
    keeper: MemoryKeeper,
    pub last: Vec<Change>,
}

impl NotingKeeper {
    /// A keeper that has noted nothing yet.
    pub fn new(alloc: Global, keeper: MemoryKeeper) -> NotingKeeper {
        NotingKeeper {
            keeper,
            last: Vec::new(alloc),
        }
    }
}

fn copy_of(change: &Change) -> Result<Change, OutOfMemory> {
    match change {
        Change::Put { key, value } => Ok(Change::Put {
            key: key.copy()?,
            value: value.copy()?,
        }),
        Change::Remove { key } => Ok(Change::Remove { key: key.copy()? }),
    }
}

fn copies_of(alloc: Global, changes: &[Change]) -> Result<Vec<Change>, OutOfMemory> {
    let mut copies = Vec::new(alloc);
    for change in changes {
        copies.push(copy_of(change)?)?;
    }
    Ok(copies)
}

impl Keeper for NotingKeeper {
    ghost use Rattle.std.specs.Prelude.{Some, true};
    ghost use Rattle.record_keeper.specs.Planned.{never_fails};

    ghost records = { λ k. Some k.keeper.records };

    ghost faults = { λ k. k.keeper.planned.faults };

    ghost sure = { λ k. never_fails k.keeper.planned };

    ghost steady = { λ _. true };

    ghost settles = { λ k. k.keeper.settles };

    fn read(&mut self, alloc: Global, key: &RecordKey) -> Result<Option<Bytes>, KeeperFault> {
        self.keeper.read(alloc, key)
    }

    fn next_key(
        &mut self,
        alloc: Global,
        after: Option<&RecordKey>,
    ) -> Result<Option<RecordKey>, KeeperFault> {
        self.keeper.next_key(alloc, after)
    }

    fn commit(&mut self, alloc: Global, changes: Vec<Change>) -> Result<(), KeeperFault> {
        let Ok(copies) = copies_of(alloc, changes.as_slice()) else {
            return Err(KeeperFault::Memory);
        };
        match self.keeper.commit(alloc, changes) {
            Ok(()) => {
                self.last = copies;
                Ok(())
            }
            Err(fault) => Err(fault),
        }
    }

    fn settle(&mut self) -> Result<(), KeeperFault> {
        self.keeper.settle()
    }
}
