//! Reading all that a keeper holds.
use afp_base::Bytes;
use ghost_log::Log;
use record_keeper::{Change, Keeper, KeeperFault, ReadAllFault, RecordKey, read_all};
use std::alloc::Global;

/// A keeper that does not tell its records, and gives one key for ever.
#[derive(Drop)]
struct OneKey {
    settles: Log<Result<(), KeeperFault>>,
}

impl Keeper for OneKey {
    ghost use Rattle.std.specs.Prelude.{None, true};

    ghost records = { λ _. None };

    ghost faults = { λ _. 0 };

    ghost sure = { λ _. true };

    ghost steady = { λ _. true };

    ghost settles = { λ k. k.settles.items };

    fn read(&mut self, alloc: Global, _key: &RecordKey) -> Result<Option<Bytes>, KeeperFault> {
        Ok(Some(Bytes::new(alloc)))
    }

    fn next_key(
        &mut self,
        alloc: Global,
        _after: Option<&RecordKey>,
    ) -> Result<Option<RecordKey>, KeeperFault> {
        Ok(Some(RecordKey::new(Bytes::new(alloc))))
    }

    fn commit(&mut self, _alloc: Global, _changes: Vec<Change>) -> Result<(), KeeperFault> {
        Ok(())
    }

    fn settle(&mut self) -> Result<(), KeeperFault> {
        self.settles = self.settles.and(&Ok(()));
        Ok(())
    }
}

#[test]
fn keys_that_do_not_rise_are_refused(rt: HostRuntime) {
    let mut keeper = OneKey {
        settles: Log::new(),
    };
    let answer = read_all(rt.alloc(), &mut keeper);
    assert!(rt; matches!(&answer, Err(ReadAllFault::Inconsistent { key: _ })));
}
