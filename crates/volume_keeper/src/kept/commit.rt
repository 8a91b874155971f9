//! Plans committed, and settling.
ghost use Rattle.volume_keeper.specs.kept.Changing.{Settles};
ghost use Rattle.volume_keeper.specs.kept.Commits.{Commits, MayCommit};

use crate::kept::kept::KeptVolume;
use record_keeper::{Keeper, KeeperFault};
use std::alloc::Global;
use volume_changes::plan_changes;
use volume_edits::Plan;

impl<K: Keeper> KeptVolume<K> {
    /// Carries a plan of the volume as it is out: what it changes in the records is committed to the keeper, then the volume changes, for which no memory
    /// is taken. A plan of no edits commits nothing. At an error nothing has changed but, beside `Failed`, the keeper's count.
    pub fn commit(&mut self, alloc: Global, plan: Plan) -> Result<(), KeeperFault>
        requires { MayCommit self.old.state plan }
        ensures { Commits self.old plan result self.new }
    {
        if plan.is_empty() {
            return Ok(());
        }
        let Ok(changes) = plan_changes(alloc, &self.whole, &plan) else {
            return Err(KeeperFault::Memory);
        };
        if self.whole.reserve(alloc).is_err() {
            return Err(KeeperFault::Memory);
        }
        match self.keeper.commit(alloc, changes) {
            Ok(()) => {
                self.whole.apply(alloc, plan);
                Ok(())
            }
            Err(KeeperFault::Failed) => Err(KeeperFault::Failed),
            Err(KeeperFault::Memory) => Err(KeeperFault::Memory),
        }
    }

    /// Has what was committed outlast the keeper.
    pub fn settle(&mut self) -> Result<(), KeeperFault>
        ensures { Settles self.old result self.new }
    {
        self.keeper.settle()
    }
}
