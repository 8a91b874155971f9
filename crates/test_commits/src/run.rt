//! What comes of lines.
ghost use Rattle.std.specs.Prelude.{◌≡◌, IfOk, IsSome};
ghost use Rattle.volume_keeper.specs.kept.Commits.{MayCommit};
ghost use Rattle.volume_edits.specs.plans.Requests.{tree_call};

use crate::noting::NotingKeeper;
use crate::spent::spent_keeper;
use afp_base::{Moment, NodeId, OutOfMemory, VolumeId};
use afp_calls_grammar::Call;
use afp_names::{LONGEST_PATH, Name, Path, UTF8_NAMES};
use deny_modes::{ForkKey, Opens};
use record_keeper::{Change, KeeperFault, MemoryKeeper};
use std::alloc::Global;
use test_lines::LineResult;
use volume_edits::{Plan, plan_tree_call};
use volume_keeper::{KeptVolume, plan_fork_length, plan_fork_write};
use volume_spec::limits::GUEST;
use volume_tree::PlanFault;

/// A volume beside its keeper, and the moment of all calls.
#[derive(Drop)]
pub struct Run {
    kept: KeptVolume<NotingKeeper>,
    now: Moment,
}

/// The path that a word is, in UTF-8.
fn path_of(alloc: Global, text: &str) -> Option<Path> {
    if text.len() > LONGEST_PATH {
        return None;
    }
    match Path::read(alloc, UTF8_NAMES, text.as_bytes()) {
        Ok(path) => Some(path),
        Err(_) => None,
    }
}

/// The data fork of a file of volume 1.
fn data_fork(file: NodeId) -> ForkKey
    ensures node { result.node ≡ file.0 }
{
    ForkKey {
        volume: VolumeId(1),
        node: file,
        resource: false,
    }
}

impl Run {
    /// The volume "Share" of a keeper, loaded at 100.
    fn load(alloc: Global, keeper: MemoryKeeper) -> Result<Option<Run>, OutOfMemory> {
        let Some(now) = Moment::new(100) else {
            return Ok(None);
        };
        let Ok(name) = Name::new(alloc, b"Share") else {
            return Err(OutOfMemory);
        };
        let noting = NotingKeeper::new(alloc, keeper);
        match KeptVolume::load(alloc, noting, name.as_str(), now) {
            Ok(kept) => Ok(Some(Run { kept, now })),
            Err(_) => Ok(None),
        }
    }

    /// The volume of a new keeper in memory whose call of this number fails, from 0.
    pub fn new(alloc: Global, failing: u64) -> Result<Option<Run>, OutOfMemory> {
        let mut calls = Vec::new(alloc);
        if calls.push(failing).is_err() {
            return Err(OutOfMemory);
        }
        Run::load(alloc, MemoryKeeper::new(alloc, calls))
    }

    /// The volume of a keeper that holds one whose last id was given out.
    pub fn spent(alloc: Global) -> Result<Option<Run>, OutOfMemory> {
        let keeper = spent_keeper(alloc, "Share")?;
        Run::load(alloc, keeper)
    }

    /// What comes of a call that changes the volume, with no fork open.
    fn change(&mut self, alloc: Global, call: &Call) -> LineResult
        requires { IsSome (tree_call call.now) }
    {
        let none = Opens::new(alloc);
        let opens = none.on(VolumeId(1));
        let whole = self.kept.whole();
        let planned = plan_tree_call(alloc, whole, GUEST, self.now, &opens, call);
        self.commit(alloc, planned)
    }

    /// What comes of a plan of the volume as it is.
    fn commit(&mut self, alloc: Global, planned: Result<Plan, PlanFault>) -> LineResult
        requires { IfOk planned (MayCommit self.old.kept.state) }
    {
        let plan = match planned {
            Ok(plan) => plan,
            Err(PlanFault::Code(code)) => return LineResult::Code(code.number()),
            Err(PlanFault::Memory) => return LineResult::Word("no memory"),
        };
        match self.kept.commit(alloc, plan) {
            Ok(()) => LineResult::Word("ok"),
            Err(KeeperFault::Failed) => LineResult::Word("failed"),
            Err(KeeperFault::Memory) => LineResult::Word("no memory"),
        }
    }

    /// Asks FPCreateDir of volume 1: directory ID, pathname. A text that is no path asks nothing.
    pub fn create_dir(&mut self, alloc: Global, dir: NodeId, text: &str) -> LineResult {
        let Some(path) = path_of(alloc, text) else {
            return LineResult::Word("no path");
        };
        let call = Call::CreateDir {
            volume: VolumeId(1),
            dir,
            path,
        };
        self.change(alloc, &call)
    }

    /// Asks FPCreateFile of volume 1: flag 0 (soft), directory ID, pathname, as FPCreateDir above.
    pub fn create_file(&mut self, alloc: Global, dir: NodeId, text: &str) -> LineResult {
        let Some(path) = path_of(alloc, text) else {
            return LineResult::Word("no path");
        };
        let call = Call::CreateFile {
            flag: 0,
            volume: VolumeId(1),
            dir,
            path,
        };
        self.change(alloc, &call)
    }

    /// Asks FPDelete of volume 1: directory ID, pathname, as FPCreateDir above.
    pub fn delete(&mut self, alloc: Global, dir: NodeId, text: &str) -> LineResult {
        let Some(path) = path_of(alloc, text) else {
            return LineResult::Word("no path");
        };
        let call = Call::Delete {
            volume: VolumeId(1),
            dir,
            path,
        };
        self.change(alloc, &call)
    }

    /// The data fork of a file gets another length.
    pub fn size(&mut self, alloc: Global, file: NodeId, length: u64) -> LineResult {
        if !self.kept.has_file(file) {
            return LineResult::Word("no file");
        }
        let fork = data_fork(file);
        let whole = self.kept.whole();
        let planned = plan_fork_length(alloc, whole, self.now, &fork, length);
        self.commit(alloc, planned)
    }

    /// Bytes are written to the data fork of a file, the first of them at a place.
    pub fn write(&mut self, alloc: Global, file: NodeId, place: u64, digits: &str) -> LineResult {
        if !self.kept.has_file(file) {
            return LineResult::Word("no file");
        }
        let Ok(piece) = hex::decode(alloc, digits) else {
            return LineResult::Word("no bytes");
        };
        let fork = data_fork(file);
        let whole = self.kept.whole();
        let planned = plan_fork_write(alloc, whole, self.now, &fork, place, piece.as_slice());
        self.commit(alloc, planned)
    }

    /// The changes that the keeper was given last.
    pub fn changes(&self) -> &[Change] {
        self.kept.keeper().last.as_slice()
    }

    /// How many nodes there are.
    pub fn count(&self) -> LineResult {
        LineResult::Number(self.kept.count() as u64)
    }

    /// The id that the next new node draws.
    pub fn next(&self) -> LineResult {
        LineResult::Number(self.kept.next_id())
    }

    /// The id of the directory to which a path leads.
    pub fn open_dir(&self, alloc: Global, dir: NodeId, text: &str) -> LineResult {
        let Some(path) = path_of(alloc, text) else {
            return LineResult::Word("no path");
        };
        match self.kept.open_dir(alloc, GUEST, dir, &path) {
            Ok(id) => LineResult::Number(u64::from(id.0)),
            Err(PlanFault::Code(code)) => LineResult::Code(code.number()),
            Err(PlanFault::Memory) => LineResult::Word("no memory"),
        }
    }

    /// The keeper settles.
    pub fn settle(&mut self) -> LineResult {
        match self.kept.settle() {
            Ok(()) => LineResult::Word("ok"),
            Err(KeeperFault::Failed) => LineResult::Word("failed"),
            Err(KeeperFault::Memory) => LineResult::Word("no memory"),
        }
    }
}
