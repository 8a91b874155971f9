//! Walking a path through the tree.
ghost use Rattle.std.specs.Prelude.{◌≡◌, ◌≤◌, IfOk, length, take};
ghost use Rattle.afp_names.specs.Name.{name_key};
ghost use Rattle.volume_spec.specs.Walk.{child, child_by_key, walk_from, walk, found};
ghost use Rattle.volume_tree.specs.Answered.{Answers, IsFoundNode};

use crate::volume::{ROOT_PARENT, Volume};
use afp_base::{Code, NodeId, OutOfMemory};
use afp_names::{LONG_NAMES, LONGEST_NAME, Name, Path, Step};
use std::alloc::Global;
use thiserror::Error;

/// Why a call is refused, or that there was no memory.
#[derive(Clone, Copy, Debug, PartialEq, Eq, Error)]
pub enum PlanFault {
    #[error("refused: {0}")]
    Code(Code),
    #[error("out of memory")]
    Memory,
}

impl From<OutOfMemory> for PlanFault {
    ghost use Rattle.std.specs.Prelude.{◌≡◌};
    ghost use Rattle.volume_tree.specs.declared.resolve.PlanFault.{PlanFault};

    ghost from_gives = { λ _ fault. fault ≡ PlanFault.Memory };

    fn from(_error: OutOfMemory) -> PlanFault {
        PlanFault::Memory
    }
}

impl Volume {
    /// Where a path leads a user from a directory (AFP Reference, "Pathnames"). Want of memory comes for no other reason.
    pub fn resolve(
        &self,
        alloc: Global,
        user: u32,
        dir: NodeId,
        path: &Path,
    ) -> Result<NodeId, PlanFault>
        ensures { Answers result (found self.now.state.rows user dir.0 path.now) }
    {
        self.walk(alloc, user, Code::ObjectNotFound, dir, path, path.len())
    }

    /// Where the first steps of a path lead a user from a directory. Where the last of them fails, `missing` is answered.
    #[tactic(auto, unfolding(volume_spec::specs::Walk::walk))]
    pub fn walk(
        &self,
        alloc: Global,
        user: u32,
        missing: Code,
        dir: NodeId,
        path: &Path,
        count: usize,
    ) -> Result<NodeId, PlanFault>
        requires { count ≤ length path.now.steps }
        ensures { Answers result (walk self.now.state.rows user path.now.kind missing dir.0 (take count path.now.steps)) }
    {
        if dir.0 != ROOT_PARENT.0 && !self.is_directory(dir) {
            return Err(PlanFault::Code(Code::DirNotFound));
        }
        match self.walk_steps(alloc, user, missing, dir, path, count) {
            Ok(NodeId(1)) => Err(PlanFault::Code(Code::ObjectNotFound)),
            Ok(id) => Ok(id),
            Err(fault) => Err(fault),
        }
    }
}

impl Volume {
    /// Where the first steps of a path lead a user from a node.
    fn walk_steps(
        &self,
        alloc: Global,
        user: u32,
        missing: Code,
        dir: NodeId,
        path: &Path,
        count: usize,
    ) -> Result<NodeId, PlanFault>
        requires { count ≤ length path.now.steps }
        ensures { Answers result (walk_from self.now.state.rows user path.now.kind missing (take count path.now.steps) dir.0) }
    {
        let mut here = dir;
        for i in 0..count {
            match path.step(i) {
                Step::Up => match self.parent(here) {
                    Some(up) => here = up,
                    None => return Err(PlanFault::Code(Code::ObjectNotFound)),
                },
                Step::Down(name) => {
                    if self.is_closed(user, here) {
                        return Err(PlanFault::Code(Code::AccessDenied));
                    }
                    match self.step_down(alloc, path.kind(), here, name) {
                        Ok(Some(down)) => here = down,
                        Ok(None) => {
                            return Err(PlanFault::Code(if i + 1 < count {
                                Code::DirNotFound
                            } else {
                                missing
                            }));
                        }
                        Err(_) => return Err(PlanFault::Memory),
                    }
                }
            }
        }
        Ok(here)
    }

    /// The child of a directory that has this name. It takes memory only for a name with another character than those of ASCII.
    pub fn child_named(
        &self,
        alloc: Global,
        dir: NodeId,
        name: &Name,
    ) -> Result<Option<NodeId>, OutOfMemory>
        ensures { IfOk result (λ found. IsFoundNode found (child_by_key self.now.state.rows dir.0 (name_key name.now))) }
    {
        let mut room = [0; LONGEST_NAME];
        match name.ascii_key(&mut room) {
            Some(len) => Ok(self.child(dir, &room[..len])),
            None => {
                let key = name.key(alloc)?;
                Ok(self.child(dir, key.as_slice()))
            }
        }
    }

    /// The child to which a step down leads: that with the name's key; where there is none and names are
    /// long names, that with the long name.
    #[tactic(auto, unfolding(volume_spec::specs::Walk::child))]
    fn step_down(
        &self,
        alloc: Global,
        kind: u8,
        here: NodeId,
        name: &Name,
    ) -> Result<Option<NodeId>, OutOfMemory>
        ensures { IfOk result (λ found. IsFoundNode found (child self.now.state.rows kind here.0 name.now)) }
    {
        match self.child_named(alloc, here, name)? {
            Some(id) => Ok(Some(id)),
            None => if kind == LONG_NAMES {
                self.long_child(alloc, here, name)
            } else {
                Ok(None)
            },
        }
    }
}
