//! New places and new names that paths name.
ghost use Rattle.std.specs.Prelude.{◌≡◌, ◌-◌, true, None, Some, Ok, Err, take, length, IfOk, MatchOption};
ghost use Rattle.volume_spec.specs.Shared.{name_of};
ghost use Rattle.volume_spec.specs.Walk.{found, before_down, new_place, one_down, one_down_or, is_named_path, is_named_step};
ghost use Rattle.volume_tree.specs.Answered.{FailsAs};

use crate::resolve::PlanFault;
use crate::volume::Volume;
use afp_base::{Code, NodeId};
use afp_names::{Name, Path, Step};
use std::alloc::Global;
use volume_spec::laws::rows_are_changed_in_place;

/// The name to which the last step of a path goes down.
fn last_name(path: &Path) -> Option<&Name>
    ensures { MatchOption result (before_down path.now.steps ≡ None) (λ name. before_down path.now.steps ≡ Some (take (length path.now.steps - 1) path.now.steps, name.now)) }
{
    if path.len() == 0 {
        return None;
    }
    match path.step(path.len() - 1) {
        Step::Up => None,
        Step::Down(name) => Some(name),
    }
}

/// A new name: that of a path of just one step down.
pub fn only_name(path: &Path) -> Option<&Name>
    ensures { MatchOption result (one_down path.now.steps ≡ Err Code.ParamErr) (λ name. one_down path.now.steps ≡ Ok name.now) }
{
    if path.len() != 1 {
        return None;
    }
    match path.step(0) {
        Step::Up => None,
        Step::Down(name) => Some(name),
    }
}

/// A new name, or the old one where the path is empty.
pub fn new_name<'a>(old: &'a Name, path: &'a Path) -> Option<&'a Name>
    ensures { MatchOption result (one_down_or old.now path.now.steps ≡ Err Code.ParamErr) (λ name. one_down_or old.now path.now.steps ≡ Ok name.now) }
{
    if path.len() == 0 {
        return Some(old);
    }
    if path.len() != 1 {
        return None;
    }
    match path.step(0) {
        Step::Up => None,
        Step::Down(name) => Some(name),
    }
}

/// The steps down of a path are to names. The call does nothing.
pub fn steps_are_named(path: &Path)
    ensures { is_named_path path.now ≡ true }
{
    for i in 0..path.len() {
        is_named(path.step(i));
    }
}

fn is_named(step: &Step)
    ensures { is_named_step step.now ≡ true }
{
    match step {
        Step::Up => {}
        Step::Down(name) => {
            let _ = name.as_str();
        }
    }
}

impl Volume {
    /// The name of a node to which a path leads a user.
    pub fn name_at(&self, user: u32, dir: NodeId, path: &Path, id: NodeId) -> &Name
        requires { found self.now.state.rows user dir.0 path.now ≡ Ok id.0 }
        ensures { result.now ≡ name_of self.now.state.rows id.0 }
    {
        rows_are_changed_in_place();
        self.keeps_sound();
        match self.node(id) {
            Some(node) => &node.name,
            None => unreachable!(),
        }
    }

    /// The new place that a path names to a user: a directory, and the name in it.
    #[tactic(auto, unfolding(volume_spec::specs::Walk::new_place))]
    pub fn new_place<'a>(
        &self,
        alloc: Global,
        user: u32,
        dir: NodeId,
        path: &'a Path,
    ) -> Result<(NodeId, &'a Name), PlanFault>
        ensures place { IfOk result (λ place. new_place self.now.state.rows user dir.0 path.now ≡ Ok (record { dir = place.0.0; name = place.1.now })) }
        ensures fault { FailsAs result (new_place self.now.state.rows user dir.0 path.now) }
    {
        let name = match last_name(path) {
            Some(name) => name,
            None => return Err(PlanFault::Code(Code::ParamErr)),
        };
        let at = match self.walk(alloc, user, Code::DirNotFound, dir, path, path.len() - 1) {
            Ok(at) => at,
            Err(fault) => return Err(fault),
        };
        if !self.is_directory(at) {
            return Err(PlanFault::Code(Code::DirNotFound));
        }
        Ok((at, name))
    }
}
