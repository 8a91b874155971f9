//! Files that are copied.
ghost use Rattle.std.specs.Prelude.{◌≡◌, true, false, [], Some, IfOk, MatchOption};
ghost use Rattle.volume_spec.specs.CopyFile.{copied_refusal};
ghost use Rattle.volume_spec.specs.ForkEffect.{fork_of};
ghost use Rattle.volume_spec.specs.OpenFork.{file_of, open_fork_file};
ghost use Rattle.volume_spec.specs.SoundVolume.{has_file};
ghost use Rattle.volume_spec.specs.Walk.{row_at};
ghost use Rattle.volume_tree.specs.Answered.{Refuses};
ghost use Rattle.volume_edits.specs.plans.lemma.Copied.{IsCopied};

use crate::edits::WholeVolume;
use afp_base::{Code, NodeId};
use afp_names::{Name, Path};
use fork_bytes::Fork;
use node_rows::Node;
use std::alloc::Global;
use std::marker::Model;
use volume_tree::PlanFault;

/// A file of a volume, lent, so that it can be copied.
///
/// Contracts see the definition's row.
#[derive(Drop)]
pub struct CopiedFile<'a> {
    node: &'a Node,
    data_fork: &'a Fork,
    resource_fork: &'a Fork,
}

impl<'a> Model for CopiedFile<'a> {
    ghost use Rattle.volume_spec.specs.VolumeState.{Row};
    ghost use Rattle.volume_edits.specs.plans.lemma.Copied.{IsCopied};

    ghost Value = { Row };

    ghost view = { λ a. record a.node.now { data_fork = a.data_fork.now; resource_fork = a.resource_fork.now } };

    ghost invariant = { λ a. IsCopied (record a.node.now { data_fork = a.data_fork.now; resource_fork = a.resource_fork.now }) };
}

impl<'a> CopiedFile<'a> {
    /// What holds of every file. The call does nothing.
    pub(crate) fn keeps_formed(&self)
        ensures { IsCopied self.now }
    {
        let _ = &self.node;
    }

    /// The file's id.
    pub fn id(&self) -> NodeId
        ensures { result.0 ≡ self.now.id }
    {
        let node = self.node;
        node.id
    }

    /// The file's name.
    pub fn name(&self) -> &Name
        ensures { result.now ≡ self.now.name }
    {
        let node = self.node;
        &node.name
    }

    /// The file without its forks.
    pub(crate) fn node(&self) -> &Node
        ensures { result.now ≡ record self.now { data_fork = []; resource_fork = [] } }
    {
        let node = self.node;
        let _ = &node.dir;
        node
    }

    /// The one fork or the other.
    pub fn fork(&self, resource: bool) -> &Fork
        ensures { result.now ≡ fork_of resource self.now }
    {
        if resource {
            self.resource_fork
        } else {
            self.data_fork
        }
    }
}

/// The file of an id.
fn file_at<'a>(whole: &'a WholeVolume, id: NodeId) -> Option<CopiedFile<'a>>
    ensures { MatchOption result (has_file whole.now.state.rows id.0 ≡ false) (λ file. (has_file whole.now.state.rows id.0 ≡ true) × (file_of (row_at whole.now.state.rows id.0) ≡ Some file)) }
{
    whole.keeps_sound();
    let node = match whole.tree.node(id) {
        Some(node) => node,
        None => return None,
    };
    let forks = match whole.tree.forks(node) {
        Some(forks) => forks,
        None => return None,
    };
    Some(CopiedFile {
        node,
        data_fork: forks.fork(false),
        resource_fork: forks.fork(true),
    })
}

/// Why the volume of a file refuses to have it copied, or the file. Want of memory comes for no other reason.
#[tactic(auto, unfolding(volume_spec::specs::CopyFile::copied_refusal, volume_spec::specs::OpenFork::open_fork_file))]
pub fn copied_file<'a>(
    alloc: Global,
    whole: &'a WholeVolume,
    user: u32,
    dir: NodeId,
    path: &Path,
) -> Result<CopiedFile<'a>, PlanFault>
    ensures refused { Refuses result (copied_refusal whole.now.state user dir.0 path.now) }
    ensures file { IfOk result (λ file. open_fork_file whole.now.state user dir.0 path.now ≡ Some file) }
{
    let id = match whole.resolve(alloc, user, dir, path) {
        Ok(id) => id,
        Err(fault) => return Err(fault),
    };
    match file_at(whole, id) {
        Some(file) => Ok(file),
        None => Err(PlanFault::Code(Code::ObjectTypeErr)),
    }
}
