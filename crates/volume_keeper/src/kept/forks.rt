//! What is asked of the forks of a volume beside its keeper.
ghost use Rattle.std.specs.Prelude.{◌≡◌, ◌≤◌, ◌++◌, ℕ, Bool, [], Some, true, length, IfOk, OnOk, OnErr};
ghost use Rattle.afp_base.specs.ForkBytes.{taken};
ghost use Rattle.afp_bitmap.specs.Bits.{IsWithin, file_mask};
ghost use Rattle.afp_bitmap.specs.Params.{params};
ghost use Rattle.volume_spec.specs.ForkEffect.{fork_of};
ghost use Rattle.volume_spec.specs.OpenFork.{fork_values};
ghost use Rattle.afp_base.specs.Limits.{most_fork_bytes};
ghost use Rattle.volume_spec.specs.SoundVolume.{has_file};
ghost use Rattle.volume_spec.specs.VolumeState.{Row};
ghost use Rattle.volume_spec.specs.Walk.{row_at};
ghost use Rattle.fork_bytes.specs.Line.{line_of};
ghost use Rattle.volume_tree.specs.Shown.{opened};

use crate::kept::kept::KeptVolume;
use afp_base::{Bytes, NodeId, OutOfMemory};
use deny_modes::VolumeOpens;
use fork_bytes::Fork;
use record_keeper::Keeper;
use std::alloc::Global;
use volume_edits::WholeVolume;
use volume_spec::laws::forks_are_given_bytes;
use volume_spec::limits::GUEST;

/// The fork of an id that is a file's.
pub(crate) fn fork_in(whole: &WholeVolume, id: NodeId, resource: bool) -> &Fork
    requires { has_file whole.now.state.rows id.0 ≡ true }
    ensures { (file : Row) → row_at whole.now.state.rows id.0 ≡ Some file → result.now ≡ fork_of resource file }
{
    whole.keeps_sound();
    whole.tree.file_fork(id, resource)
}

/// A block without bytes, with room for what a fork has of so many bytes from a place on, so that it grows at no piece, where there is memory for
/// that at once.
fn block_for(alloc: Global, fork: &Fork, from: u64, count: u32) -> Bytes
    ensures { result ≡ [] }
{
    let behind = fork.len().saturating_sub(from);
    let size = behind.min(u64::from(count)) as usize;
    Bytes::with_room(alloc, size).unwrap_or(Bytes::new(alloc))
}

impl<K: Keeper> KeptVolume<K> {
    /// Whether an id is a file's.
    pub fn has_file(&self, id: NodeId) -> bool
        ensures { result ≡ has_file self.now.state.rows id.0 }
    {
        let whole = &self.whole;
        whole.keeps_sound();
        match whole.tree.node(id) {
            Some(node) => !node.dir,
            None => false,
        }
    }

    /// How many bytes a fork of a file has. That is no more than all forks of a volume may have.
    pub fn fork_size(&self, id: NodeId, resource: bool) -> u64
        requires { has_file self.now.state.rows id.0 ≡ true }
        ensures size { (file : Row) → row_at self.now.state.rows id.0 ≡ Some file → result ≡ length (fork_of resource file) }
        ensures few { result ≤ most_fork_bytes }
    {
        forks_are_given_bytes();
        self.whole.keeps_sound();
        let fork = fork_in(&self.whole, id, resource);
        fork.len()
    }

    /// No fork has more bytes than all forks of a volume may have. The call does nothing.
    pub fn keeps_few(&self)
        ensures { (id : ℕ) (resource : Bool) (file : Row) → row_at self.now.state.rows id ≡ Some file → length (fork_of resource file) ≤ most_fork_bytes }
    {
        forks_are_given_bytes();
        self.whole.keeps_sound();
    }

    /// The at most `count` bytes of a fork from `from` on. The one error is want of memory.
    pub fn read_fork(
        &self,
        alloc: Global,
        id: NodeId,
        resource: bool,
        from: u64,
        count: u32,
    ) -> Result<Bytes, OutOfMemory>
        requires { has_file self.now.state.rows id.0 ≡ true }
        ensures { IfOk result (λ block. (file : Row) → row_at self.now.state.rows id.0 ≡ Some file → block ≡ taken (fork_of resource file) from count) }
    {
        let fork = fork_in(&self.whole, id, resource);
        let mut block = block_for(alloc, fork, from, count);
        fork.read(from, count, &mut block)?;
        Ok(block)
    }

    /// Appends the at most `count` bytes of a fork from `from` on, up to the first whose value under the mask is `end`, that one included. Whether it stopped at one. An
    /// error changes nothing.
    pub fn read_fork_line(
        &self,
        id: NodeId,
        resource: bool,
        from: u64,
        count: u32,
        mask: u8,
        end: u8,
        out: &mut Bytes,
    ) -> Result<bool, OutOfMemory>
        requires { has_file self.now.state.rows id.0 ≡ true }
        ensures stopped { IfOk result (λ stopped. (file : Row) → row_at self.now.state.rows id.0 ≡ Some file → stopped ≡ (line_of mask end (taken (fork_of resource file) from count)).stopped) }
        ensures ok { OnOk result ((file : Row) → row_at self.now.state.rows id.0 ≡ Some file → out.new ≡ out.old ++ (line_of mask end (taken (fork_of resource file) from count)).bytes) }
        ensures err { OnErr result (out.new ≡ out.old) }
    {
        let fork = fork_in(&self.whole, id, resource);
        fork.read_line(from, count, mask, end, out)
    }

    /// Appends the parameters of a file with these forks open, as FPGetForkParms and FPOpenFork tell them. An error changes nothing.
    pub fn file_params(
        &self,
        alloc: Global,
        id: NodeId,
        opens: &VolumeOpens<'_>,
        bits: u16,
        out: &mut Bytes,
    ) -> Result<(), OutOfMemory>
        requires file { has_file self.now.state.rows id.0 ≡ true }
        requires bits { IsWithin file_mask bits }
        ensures ok { OnOk result ((file : Row) → row_at self.now.state.rows id.0 ≡ Some file → out.new ≡ out.old ++ params bits (fork_values (opened opens.now) bits file)) }
        ensures err { OnErr result (out.new ≡ out.old) }
    {
        let whole = &self.whole;
        whole.keeps_sound();
        match crate::replies::node_params(alloc, &whole.tree, GUEST, id, opens, bits, 0, out) {
            Ok(_) => Ok(()),
            Err(fault) => Err(fault),
        }
    }
}
