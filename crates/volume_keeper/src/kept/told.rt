//! What is asked of a volume beside its keeper.
ghost use Rattle.std.specs.Prelude.{◌≡◌, ◌++◌, true, option_map, IfOk, OnOk, OnErr, Some};
ghost use Rattle.afp_bitmap.specs.declared.params.Values.TheVariants.{Volume as VolumeOf};
ghost use Rattle.afp_replies.specs.Replies.{canonical_reply};
ghost use Rattle.afp_replies.specs.declared.reply.Reply.TheVariants.{Params};
ghost use Rattle.afp_serial.specs.Enumerate.{enumerate_reply};
ghost use Rattle.afp_serial.specs.GetFileDirParms.{get_file_dir_parms_reply};
ghost use Rattle.volume_spec.specs.Enumerate.{enumerate_refusal};
ghost use Rattle.volume_spec.specs.GetFileDirParms.{get_file_dir_parms_refusal, get_file_dir_parms_values};
ghost use Rattle.volume_spec.specs.GetVolParms.{get_vol_parms_refusal, volume_values};
ghost use Rattle.volume_spec.specs.OpenDir.{open_dir_refusal, open_dir_id};
ghost use Rattle.volume_spec.specs.OpenFork.{open_fork_file, open_fork_refusal};
ghost use Rattle.volume_spec.specs.SoundVolume.{has_file};
ghost use Rattle.volume_spec.specs.VolumeState.{Row};
ghost use Rattle.volume_spec.specs.Walk.{row_at};
ghost use Rattle.volume_tree.specs.Answered.{Refuses};
ghost use Rattle.volume_tree.specs.Shown.{opened};

use crate::kept::kept::KeptVolume;
use crate::replies::ListAsked;
use afp_base::{Bytes, NodeId, VolumeId};
use afp_names::Path;
use deny_modes::VolumeOpens;
use record_keeper::Keeper;
use std::alloc::Global;
use volume_spec::laws::values_are_those_asked_for;
use volume_tree::PlanFault;

impl<K: Keeper> KeptVolume<K> {
    /// FPGetVolParms on the volume, as the one of this id: its reply's bytes, at the end of `out`. An error leaves `out`.
    pub fn get_vol_parms(
        &self,
        alloc: Global,
        id: VolumeId,
        bits: u16,
        out: &mut Bytes,
    ) -> Result<(), PlanFault>
        ensures refused { Refuses result (get_vol_parms_refusal bits) }
        ensures ok { OnOk result (out.new ≡ out.old ++ canonical_reply (Params bits (VolumeOf (volume_values self.now.state id.0 bits)))) }
        ensures err { OnErr result (out.new ≡ out.old) }
    {
        let whole = &self.whole;
        crate::replies::get_vol_parms(alloc, &whole.tree, id, bits, out)
    }

    /// FPOpenDir of a user on the volume.
    pub fn open_dir(
        &self,
        alloc: Global,
        user: u32,
        dir: NodeId,
        path: &Path,
    ) -> Result<NodeId, PlanFault>
        ensures refused { Refuses result (open_dir_refusal self.now.state user dir.0 path.now) }
        ensures id { IfOk result (λ id. open_dir_id self.now.state user dir.0 path.now ≡ Some id.0) }
    {
        let whole = &self.whole;
        crate::replies::open_dir(alloc, &whole.tree, user, dir, path)
    }

    /// The id of the file that FPOpenFork of a user finds on the volume, or why the volume refuses that. `bits` are those of what is to be told of the file, and
    /// `reads` and `writes` say whether the fork is to be read and to be written.
    pub fn open_fork(
        &self,
        alloc: Global,
        user: u32,
        bits: u16,
        reads: bool,
        writes: bool,
        dir: NodeId,
        path: &Path,
    ) -> Result<NodeId, PlanFault>
        ensures refused { Refuses result (open_fork_refusal self.now.state user bits reads writes dir.0 path.now) }
        ensures file { IfOk result (λ id. has_file self.now.state.rows id.0 ≡ true) }
        ensures found { IfOk result (λ id. open_fork_file self.now.state user dir.0 path.now ≡ row_at self.now.state.rows id.0) }
        ensures id { IfOk result (λ id. option_map (λ (file : Row). file.id) (open_fork_file self.now.state user dir.0 path.now) ≡ Some id.0) }
    {
        let whole = &self.whole;
        crate::replies::open_fork(alloc, &whole.tree, user, bits, reads, writes, dir, path)
    }

    /// FPGetFileDirParms of a user on the volume with these open forks: its reply's bytes, at the end of `out`. An error leaves `out`.
    pub fn get_file_dir_parms(
        &self,
        alloc: Global,
        user: u32,
        opens: &VolumeOpens<'_>,
        file_bits: u16,
        dir_bits: u16,
        dir: NodeId,
        path: &Path,
        out: &mut Bytes,
    ) -> Result<(), PlanFault>
        ensures refused { Refuses result (get_file_dir_parms_refusal self.now.state user file_bits dir_bits dir.0 path.now) }
        ensures ok { OnOk result (out.new ≡ out.old ++ canonical_reply (get_file_dir_parms_reply file_bits dir_bits (get_file_dir_parms_values self.now.state user (opened opens.now) file_bits dir_bits dir.0 path.now))) }
        ensures err { OnErr result (out.new ≡ out.old) }
    {
        values_are_those_asked_for();
        let whole = &self.whole;
        whole.tree.keeps_sound();
        crate::replies::get_file_dir_parms(
            alloc,
            &whole.tree,
            user,
            opens,
            file_bits,
            dir_bits,
            dir,
            path,
            out,
        )
    }

    /// FPEnumerate, FPEnumerateExt or FPEnumerateExt2 on the volume with these open forks: its reply's bytes, at the end of `out`. An error leaves `out`.
    pub fn list(
        &self,
        alloc: Global,
        opens: &VolumeOpens<'_>,
        asked: ListAsked,
        dir: NodeId,
        path: &Path,
        out: &mut Bytes,
    ) -> Result<(), PlanFault>
        ensures refused { Refuses result (enumerate_refusal self.now.state (opened opens.now) asked dir.0 path.now) }
        ensures ok { OnOk result (out.new ≡ out.old ++ canonical_reply (enumerate_reply self.now.state (opened opens.now) asked dir.0 path.now)) }
        ensures err { OnErr result (out.new ≡ out.old) }
    {
        let whole = &self.whole;
        crate::replies::list(alloc, &whole.tree, opens, &asked, dir, path, out)
    }
}
