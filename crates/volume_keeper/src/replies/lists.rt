//! FPEnumerate, FPEnumerateExt and FPEnumerateExt2.
ghost use Rattle.std.specs.Prelude.{◌≡◌, ℕ, ◌++◌, ◌+◌, ◌<◌, ◌≤◌, ◌==◌, ◌&&◌, not, Ok, true, IfOk, OnOk, OnErr, drop, length, take};
ghost use Rattle.byteorder.specs.Endian.{big_bytes};
ghost use Rattle.afp_bitmap.specs.Bits.{IsWithin, file_mask, dir_mask};
ghost use Rattle.afp_replies.specs.Replies.{canonical_reply};
ghost use Rattle.afp_serial.specs.ListReply.{list_reply};
ghost use Rattle.volume_spec.specs.Enumerate.{is_counted, entries, enumerate_refusal, list_head};
ghost use Rattle.volume_spec.specs.SoundVolume.{has_node};
ghost use Rattle.volume_spec.specs.Walk.{found};
ghost use Rattle.volume_keeper.specs.replies.lemma.Filling.{IsBehind, IsStart, bytes_of, filled, list_refusal};
ghost use Rattle.volume_tree.specs.Answered.{Refuses};
ghost use Rattle.volume_tree.specs.Shown.{opened};

use crate::replies::entry::put_entry;
use crate::replies::list_asked::ListAsked;
use crate::replies::node::node_at;
use crate::replies::parms::is_directory;
use afp_base::{Bytes, Code, NodeId, OutOfMemory};
use afp_bitmap::{DirBits, FileBits, is_outside};
use afp_names::Path;
use deny_modes::VolumeOpens;
use node_rows::Node;
use std::alloc::Global;
use volume_spec::laws::rows_are_changed_in_place;
use volume_spec::limits::READ_RIGHT;
use volume_tree::{PlanFault, Volume};

/// The bytes of a list before its entries: the bits of files, those of directories, how many entries there are (AFP Reference,
/// "FPEnumerate").
const LIST_HEAD: usize = 6;

/// Whether a node counts: a kind of which nothing is asked does not.
fn is_counted(asked: &ListAsked, node: &Node) -> bool
    ensures { result ≡ is_counted asked.now node.now }
{
    if node.dir {
        asked.dir_bits != 0
    } else {
        asked.file_bits != 0
    }
}

/// How many entries are asked at most.
fn most(asked: &ListAsked) -> u16
    ensures { result ≡ asked.now.count }
{
    asked.count
}

/// From which entry on; the first is 1.
fn start(asked: &ListAsked) -> u32
    ensures { result ≡ asked.now.start }
{
    asked.start
}

/// Whether every child counts: something is asked of files and of directories.
fn counts_all(asked: &ListAsked) -> bool
    ensures { result ≡ (not (asked.now.file_bits == 0) && not (asked.now.dir_bits == 0)) }
{
    asked.file_bits != 0 && asked.dir_bits != 0
}

/// Whether no child counts: nothing is asked of files, nor of directories.
fn counts_none(asked: &ListAsked) -> bool
    ensures { result ≡ ((asked.now.file_bits == 0) && (asked.now.dir_bits == 0)) }
{
    asked.file_bits == 0 && asked.dir_bits == 0
}

/// Whether files count.
fn counts_files(asked: &ListAsked) -> bool
    ensures { result ≡ not (asked.now.file_bits == 0) }
{
    asked.file_bits != 0
}

/// The place, from another one on, of the child that counts behind `skip` others that count; `None` where no more are there. No
/// child is passed over: where every one counts the place is known at once, and else it is found by halving.
fn place_behind(
    volume: &Volume,
    asked: &ListAsked,
    dir: NodeId,
    from: usize,
    skip: usize,
) -> Option<usize>
    ensures { IsBehind volume.now.state.rows asked.now dir.0 from skip result }
{
    if counts_none(asked) {
        return None;
    }
    if !counts_all(asked) {
        return volume.place_behind(dir, counts_files(asked), from, skip);
    }
    if skip < volume.siblings(dir).len().saturating_sub(from) {
        Some(from + skip)
    } else {
        None
    }
}

/// The place of the child with which a list begins.
fn start_place(volume: &Volume, asked: &ListAsked, dir: NodeId) -> Option<usize>
    requires { 0 < asked.now.start }
    ensures { IsStart volume.now.state.rows asked.now dir.0 result }
{
    let skip = start(asked) as usize - 1;
    place_behind(volume, asked, dir, 0, skip)
}

/// Appends the entries of the children of a directory that count, from the child at a place on, as many as are asked and fit, and
/// answers how many these are. After an error, some of them may stand there.
fn fill(
    alloc: Global,
    volume: &Volume,
    opens: &VolumeOpens<'_>,
    asked: &ListAsked,
    dir: NodeId,
    first: usize,
    out: &mut Bytes,
) -> Result<u16, OutOfMemory>
    requires files { IsWithin file_mask asked.now.file_bits }
    requires dirs { IsWithin dir_mask asked.now.dir_bits }
    ensures count { IfOk result (λ count. count ≡ length (filled volume.now.state.rows (opened opens.now) asked.now dir.0 first list_head asked.now.count)) }
    ensures bytes { OnOk result (out.new ≡ out.old ++ bytes_of volume.now.state.rows (opened opens.now) asked.now (filled volume.now.state.rows (opened opens.now) asked.now dir.0 first list_head asked.now.count)) }
    ensures err { OnErr result (take (length out.old) out.new ≡ out.old) }
{
    volume.keeps_sound();
    let siblings = volume.siblings(dir);
    let most = most(asked);
    let mut used = LIST_HEAD;
    let mut count = 0;
    let mut i = first;
    while i < siblings.len() {
        if count == most {
            return Ok(count);
        }
        let child = &siblings[i];
        let node = node_at(volume, child.id);
        if is_counted(asked, node) {
            match put_entry(alloc, volume, opens, asked, node, used, out) {
                Ok(Some(more)) => {
                    used = more;
                    count += 1;
                    i += 1;
                }
                Ok(None) => return Ok(count),
                Err(error) => return Err(error),
            }
        } else {
            match place_behind(volume, asked, dir, i + 1, 0) {
                Some(next) => i = next,
                None => return Ok(count),
            }
        }
    }
    Ok(count)
}

/// Appends a list: the bits, how many entries there are, and the entries of the children of a directory from a place on, as many
/// as are asked and fit; and answers how many these are. After an error, any part of it may stand there.
fn put_list(
    alloc: Global,
    volume: &Volume,
    opens: &VolumeOpens<'_>,
    asked: &ListAsked,
    dir: NodeId,
    first: usize,
    out: &mut Bytes,
) -> Result<u16, OutOfMemory>
    requires files { IsWithin file_mask asked.now.file_bits }
    requires dirs { IsWithin dir_mask asked.now.dir_bits }
    ensures count { IfOk result (λ count. count ≡ length (filled volume.now.state.rows (opened opens.now) asked.now dir.0 first list_head asked.now.count)) }
    ensures bytes { OnOk result (out.new ≡ out.old ++ canonical_reply (list_reply volume.now.state.rows (opened opens.now) asked.now (filled volume.now.state.rows (opened opens.now) asked.now dir.0 first list_head asked.now.count))) }
    ensures err { OnErr result (take (length out.old) out.new ≡ out.old) }
{
    out.push_u16(asked.file_bits)?;
    out.push_u16(asked.dir_bits)?;
    let at = out.as_slice().len();
    out.push_u16(0)?;
    let count = fill(alloc, volume, opens, asked, dir, first, out)?;
    out.put_u16(at, count);
    Ok(count)
}

/// Appends the list of a node's children, or tells why it is refused. An error changes nothing.
fn list_of(
    alloc: Global,
    volume: &Volume,
    opens: &VolumeOpens<'_>,
    asked: &ListAsked,
    id: NodeId,
    out: &mut Bytes,
) -> Result<(), PlanFault>
    requires there { has_node volume.now.state.rows id.0 ≡ true }
    requires files { IsWithin file_mask asked.now.file_bits }
    requires dirs { IsWithin dir_mask asked.now.dir_bits }
    ensures refused { Refuses result (list_refusal volume.now.state (opened opens.now) asked.now id.0) }
    ensures ok { OnOk result (out.new ≡ out.old ++ canonical_reply (list_reply volume.now.state.rows (opened opens.now) asked.now (entries volume.now.state.rows (opened opens.now) asked.now id.0))) }
    ensures err { OnErr result (out.new ≡ out.old) }
{
    if !is_directory(volume, id) {
        return Err(PlanFault::Code(Code::ObjectTypeErr));
    }
    if volume.lacks(asked.user, READ_RIGHT, id) {
        return Err(PlanFault::Code(Code::AccessDenied));
    }
    if most(asked) == 0 || start(asked) == 0 {
        return Err(PlanFault::Code(Code::ParamErr));
    }
    let first = match start_place(volume, asked, id) {
        Some(first) => first,
        None => return Err(PlanFault::Code(Code::ObjectNotFound)),
    };
    let before = out.as_slice().len();
    match put_list(alloc, volume, opens, asked, id, first, out) {
        Ok(0) => {
            out.truncate(before);
            Err(PlanFault::Code(Code::ParamErr))
        }
        Ok(_) => Ok(()),
        Err(_) => {
            out.truncate(before);
            Err(PlanFault::Memory)
        }
    }
}

/// Appends the reply to FPEnumerate, FPEnumerateExt or FPEnumerateExt2, or tells why it is refused. `opens` tells which forks of
/// the volume are open. An error changes nothing.
#[tactic(auto, unfolding(volume_spec::specs::Enumerate::enumerate_refusal))]
pub fn list(
    alloc: Global,
    volume: &Volume,
    opens: &VolumeOpens<'_>,
    asked: &ListAsked,
    dir: NodeId,
    path: &Path,
    out: &mut Bytes,
) -> Result<(), PlanFault>
    ensures refused { Refuses result (enumerate_refusal volume.now.state (opened opens.now) asked.now dir.0 path.now) }
    ensures ok { OnOk result ((id : ℕ) → found volume.now.state.rows asked.now.user dir.0 path.now ≡ Ok id
        → out.new ≡ out.old ++ canonical_reply (list_reply volume.now.state.rows (opened opens.now) asked.now (entries volume.now.state.rows (opened opens.now) asked.now id))) }
    ensures err { OnErr result (out.new ≡ out.old) }
{
    rows_are_changed_in_place();
    volume.keeps_sound();
    if is_outside(FileBits::MASK, asked.file_bits) {
        return Err(PlanFault::Code(Code::BitmapErr));
    }
    if is_outside(DirBits::MASK, asked.dir_bits) {
        return Err(PlanFault::Code(Code::BitmapErr));
    }
    if asked.file_bits == 0 && asked.dir_bits == 0 {
        return Err(PlanFault::Code(Code::BitmapErr));
    }
    let id = match volume.resolve(alloc, asked.user, dir, path) {
        Ok(id) => id,
        Err(fault) => return Err(fault),
    };
    list_of(alloc, volume, opens, asked, id, out)
}
