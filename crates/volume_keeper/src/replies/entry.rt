//! An entry of a list.
ghost use Rattle.std.specs.Prelude.{◌≡◌, ◌++◌, ◌+◌, ◌≤◌, IfOk, OnOk, OnErr, length, min, replicate, take};
ghost use Rattle.afp_base.specs.Limits.{payload_limit};
ghost use Rattle.byteorder.specs.Endian.{big_bytes};
ghost use Rattle.afp_bitmap.specs.Bits.{IsWithin, file_mask, dir_mask};
ghost use Rattle.afp_bitmap.specs.Params.{params};
ghost use Rattle.afp_replies.specs.Bytes.{flag_of, width};
ghost use Rattle.afp_replies.specs.Entry.{pad_count};
ghost use Rattle.volume_spec.specs.Enumerate.{longest_entry};
ghost use Rattle.volume_spec.specs.NodeValues.{bits_of, node_values};
ghost use Rattle.volume_spec.specs.VolumeState.{Row};
ghost use Rattle.volume_keeper.specs.replies.lemma.Filling.{IsPut, can_follow};
ghost use Rattle.volume_tree.specs.Shown.{IsNode, IsRowOf, opened};

use crate::replies::list_asked::ListAsked;
use crate::replies::node::{is_dir, put_node};
use afp_base::{Bytes, MAX_PAYLOAD, OutOfMemory};
use afp_replies::{flag_of, put_entry_pad, put_length, put_place};
use deny_modes::VolumeOpens;
use node_rows::Node;
use std::alloc::Global;
use volume_tree::Volume;

/// The most bytes of an entry: what its length can tell (AFP Reference, "FPEnumerate", "FPEnumerateExt").
fn longest_entry(wide: bool) -> usize
    ensures { result ≡ longest_entry wide }
{
    if wide { 65_535 } else { 255 }
}

/// How many bytes a list may have.
fn most_bytes(asked: &ListAsked) -> usize
    ensures { result ≡ min asked.now.size payload_limit }
{
    asked.size.min(MAX_PAYLOAD) as usize
}

/// Whether an entry of this size can be the next one, behind `used` bytes.
fn can_follow(asked: &ListAsked, used: usize, size: usize) -> bool
    requires { used ≤ payload_limit }
    ensures { result ≡ can_follow asked.now used size }
{
    size <= longest_entry(asked.wide) && used + size <= most_bytes(asked)
}

/// An entry without its length: zeros in place of that, the flag, a pad and the parameters. After an error, any part of them may
/// stand there.
fn put_body(
    alloc: Global,
    volume: &Volume,
    opens: &VolumeOpens<'_>,
    asked: &ListAsked,
    node: &Node,
    out: &mut Bytes,
) -> Result<(), OutOfMemory>
    requires files { IsWithin file_mask asked.now.file_bits }
    requires dirs { IsWithin dir_mask asked.now.dir_bits }
    requires node { IsNode volume.now.state.rows node.now }
    ensures ok { OnOk result ((row : Row) → IsRowOf volume.now.state.rows node.now row
        → out.new ≡ out.old ++ replicate (width asked.now.wide) 0 ++ big_bytes 1 (flag_of row.dir) ++ replicate (pad_count asked.now.wide) 0
        ++ params (bits_of asked.now.file_bits asked.now.dir_bits row) (node_values volume.now.state.rows asked.now.user (opened opens.now) asked.now.file_bits asked.now.dir_bits row)) }
    ensures err { OnErr result (take (length out.old) out.new ≡ out.old) }
{
    put_place(asked.wide, out)?;
    out.push_u8(flag_of(is_dir(node)))?;
    put_entry_pad(asked.wide, out)?;
    put_node(
        alloc,
        volume,
        asked.user,
        node,
        opens,
        asked.file_bits,
        asked.dir_bits,
        out,
    )
}

/// Appends the entry of a node where it fits behind `used` bytes of a list, and answers how many there are then; `None` where it
/// does not fit. An error changes nothing.
pub(crate) fn put_entry(
    alloc: Global,
    volume: &Volume,
    opens: &VolumeOpens<'_>,
    asked: &ListAsked,
    node: &Node,
    used: usize,
    out: &mut Bytes,
) -> Result<Option<usize>, OutOfMemory>
    requires files { IsWithin file_mask asked.now.file_bits }
    requires dirs { IsWithin dir_mask asked.now.dir_bits }
    requires used { used ≤ payload_limit }
    requires node { IsNode volume.now.state.rows node.now }
    ensures ok { IfOk result (λ put. (row : Row) → IsRowOf volume.now.state.rows node.now row → IsPut volume.now.state.rows (opened opens.now) asked.now row used out.old out.new put) }
    ensures err { OnErr result (out.new ≡ out.old) }
{
    let before = out.as_slice().len();
    match put_body(alloc, volume, opens, asked, node, out) {
        Ok(()) => {}
        Err(error) => {
            out.truncate(before);
            return Err(error);
        }
    }
    let size = out.as_slice().len() - before;
    if !can_follow(asked, used, size) {
        out.truncate(before);
        return Ok(None);
    }
    put_length(asked.wide, before, size, out);
    Ok(Some(used + size))
}
