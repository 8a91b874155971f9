//! The requests about comments (AFP Reference, "Desktop Database Commands").

ghost use Rattle.std.specs.Prelude.{◌<◌, length, OnOk, OnErr};
ghost use Rattle.afp_calls_grammar.specs.grammar.Comment.{add_comment, add_comment_reader, remove_comment, remove_comment_reader, get_comment, get_comment_reader};
ghost use Rattle.afp_calls_grammar.specs.fields.lemma.Taking.{Gives};
ghost use Rattle.afp_base.specs.Appended.{Keeps};
ghost use Rattle.afp_calls_grammar.specs.fields.Putting.{PutsAll};

use afp_base::{Bytes, NodeId, OutOfMemory};
use afp_calls_grammar::grammar::commands::{ADD_COMMENT, GET_COMMENT, REMOVE_COMMENT};
use afp_calls_grammar::{
    Call, Fields, ReadFault, put_command, put_even, put_pad, put_path, put_str, put_u16, put_u32,
};
use afp_names::Path;
use std::alloc::Global;

/// Reads 56 FPAddComment: pad, desktop database reference number (2), directory ID (4), pathname,
/// pad to even, comment (Pascal string).
pub(crate) fn read_add_comment<'a>(
    alloc: Global,
    fields: &mut Fields<'a>,
) -> Result<Call<'a>, ReadFault>
    ensures { Gives add_comment_reader fields.old result }
{
    fields.pad()?;
    let dt = fields.u16()?;
    let dir = NodeId(fields.u32()?);
    let path = fields.path(alloc)?;
    fields.even()?;
    let comment = fields.str(alloc)?;
    fields.alone()?;
    Ok(Call::AddComment {
        dt,
        dir,
        path,
        comment,
    })
}

/// Writes FPAddComment: 56 and these fields, pads as 0. An even place is counted from the 56, and
/// the comment has at most 255 bytes.
pub(crate) fn write_add_comment(
    alloc: Global,
    out: &mut Bytes,
    dt: u16,
    dir: NodeId,
    path: &Path,
    comment: &Bytes,
) -> Result<(), OutOfMemory>
    requires { length comment.now < 256 }
    ensures put { OnOk result
        (PutsAll (add_comment dt dir path.now comment.now).fields out.old out.new) }
    ensures err { OnErr result (Keeps out.old out.new) }
{
    let start = out.as_slice().len();
    put_command(out, ADD_COMMENT)?;
    put_pad(out)?;
    put_u16(out, dt)?;
    put_u32(out, dir.0)?;
    put_path(alloc, out, path)?;
    put_even(out, start)?;
    put_str(out, comment.as_slice())
}

/// Reads 57 FPRemoveComment: pad, desktop database reference number (2), directory ID (4),
/// pathname.
pub(crate) fn read_remove_comment<'a>(
    alloc: Global,
    fields: &mut Fields<'a>,
) -> Result<Call<'a>, ReadFault>
    ensures { Gives remove_comment_reader fields.old result }
{
    fields.pad()?;
    let dt = fields.u16()?;
    let dir = NodeId(fields.u32()?);
    let path = fields.path(alloc)?;
    fields.alone()?;
    Ok(Call::RemoveComment { dt, dir, path })
}

/// Writes FPRemoveComment: 57 and these fields, the pad as 0.
pub(crate) fn write_remove_comment(
    alloc: Global,
    out: &mut Bytes,
    dt: u16,
    dir: NodeId,
    path: &Path,
) -> Result<(), OutOfMemory>
    ensures put { OnOk result (PutsAll (remove_comment dt dir path.now).fields out.old out.new) }
    ensures err { OnErr result (Keeps out.old out.new) }
{
    put_command(out, REMOVE_COMMENT)?;
    put_pad(out)?;
    put_u16(out, dt)?;
    put_u32(out, dir.0)?;
    put_path(alloc, out, path)
}

/// Reads 58 FPGetComment: pad, desktop database reference number (2), directory ID (4), pathname.
pub(crate) fn read_get_comment<'a>(
    alloc: Global,
    fields: &mut Fields<'a>,
) -> Result<Call<'a>, ReadFault>
    ensures { Gives get_comment_reader fields.old result }
{
    fields.pad()?;
    let dt = fields.u16()?;
    let dir = NodeId(fields.u32()?);
    let path = fields.path(alloc)?;
    fields.alone()?;
    Ok(Call::GetComment { dt, dir, path })
}

/// Writes FPGetComment: 58 and these fields, the pad as 0.
pub(crate) fn write_get_comment(
    alloc: Global,
    out: &mut Bytes,
    dt: u16,
    dir: NodeId,
    path: &Path,
) -> Result<(), OutOfMemory>
    ensures put { OnOk result (PutsAll (get_comment dt dir path.now).fields out.old out.new) }
    ensures err { OnErr result (Keeps out.old out.new) }
{
    put_command(out, GET_COMMENT)?;
    put_pad(out)?;
    put_u16(out, dt)?;
    put_u32(out, dir.0)?;
    put_path(alloc, out, path)
}
