//! The requests about icons (AFP Reference, "Desktop Database Commands").

ghost use Rattle.std.specs.Prelude.{length, OnOk, OnErr, []};
ghost use Rattle.afp_calls_grammar.specs.grammar.Icon.{add_icon, add_icon_reader, get_icon, get_icon_reader, get_icon_info, get_icon_info_reader};
ghost use Rattle.afp_calls_grammar.specs.fields.lemma.Taking.{Gives};
ghost use Rattle.afp_base.specs.Appended.{Keeps};
ghost use Rattle.afp_calls_grammar.specs.fields.Putting.{PutsAll};

use afp_base::{Bytes, OutOfMemory};
use afp_calls_grammar::grammar::commands::{ADD_ICON, GET_ICON, GET_ICON_INFO};
use afp_calls_grammar::{
    Call, Fields, ReadFault, put_bytes, put_command, put_pad, put_u8, put_u16, put_u32,
};

/// Reads 192 FPAddIcon: pad, desktop database reference number (2), file creator (4), file type (4),
/// icon type (1), pad, icon tag (4), bitmap size (2). Enclosed: the icon's bitmap, of that size.
pub(crate) fn read_add_icon<'a>(fields: &mut Fields<'a>) -> Result<Call<'a>, ReadFault>
    ensures { Gives add_icon_reader fields.old result }
{
    fields.pad()?;
    let dt = fields.u16()?;
    let creator = fields.four()?;
    let kind = fields.four()?;
    let icon_kind = fields.u8()?;
    fields.pad()?;
    let tag = fields.u32()?;
    let size = fields.u16()?;
    let piece = fields.enclosed(u64::from(size))?;
    Ok(Call::AddIcon {
        dt,
        creator,
        kind,
        icon_kind,
        tag,
        size,
        piece,
    })
}

/// Writes FPAddIcon: 192 and these fields, pads as 0. The bitmap is not in the block: it goes
/// enclosed.
pub(crate) fn write_add_icon(
    out: &mut Bytes,
    dt: u16,
    creator: &[u8; 4],
    kind: &[u8; 4],
    icon_kind: u8,
    tag: u32,
    size: u16,
) -> Result<(), OutOfMemory>
    ensures put { OnOk result
        (PutsAll (add_icon dt creator.now kind.now icon_kind tag size []).fields out.old out.new) }
    ensures err { OnErr result (Keeps out.old out.new) }
{
    put_command(out, ADD_ICON)?;
    put_pad(out)?;
    put_u16(out, dt)?;
    put_bytes(out, creator)?;
    put_bytes(out, kind)?;
    put_u8(out, icon_kind)?;
    put_pad(out)?;
    put_u32(out, tag)?;
    put_u16(out, size)
}

/// Reads 51 FPGetIcon: pad, desktop database reference number (2), file creator (4), file type (4),
/// icon type (1), pad, length (2).
pub(crate) fn read_get_icon<'a>(fields: &mut Fields<'a>) -> Result<Call<'a>, ReadFault>
    ensures { Gives get_icon_reader fields.old result }
{
    fields.pad()?;
    let dt = fields.u16()?;
    let creator = fields.four()?;
    let kind = fields.four()?;
    let icon_kind = fields.u8()?;
    fields.pad()?;
    let length = fields.u16()?;
    fields.alone()?;
    Ok(Call::GetIcon {
        dt,
        creator,
        kind,
        icon_kind,
        length,
    })
}

/// Writes FPGetIcon: 51 and these fields, pads as 0.
pub(crate) fn write_get_icon(
    out: &mut Bytes,
    dt: u16,
    creator: &[u8; 4],
    kind: &[u8; 4],
    icon_kind: u8,
    length: u16,
) -> Result<(), OutOfMemory>
    ensures put { OnOk result
        (PutsAll (get_icon dt creator.now kind.now icon_kind length).fields out.old out.new) }
    ensures err { OnErr result (Keeps out.old out.new) }
{
    put_command(out, GET_ICON)?;
    put_pad(out)?;
    put_u16(out, dt)?;
    put_bytes(out, creator)?;
    put_bytes(out, kind)?;
    put_u8(out, icon_kind)?;
    put_pad(out)?;
    put_u16(out, length)
}

/// Reads 52 FPGetIconInfo: pad, desktop database reference number (2), file creator (4), icon index
/// (2).
pub(crate) fn read_get_icon_info<'a>(fields: &mut Fields<'a>) -> Result<Call<'a>, ReadFault>
    ensures { Gives get_icon_info_reader fields.old result }
{
    fields.pad()?;
    let dt = fields.u16()?;
    let creator = fields.four()?;
    let index = fields.u16()?;
    fields.alone()?;
    Ok(Call::GetIconInfo { dt, creator, index })
}

/// Writes FPGetIconInfo: 52 and these fields, the pad as 0.
pub(crate) fn write_get_icon_info(
    out: &mut Bytes,
    dt: u16,
    creator: &[u8; 4],
    index: u16,
) -> Result<(), OutOfMemory>
    ensures put { OnOk result (PutsAll (get_icon_info dt creator.now index).fields out.old out.new) }
    ensures err { OnErr result (Keeps out.old out.new) }
{
    put_command(out, GET_ICON_INFO)?;
    put_pad(out)?;
    put_u16(out, dt)?;
    put_bytes(out, creator)?;
    put_u16(out, index)
}
