//! Replies, written field by field.
ghost use Rattle.std.specs.Int.{w32, cast_unsigned};
ghost use Rattle.std.specs.Prelude.{◌≡◌, ◌∷◌, ◌++◌, ◌<◌, ◌^◌, ◌+◌, [], length, map, replicate, OnOk, OnErr};
ghost use Rattle.std.specs.List.{concat, AllByRecursion};
ghost use Rattle.afp_bitmap.specs.Bits.{IsWithin, file_mask, dir_mask, is_asked};
ghost use Rattle.afp_bitmap.specs.Params.{params};
ghost use Rattle.afp_bitmap.specs.Table.{kind_of};
ghost use Rattle.afp_replies.specs.Bytes.{u8_bytes, u16_bytes, u32_bytes, optional_bytes, pad_byte, with_count, flag_of, width};
ghost use Rattle.afp_replies.specs.Entry.{is_dir, bits_for, pad_count, node_params, entry_bytes, FitsEntry};
ghost use Rattle.afp_replies.specs.Numbers.{file_kind, utf8_bit};
ghost use Rattle.afp_replies.specs.Replies.{volume_bytes, message_bytes, canonical_reply, IsShown};
ghost use Rattle.afp_replies.specs.Fitting.{FitsVolume, FitsList};
ghost use Rattle.afp_base.specs.Appended.{Keeps};
ghost use Rattle.afp_replies.specs.lemma.Writing.{FitsParams, FitsNode, FitsMessage, CanWrite};

use crate::entry::{flag_of, put_entry_pad, put_length, put_place};
use crate::fields::{UTF8_BIT, put_text};
use crate::list::ListEntry;
use crate::reply::Reply;
use crate::volumes::VolumeEntry;
use afp_base::{Bytes, OutOfMemory};
use afp_bitmap::{Values, is_asked, put_params};

/// Appends a number of 4 bytes, where there is one.
fn put_optional(number: &Option<u32>, out: &mut Bytes) -> Result<(), OutOfMemory>
    ensures ok { OnOk result (out.new ≡ out.old ++ optional_bytes number.now) }
    ensures err { OnErr result (Keeps out.old out.new) }
{
    match number {
        None => Ok(()),
        Some(number) => out.push_u32(*number),
    }
}

/// Appends FPGetIconInfo's reply, with a pad of 0 between type and size.
fn put_icon_info(
    tag: u32,
    kind: &[u8; 4],
    icon_kind: u8,
    size: u16,
    out: &mut Bytes,
) -> Result<(), OutOfMemory>
    ensures ok { OnOk result (out.new ≡ out.old ++ concat (u32_bytes tag ∷ kind.now ∷ u8_bytes icon_kind ∷ pad_byte ∷ u16_bytes size ∷ [])) }
    ensures err { OnErr result (Keeps out.old out.new) }
{
    out.push_u32(tag)?;
    out.extend(kind)?;
    out.push_u8(icon_kind)?;
    out.push_u8(0)?;
    out.push_u16(size)
}

/// Appends FPGetUserInfo's reply, each ID where there is one.
fn put_user_info(
    bits: u16,
    id: &Option<u32>,
    group: &Option<u32>,
    out: &mut Bytes,
) -> Result<(), OutOfMemory>
    ensures ok { OnOk result (out.new ≡ out.old ++ concat (u16_bytes bits ∷ optional_bytes id.now ∷ optional_bytes group.now ∷ [])) }
    ensures err { OnErr result (Keeps out.old out.new) }
{
    out.push_u16(bits)?;
    put_optional(id, out)?;
    put_optional(group, out)
}

/// Appends FPGetSrvrMsg's reply: the message, where there is one, behind a count as wide as its
/// bitmap says.
fn put_message(
    kind: u16,
    bits: u16,
    message: &Option<Bytes>,
    out: &mut Bytes,
) -> Result<(), OutOfMemory>
    requires { FitsMessage (is_asked bits utf8_bit) message.now }
    ensures ok { OnOk result (out.new ≡ out.old ++ concat (u16_bytes kind ∷ u16_bytes bits ∷ message_bytes (is_asked bits utf8_bit) message.now ∷ [])) }
    ensures err { OnErr result (Keeps out.old out.new) }
{
    out.push_u16(kind)?;
    out.push_u16(bits)?;
    match message {
        None => Ok(()),
        Some(text) => put_text(is_asked(bits, UTF8_BIT), text.as_slice(), out),
    }
}

/// Appends FPGetSessionToken's reply: the token behind its length, which is below 2^32.
fn put_token(token: &[u8], out: &mut Bytes) -> Result<(), OutOfMemory>
    requires { length token.now < 256 ^ 4 }
    ensures ok { OnOk result (out.new ≡ out.old ++ with_count 4 token.now) }
    ensures err { OnErr result (Keeps out.old out.new) }
{
    out.push_u32(token.len() as u32)?;
    out.extend(token)
}

/// Appends a volume of FPGetSrvrParms. Its name has at most 255 bytes.
fn put_volume(volume: &VolumeEntry, out: &mut Bytes) -> Result<(), OutOfMemory>
    requires { FitsVolume volume.now }
    ensures ok { OnOk result (out.new ≡ out.old ++ volume_bytes volume.now) }
    ensures err { OnErr result (Keeps out.old out.new) }
{
    out.push_u8(volume.flags)?;
    put_text(false, volume.name.as_slice(), out)
}

/// The volumes of FPGetSrvrParms.
fn put_volumes(volumes: &[VolumeEntry], out: &mut Bytes) -> Result<(), OutOfMemory>
    requires { AllByRecursion FitsVolume volumes.now }
    ensures ok { OnOk result (out.new ≡ out.old ++ concat (map volume_bytes volumes.now)) }
    ensures err { OnErr result (Keeps out.old out.new) }
{
    for volume in volumes {
        put_volume(volume, out)?;
    }
    Ok(())
}

/// Appends FPGetSrvrParms's reply, with the number of volumes counted: at most 255.
fn put_server_params(time: i32, volumes: &[VolumeEntry], out: &mut Bytes) -> Result<(), OutOfMemory>
    requires few { length volumes.now < 256 ^ 1 }
    requires fits { AllByRecursion FitsVolume volumes.now }
    ensures ok { OnOk result (out.new ≡ out.old ++ concat (u32_bytes (cast_unsigned w32 time) ∷ u8_bytes (length volumes.now) ∷ map volume_bytes volumes.now)) }
    ensures err { OnErr result (Keeps out.old out.new) }
{
    out.push_u32(time.cast_unsigned())?;
    out.push_u8(volumes.len() as u8)?;
    put_volumes(volumes, out)
}

/// Appends the reply of FPOpenVol, FPGetVolParms, FPGetForkParms and FPResolveID: the bitmap, and
/// the values that it asks for.
fn put_block(bits: u16, values: &Values, out: &mut Bytes) -> Result<(), OutOfMemory>
    requires { FitsParams (kind_of values.now) bits values.now }
    ensures ok { OnOk result (out.new ≡ out.old ++ concat (u16_bytes bits ∷ params bits values.now ∷ [])) }
    ensures err { OnErr result (Keeps out.old out.new) }
{
    out.push_u16(bits)?;
    put_params(bits, values, out)
}

/// Appends FPOpenFork's reply; the reference number is 0 where a deny mode forbids it.
fn put_opened(
    bits: u16,
    reference: u16,
    values: &Values,
    out: &mut Bytes,
) -> Result<(), OutOfMemory>
    requires { FitsParams file_kind bits values.now }
    ensures ok { OnOk result (out.new ≡ out.old ++ concat (u16_bytes bits ∷ u16_bytes reference ∷ params bits values.now ∷ [])) }
    ensures err { OnErr result (Keeps out.old out.new) }
{
    out.push_u16(bits)?;
    out.push_u16(reference)?;
    put_params(bits, values, out)
}

/// Appends FPGetAPPL's reply: the bitmap, the tag, and the values that the bitmap asks for.
fn put_appl(bits: u16, tag: u32, values: &Values, out: &mut Bytes) -> Result<(), OutOfMemory>
    requires { FitsParams file_kind bits values.now }
    ensures ok { OnOk result (out.new ≡ out.old ++ concat (u16_bytes bits ∷ u32_bytes tag ∷ params bits values.now ∷ [])) }
    ensures err { OnErr result (Keeps out.old out.new) }
{
    out.push_u16(bits)?;
    out.push_u32(tag)?;
    put_params(bits, values, out)
}

/// Whether the values are a directory's.
fn is_dir(values: &Values) -> bool
    ensures { result ≡ is_dir values.now }
{
    match values {
        Values::Dir(_) => true,
        Values::File(_) => false,
        Values::Volume(_) => false,
    }
}

/// The bits that are asked of a directory or a file.
fn bits_for(dir: bool, file_bits: u16, dir_bits: u16) -> u16
    ensures { result ≡ bits_for dir file_bits dir_bits }
{
    if dir { dir_bits } else { file_bits }
}

/// Appends FPGetFileDirParms's reply: both bitmaps, the flag of what the values are of, a pad of 0,
/// the values.
fn put_file_dir_params(
    file_bits: u16,
    dir_bits: u16,
    values: &Values,
    out: &mut Bytes,
) -> Result<(), OutOfMemory>
    requires { FitsNode file_bits dir_bits values.now }
    ensures ok { OnOk result (out.new ≡ out.old ++ concat (u16_bytes file_bits ∷ u16_bytes dir_bits ∷ (flag_of (is_dir values.now) ∷ []) ∷ pad_byte ∷ node_params file_bits dir_bits values.now ∷ [])) }
    ensures err { OnErr result (Keeps out.old out.new) }
{
    let dir = is_dir(values);
    out.push_u16(file_bits)?;
    out.push_u16(dir_bits)?;
    out.push_u8(flag_of(dir))?;
    out.push_u8(0)?;
    put_params(bits_for(dir, file_bits, dir_bits), values, out)
}

/// An entry without its length: zeros in place of that, the flag, a pad and the parameters.
fn put_body(
    wide: bool,
    file_bits: u16,
    dir_bits: u16,
    entry: &ListEntry,
    out: &mut Bytes,
) -> Result<(), OutOfMemory>
    requires file { IsWithin file_mask file_bits }
    requires dir { IsWithin dir_mask dir_bits }
    requires fits { FitsEntry wide file_bits dir_bits entry.now }
    ensures ok { OnOk result (out.new ≡ out.old ++ replicate (width wide) 0
        ++ (flag_of (is_dir entry.now.values) ∷ []) ++ replicate (pad_count wide) 0 ++ node_params file_bits dir_bits entry.now.values) }
    ensures err { OnErr result (Keeps out.old out.new) }
{
    let dir = is_dir(&entry.values);
    put_place(wide, out)?;
    out.push_u8(flag_of(dir))?;
    put_entry_pad(wide, out)?;
    put_params(bits_for(dir, file_bits, dir_bits), &entry.values, out)
}

/// An entry of a list. Its length is written when its parameters stand there.
fn put_entry(
    wide: bool,
    file_bits: u16,
    dir_bits: u16,
    entry: &ListEntry,
    out: &mut Bytes,
) -> Result<(), OutOfMemory>
    requires file { IsWithin file_mask file_bits }
    requires dir { IsWithin dir_mask dir_bits }
    requires fits { FitsEntry wide file_bits dir_bits entry.now }
    ensures ok { OnOk result (out.new ≡ out.old ++ entry_bytes wide file_bits dir_bits entry.now) }
    ensures err { OnErr result (Keeps out.old out.new) }
{
    let start = out.as_slice().len();
    put_body(wide, file_bits, dir_bits, entry, out)?;
    let size = out.as_slice().len() - start;
    put_length(wide, start, size, out);
    Ok(())
}

/// The entries of a list.
fn put_entries(
    wide: bool,
    file_bits: u16,
    dir_bits: u16,
    rows: &[ListEntry],
    out: &mut Bytes,
) -> Result<(), OutOfMemory>
    requires file { IsWithin file_mask file_bits }
    requires dir { IsWithin dir_mask dir_bits }
    requires fits { AllByRecursion (FitsEntry wide file_bits dir_bits) rows.now }
    ensures ok { OnOk result (out.new ≡ out.old ++ concat (map (entry_bytes wide file_bits dir_bits) rows.now)) }
    ensures err { OnErr result (Keeps out.old out.new) }
{
    for entry in rows {
        put_entry(wide, file_bits, dir_bits, entry, out)?;
    }
    Ok(())
}

/// Appends the reply of FPEnumerate, and where it is wide of FPEnumerateExt and FPEnumerateExt2,
/// with the entries counted.
fn put_list(
    wide: bool,
    file_bits: u16,
    dir_bits: u16,
    rows: &[ListEntry],
    out: &mut Bytes,
) -> Result<(), OutOfMemory>
    requires { FitsList wide file_bits dir_bits rows.now }
    ensures ok { OnOk result (out.new ≡ out.old ++ concat (u16_bytes file_bits ∷ u16_bytes dir_bits ∷ u16_bytes (length rows.now) ∷ map (entry_bytes wide file_bits dir_bits) rows.now)) }
    ensures err { OnErr result (Keeps out.old out.new) }
{
    out.push_u16(file_bits)?;
    out.push_u16(dir_bits)?;
    out.push_u16(rows.len() as u16)?;
    put_entries(wide, file_bits, dir_bits, rows, out)
}

/// Appends the fields of a reply. After an error, any part of them may stand there.
fn put_reply(reply: &Reply, out: &mut Bytes) -> Result<(), OutOfMemory>
    requires { CanWrite reply.now }
    ensures ok { OnOk result (out.new ≡ out.old ++ canonical_reply reply.now) }
    ensures err { OnErr result (Keeps out.old out.new) }
{
    match reply {
        Reply::Empty => Ok(()),
        Reply::Start { start } => out.push_u32(*start),
        Reply::StartExt { start } => out.push_u64(*start),
        Reply::End { end } => out.push_u32(*end),
        Reply::EndExt { end } => out.push_u64(*end),
        Reply::Node { id } => out.push_u32(id.0),
        Reply::List {
            wide,
            file_bits,
            dir_bits,
            rows,
        } => put_list(*wide, *file_bits, *dir_bits, rows.as_slice(), out),
        Reply::Params { bits, values } => put_block(*bits, values, out),
        Reply::Status { block } => out.extend(block.as_slice()),
        Reply::ServerParams { time, volumes } => put_server_params(*time, volumes.as_slice(), out),
        Reply::MappedName { wide, name } => put_text(*wide, name.as_slice(), out),
        Reply::MappedId { id } => out.push_u32(*id),
        Reply::Opened {
            bits,
            reference,
            values,
        } => put_opened(*bits, reference.0, values, out),
        Reply::Piece { piece } => out.extend(piece.as_slice()),
        Reply::FileDirParams {
            file_bits,
            dir_bits,
            values,
        } => put_file_dir_params(*file_bits, *dir_bits, values, out),
        Reply::UserInfo { bits, id, group } => put_user_info(*bits, id, group, out),
        Reply::Message {
            kind,
            bits,
            message,
        } => put_message(*kind, *bits, message, out),
        Reply::Desk { dt } => out.push_u16(*dt),
        Reply::IconInfo {
            tag,
            kind,
            icon_kind,
            size,
        } => put_icon_info(*tag, kind, *icon_kind, *size, out),
        Reply::Appl { bits, tag, values } => put_appl(*bits, *tag, values, out),
        Reply::Comment { comment } => put_text(false, comment.as_slice(), out),
        Reply::Token { token } => put_token(token.as_slice(), out),
    }
}

/// Appends the bytes of a reply (AFP Reference, "AFP Calls"). All numbers are big-endian, and pads are
/// 0. An error changes nothing.
pub fn write_reply(reply: &Reply, out: &mut Bytes) -> Result<(), OutOfMemory>
    // Some bytes are the reply to some request: counts can hold its texts and lists, and its values
    // are those that its bits ask for.
    requires { IsShown reply.now }
    ensures ok { OnOk result (out.new ≡ out.old ++ canonical_reply reply.now) }
    ensures err { OnErr result (out.new ≡ out.old) }
{
    let start = out.as_slice().len();
    match put_reply(reply, out) {
        Ok(()) => Ok(()),
        Err(error) => {
            out.truncate(start);
            Err(error)
        }
    }
}
