//! Replies, read by their layouts.
ghost use Rattle.std.specs.Prelude.{◌≡◌, ◌≤◌, []};
ghost use Rattle.afp_bitmap.specs.Bits.{IsWithin, mask_of, file_mask, dir_mask};
ghost use Rattle.afp_replies.specs.Layouts as layouts;
ghost use Rattle.afp_replies.specs.lemma.Reading.{IsRead, ReadsPart};

use crate::commands::{
    GROUP_ID_TO_NAME, GROUP_ID_TO_UTF8_NAME, USER_ID_TO_NAME, USER_ID_TO_UTF8_NAME,
};
use crate::cursor::Cursor;
use crate::fields::{
    DIR, FILE, GROUP_ID_BIT, MESSAGE_BIT, MESSAGE_MASK, USER_ID_BIT, USER_INFO_MASK, UTF8_BIT,
};
use crate::list::ListRows;
use crate::reply::{Reply, ReplyFault};
use crate::volumes::{VolumeEntry, VolumeList};
use afp_base::{ForkRef, NodeId};
use afp_bitmap::{DirBits, FileBits, is_asked};
use std::alloc::Global;

/// No bytes.
pub(crate) fn read_empty(cursor: Cursor<'_>) -> Result<Reply, ReplyFault>
    ensures { IsRead layouts.empty cursor.entry result }
{
    cursor.done()?;
    Ok(Reply::Empty)
}

/// Reads FPByteRangeLock's reply: start of the range (4).
pub(crate) fn read_start(mut cursor: Cursor<'_>) -> Result<Reply, ReplyFault>
    ensures { IsRead layouts.start cursor.entry result }
{
    let start = cursor.u32()?;
    cursor.done()?;
    Ok(Reply::Start { start })
}

/// Reads FPByteRangeLockExt's reply: start of the range (8).
pub(crate) fn read_start_ext(mut cursor: Cursor<'_>) -> Result<Reply, ReplyFault>
    ensures { IsRead layouts.start_ext cursor.entry result }
{
    let start = cursor.u64()?;
    cursor.done()?;
    Ok(Reply::StartExt { start })
}

/// Reads FPWrite's reply: last written, the place behind the last byte (4).
pub(crate) fn read_end(mut cursor: Cursor<'_>) -> Result<Reply, ReplyFault>
    ensures { IsRead layouts.end cursor.entry result }
{
    let end = cursor.u32()?;
    cursor.done()?;
    Ok(Reply::End { end })
}

/// Reads FPWriteExt's reply: last written, the place behind the last byte (8).
pub(crate) fn read_end_ext(mut cursor: Cursor<'_>) -> Result<Reply, ReplyFault>
    ensures { IsRead layouts.end_ext cursor.entry result }
{
    let end = cursor.u64()?;
    cursor.done()?;
    Ok(Reply::EndExt { end })
}

/// Reads the reply of FPCreateDir and FPOpenDir, directory ID (4), and of FPCreateID, file ID (4).
pub(crate) fn read_node(mut cursor: Cursor<'_>) -> Result<Reply, ReplyFault>
    ensures { IsRead layouts.node cursor.entry result }
{
    let id = cursor.u32()?;
    cursor.done()?;
    Ok(Reply::Node { id: NodeId(id) })
}

/// Reads FPOpenDT's reply: desktop database reference number (2).
pub(crate) fn read_desk(mut cursor: Cursor<'_>) -> Result<Reply, ReplyFault>
    ensures { IsRead layouts.desk cursor.entry result }
{
    let dt = cursor.u16()?;
    cursor.done()?;
    Ok(Reply::Desk { dt })
}

/// Reads FPMapName's reply: ID (4).
pub(crate) fn read_mapped_id(mut cursor: Cursor<'_>) -> Result<Reply, ReplyFault>
    ensures { IsRead layouts.mapped_id cursor.entry result }
{
    let id = cursor.u32()?;
    cursor.done()?;
    Ok(Reply::MappedId { id })
}

/// Reads the reply of FPRead and FPReadExt, fork data, and of FPGetIcon, the icon's bitmap: all
/// bytes.
pub(crate) fn read_piece(alloc: Global, cursor: Cursor<'_>) -> Result<Reply, ReplyFault>
    ensures { IsRead layouts.piece cursor.entry result }
{
    let piece = cursor.remaining(alloc)?;
    Ok(Reply::Piece { piece })
}

/// Reads FPGetSrvrInfo's reply: the status block, all bytes.
pub(crate) fn read_status(alloc: Global, cursor: Cursor<'_>) -> Result<Reply, ReplyFault>
    ensures { IsRead layouts.status cursor.entry result }
{
    let block = cursor.remaining(alloc)?;
    Ok(Reply::Status { block })
}

/// Reads FPGetSessionToken's reply: token length (4), token.
pub(crate) fn read_token(alloc: Global, mut cursor: Cursor<'_>) -> Result<Reply, ReplyFault>
    ensures { IsRead layouts.token cursor.entry result }
{
    let token = cursor.counted(alloc, 4)?;
    cursor.done()?;
    Ok(Reply::Token { token })
}

/// Reads FPGetComment's reply: comment (Pascal string).
pub(crate) fn read_comment(alloc: Global, mut cursor: Cursor<'_>) -> Result<Reply, ReplyFault>
    ensures { IsRead layouts.comment cursor.entry result }
{
    let comment = cursor.counted(alloc, 1)?;
    cursor.done()?;
    Ok(Reply::Comment { comment })
}

/// Reads FPGetIconInfo's reply: icon tag (4), file type (4), icon type (1), pad, size (2).
pub(crate) fn read_icon_info(mut cursor: Cursor<'_>) -> Result<Reply, ReplyFault>
    ensures { IsRead layouts.icon_info cursor.entry result }
{
    let tag = cursor.u32()?;
    let kind = cursor.raw4()?;
    let icon_kind = cursor.u8()?;
    cursor.pad()?;
    let size = cursor.u16()?;
    cursor.done()?;
    Ok(Reply::IconInfo {
        tag,
        kind,
        icon_kind,
        size,
    })
}

/// Whether the name that a function of FPMapID answers has a wide count.
#[tactic(auto, unfolding(crate::specs::Layouts::is_wide))]
fn is_wide(function: u16) -> Option<bool>
    ensures { result ≡ layouts.is_wide function }
{
    if function == USER_ID_TO_NAME || function == GROUP_ID_TO_NAME {
        Some(false)
    } else if function == USER_ID_TO_UTF8_NAME || function == GROUP_ID_TO_UTF8_NAME {
        Some(true)
    } else {
        None
    }
}

/// Reads the name of FPMapID's reply: count (1, or 2 where it is wide), bytes.
fn read_name(alloc: Global, wide: bool, mut cursor: Cursor<'_>) -> Result<Reply, ReplyFault>
    ensures { IsRead (layouts.name wide) cursor.entry result }
{
    let name = cursor.text(alloc, wide)?;
    cursor.done()?;
    Ok(Reply::MappedName { wide, name })
}

/// Reads FPMapID's reply: name (count 1 with subfunctions 1 and 2, count 2 with 3 and 4; bytes). No
/// other subfunction has one.
pub(crate) fn read_mapped_name(
    alloc: Global,
    function: u16,
    cursor: Cursor<'_>,
) -> Result<Reply, ReplyFault>
    ensures { IsRead (layouts.mapped_name function) cursor.entry result }
{
    match is_wide(function) {
        None => Err(cursor.bad()),
        Some(wide) => read_name(alloc, wide, cursor),
    }
}

/// Reads FPGetUserInfo's reply: bitmap (2; the one asked), user ID (4; where bit 0 is asked), group
/// ID (4; where bit 1 is asked).
pub(crate) fn read_user_info(bits: u16, mut cursor: Cursor<'_>) -> Result<Reply, ReplyFault>
    ensures { IsRead (layouts.user_info bits) cursor.entry result }
{
    cursor.asked(USER_INFO_MASK, bits)?;
    let id = cursor.optional(is_asked(bits, USER_ID_BIT))?;
    let group = cursor.optional(is_asked(bits, GROUP_ID_BIT))?;
    cursor.done()?;
    Ok(Reply::UserInfo { bits, id, group })
}

/// Reads FPGetSrvrMsg's reply: message type (2), message bitmap (2; the one asked), message (where
/// bit 0 is asked; count 1, or 2 where bit 1 is asked; bytes).
pub(crate) fn read_message(
    alloc: Global,
    bits: u16,
    mut cursor: Cursor<'_>,
) -> Result<Reply, ReplyFault>
    ensures { IsRead (layouts.message bits) cursor.entry result }
{
    let kind = cursor.u16()?;
    cursor.asked(MESSAGE_MASK, bits)?;
    let message = cursor.optional_text(
        alloc,
        is_asked(bits, UTF8_BIT),
        is_asked(bits, MESSAGE_BIT),
    )?;
    cursor.done()?;
    Ok(Reply::Message {
        kind,
        bits,
        message,
    })
}

/// Reads a volume of FPGetSrvrParms: flags (1), volume name (Pascal string).
fn read_volume(alloc: Global, cursor: &mut Cursor<'_>) -> Result<VolumeEntry, ReplyFault>
    ensures { ReadsPart layouts.volume cursor.old result cursor.new }
{
    let flags = cursor.u8()?;
    let name = cursor.counted(alloc, 1)?;
    Ok(VolumeEntry { flags, name })
}

/// So many volumes of FPGetSrvrParms.
fn read_volumes(alloc: Global, count: u8, cursor: &mut Cursor<'_>) -> Result<VolumeList, ReplyFault>
    ensures { ReadsPart (layouts.volumes count []) cursor.old result cursor.new }
{
    let mut volumes = VolumeList::new(alloc);
    for _i in 0..count {
        let volume = read_volume(alloc, cursor)?;
        volumes.push(volume)?;
    }
    Ok(volumes)
}

/// Reads FPGetSrvrParms's reply: server time (4, signed), number of volumes (1), the volumes.
pub(crate) fn read_server_params(alloc: Global, mut cursor: Cursor<'_>) -> Result<Reply, ReplyFault>
    ensures { IsRead layouts.server_params cursor.entry result }
{
    let time = cursor.u32()?;
    let count = cursor.u8()?;
    let volumes = read_volumes(alloc, count, &mut cursor)?;
    cursor.done()?;
    Ok(Reply::ServerParams {
        time: time.cast_signed(),
        volumes,
    })
}

/// Reads the reply of FPOpenVol and FPGetVolParms (of a volume), FPGetForkParms and FPResolveID (of
/// a file): bitmap (2; the one asked, within the mask of the kind), parameters.
pub(crate) fn read_params(
    alloc: Global,
    kind: u8,
    mask: u16,
    bits: u16,
    mut cursor: Cursor<'_>,
) -> Result<Reply, ReplyFault>
    requires kind { kind ≤ 2 }
    requires mask { mask ≡ mask_of kind }
    ensures { IsRead (layouts.params kind bits) cursor.entry result }
{
    cursor.asked(mask, bits)?;
    let values = cursor.params(alloc, kind, bits)?;
    Ok(Reply::Params { bits, values })
}

/// Reads FPOpenFork's reply: bitmap (2; the one asked), open fork reference number (2), parameters
/// of the file.
pub(crate) fn read_opened(
    alloc: Global,
    bits: u16,
    mut cursor: Cursor<'_>,
) -> Result<Reply, ReplyFault>
    ensures { IsRead (layouts.opened bits) cursor.entry result }
{
    cursor.asked(FileBits::MASK, bits)?;
    let reference = ForkRef(cursor.u16()?);
    let values = cursor.params(alloc, FILE, bits)?;
    Ok(Reply::Opened {
        bits,
        reference,
        values,
    })
}

/// Reads FPOpenFork's reply where a deny mode forbids it: bitmap (2; the one asked), 0 (2),
/// parameters of the file.
pub(crate) fn read_denied(
    alloc: Global,
    bits: u16,
    mut cursor: Cursor<'_>,
) -> Result<Reply, ReplyFault>
    ensures { IsRead (layouts.denied_params bits) cursor.entry result }
{
    cursor.asked(FileBits::MASK, bits)?;
    cursor.exactly(0)?;
    let values = cursor.params(alloc, FILE, bits)?;
    Ok(Reply::Opened {
        bits,
        reference: ForkRef(0),
        values,
    })
}

/// The parameters of FPGetFileDirParms, of a directory or a file.
fn read_node_params(
    alloc: Global,
    dir: bool,
    file_bits: u16,
    dir_bits: u16,
    cursor: Cursor<'_>,
) -> Result<Reply, ReplyFault>
    requires file { IsWithin file_mask file_bits }
    requires dir { IsWithin dir_mask dir_bits }
    ensures { IsRead (layouts.node_params_layout dir file_bits dir_bits) cursor.entry result }
{
    if dir {
        let values = cursor.params(alloc, DIR, dir_bits)?;
        Ok(Reply::FileDirParams {
            file_bits,
            dir_bits,
            values,
        })
    } else {
        let values = cursor.params(alloc, FILE, file_bits)?;
        Ok(Reply::FileDirParams {
            file_bits,
            dir_bits,
            values,
        })
    }
}

/// Reads FPGetFileDirParms's reply: file bitmap (2), directory bitmap (2; both as asked), flag (1;
/// 0x80 directory, 0 file), pad, parameters by the bitmap of its kind.
pub(crate) fn read_file_dir_params(
    alloc: Global,
    file_bits: u16,
    dir_bits: u16,
    mut cursor: Cursor<'_>,
) -> Result<Reply, ReplyFault>
    ensures { IsRead (layouts.file_dir_params file_bits dir_bits) cursor.entry result }
{
    cursor.asked(FileBits::MASK, file_bits)?;
    cursor.asked(DirBits::MASK, dir_bits)?;
    let dir = cursor.flag()?;
    cursor.pad()?;
    read_node_params(alloc, dir, file_bits, dir_bits, cursor)
}

/// Reads FPGetAPPL's reply: bitmap (2; the one asked), APPL tag (4), parameters of the file.
pub(crate) fn read_appl(
    alloc: Global,
    bits: u16,
    mut cursor: Cursor<'_>,
) -> Result<Reply, ReplyFault>
    ensures { IsRead (layouts.appl bits) cursor.entry result }
{
    cursor.asked(FileBits::MASK, bits)?;
    let tag = cursor.u32()?;
    let values = cursor.params(alloc, FILE, bits)?;
    Ok(Reply::Appl { bits, tag, values })
}

/// Reads so many entries, each: length (1, or 2 where they are wide), flag (1; 0x80 directory, 0
/// file), a pad where they are wide, parameters.
fn read_entries(
    alloc: Global,
    wide: bool,
    file_bits: u16,
    dir_bits: u16,
    count: u16,
    cursor: &mut Cursor<'_>,
) -> Result<ListRows, ReplyFault>
    requires file { IsWithin file_mask file_bits }
    requires dir { IsWithin dir_mask dir_bits }
    ensures { ReadsPart (layouts.entries wide file_bits dir_bits count []) cursor.old result cursor.new }
{
    let mut rows = ListRows::new(alloc);
    for _i in 0..count {
        let entry = cursor.entry(alloc, wide, file_bits, dir_bits)?;
        rows.push(entry)?;
    }
    Ok(rows)
}

/// Reads the reply of FPEnumerate, and where it is wide of FPEnumerateExt and FPEnumerateExt2: file
/// bitmap (2), directory bitmap (2; both as asked), actual count (2), the entries.
pub(crate) fn read_list(
    alloc: Global,
    wide: bool,
    file_bits: u16,
    dir_bits: u16,
    mut cursor: Cursor<'_>,
) -> Result<Reply, ReplyFault>
    ensures { IsRead (layouts.list wide file_bits dir_bits) cursor.entry result }
{
    cursor.asked(FileBits::MASK, file_bits)?;
    cursor.asked(DirBits::MASK, dir_bits)?;
    let count = cursor.u16()?;
    let rows = read_entries(alloc, wide, file_bits, dir_bits, count, &mut cursor)?;
    cursor.done()?;
    Ok(Reply::List {
        wide,
        file_bits,
        dir_bits,
        rows,
    })
}
