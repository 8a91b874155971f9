//! Numbers and bytes of fields.
ghost use Rattle.std.specs.Prelude.{◌≡◌, ◌≤◌, ◌<◌, ◌^◌, ◌++◌, length, OnOk, OnErr};
ghost use Rattle.afp_replies.specs.Entry.{head_size};
ghost use Rattle.afp_replies.specs.Bytes.{with_count, width};
ghost use Rattle.afp_base.specs.Appended.{Keeps};

use afp_base::{Bytes, OutOfMemory};

/// The flag of a directory (AFP Reference, "FPGetFileDirParms"). That of a file is 0.
pub(crate) const DIRECTORY_FLAG: u8 = 0x80;

/// The kinds of parameters.
pub(crate) const VOLUME: u8 = 0;

pub(crate) const FILE: u8 = 1;

pub(crate) const DIR: u8 = 2;

/// The bits that may be asked of a user (AFP Reference, "FPGetUserInfo").
pub(crate) const USER_INFO_MASK: u16 = 0x0003;

pub(crate) const USER_ID_BIT: u32 = 0;

pub(crate) const GROUP_ID_BIT: u32 = 1;

/// The bits that may be asked of a message (AFP Reference, "FPGetSrvrMsg"): the message, and its count
/// in 2 bytes.
pub(crate) const MESSAGE_MASK: u16 = 0x0003;

pub(crate) const MESSAGE_BIT: u32 = 0;

pub(crate) const UTF8_BIT: u32 = 1;

/// How many bytes a count or a length has.
pub(crate) fn width(wide: bool) -> usize
    ensures value { result ≡ width wide }
    ensures some { 1 ≤ result }
    ensures few { result ≤ 2 }
{
    if wide { 2 } else { 1 }
}

/// How many bytes of an entry stand before its parameters: length, flag, and in a wide list a pad.
pub(crate) fn head_size(wide: bool) -> usize
    ensures value { result ≡ head_size wide }
    ensures few { result ≤ 4 }
{
    if wide { 4 } else { 2 }
}

/// Appends a text with its count in 1 byte, or in 2 where it is wide.
pub(crate) fn put_text(wide: bool, text: &[u8], out: &mut Bytes) -> Result<(), OutOfMemory>
    requires { length text.now < 256 ^ width wide }
    ensures ok { OnOk result (out.new ≡ out.old ++ with_count (width wide) text.now) }
    ensures err { OnErr result (Keeps out.old out.new) }
{
    if wide {
        out.push_u16(text.len() as u16)?;
    } else {
        out.push_u8(text.len() as u8)?;
    }
    out.extend(text)
}
