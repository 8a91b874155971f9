//! Replies.
use crate::list::ListRows;
use crate::volumes::VolumeList;
use afp_base::{Bytes, ForkRef, NodeId, OutOfMemory};
use afp_bitmap::Values;
use thiserror::Error;

/// The reply to a request (AFP Reference, "AFP Calls").
#[derive(Drop)]
pub enum Reply {
    /// No bytes: many calls answer so, and every refusal but two.
    Empty,
    /// FPByteRangeLock: the first byte that was locked or unlocked.
    Start {
        start: u32,
    },
    /// FPByteRangeLockExt: the same.
    StartExt {
        start: u64,
    },
    /// FPWrite: the place behind the last byte written.
    End {
        end: u32,
    },
    /// FPWriteExt: the same.
    EndExt {
        end: u64,
    },
    /// FPCreateDir, FPOpenDir, FPCreateID: the id of a file or directory.
    Node {
        id: NodeId,
    },
    /// FPEnumerate, and with wide lengths FPEnumerateExt and FPEnumerateExt2.
    List {
        wide: bool,
        file_bits: u16,
        dir_bits: u16,
        rows: ListRows,
    },
    /// FPGetVolParms, FPOpenVol, FPGetForkParms, FPResolveID.
    Params {
        bits: u16,
        values: Values,
    },
    /// FPGetSrvrInfo: the status block.
    Status {
        block: Bytes,
    },
    /// FPGetSrvrParms: the server's time, in seconds from 2000-01-01 00:00 GMT, and its volumes.
    ServerParams {
        time: i32,
        volumes: VolumeList,
    },
    /// FPMapID: a name, with a wide count from the two UTF-8 functions.
    MappedName {
        wide: bool,
        name: Bytes,
    },
    /// FPMapName: the id of a user or a group.
    MappedId {
        id: u32,
    },
    /// FPOpenFork: the open fork, or 0 where a deny mode forbids it, and the file's parameters.
    Opened {
        bits: u16,
        reference: ForkRef,
        values: Values,
    },
    /// FPRead, FPReadExt: bytes of a fork. FPGetIcon: the icon's bits.
    Piece {
        piece: Bytes,
    },
    /// FPGetFileDirParms: the parameters of a file or a directory.
    FileDirParams {
        file_bits: u16,
        dir_bits: u16,
        values: Values,
    },
    /// FPGetUserInfo: the ids of a user and of its group, as they were asked.
    UserInfo {
        bits: u16,
        id: Option<u32>,
        group: Option<u32>,
    },
    /// FPGetSrvrMsg: the login message (kind 0) or the server's (kind 1), where it was asked.
    Message {
        kind: u16,
        bits: u16,
        message: Option<Bytes>,
    },
    /// FPOpenDT: the number of a desktop database.
    Desk {
        dt: u16,
    },
    /// FPGetIconInfo: what an icon is for, and how many bytes its bits have.
    IconInfo {
        tag: u32,
        kind: [u8; 4],
        icon_kind: u8,
        size: u16,
    },
    /// FPGetAPPL: a program's tag, and its parameters.
    Appl {
        bits: u16,
        tag: u32,
        values: Values,
    },
    /// FPGetComment: a length byte and the comment.
    Comment {
        comment: Bytes,
    },
    /// FPGetSessionToken: a length of four bytes and the token.
    Token {
        token: Bytes,
    },
}

/// What a reply answers: the request's command byte, and the bits that the request asked. `bits` are
/// those of files in a request that asks of files and directories, and for FPMapID the function.
#[derive(Clone, Copy, PartialEq, Eq)]
pub struct ReplyKind {
    pub command: u8,
    pub bits: u16,
    pub dir_bits: u16,
}

/// Why bytes could not be read.
#[derive(Clone, Copy, Debug, PartialEq, Eq, Error)]
pub enum ReplyFault {
    /// At the place `at`, in bytes from the first, they stop being such a reply.
    #[error("no such reply from byte {at} on")]
    Bad { at: usize },
    #[error("out of memory")]
    Memory,
}

impl From<OutOfMemory> for ReplyFault {
    ghost use Rattle.std.specs.Prelude.{◌≡◌};
    ghost use Rattle.afp_replies.specs.declared.reply.ReplyFault.TheVariants.{Memory};

    ghost from_gives = { λ _ e. e ≡ Memory };

    fn from(_error: OutOfMemory) -> ReplyFault {
        ReplyFault::Memory
    }
}
