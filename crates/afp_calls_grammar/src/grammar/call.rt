//! The requests, and why bytes are none.
use crate::grammar::piece::Piece;
use afp_base::{Bytes, ForkRef, NodeId, OutOfMemory, VolumeId};
use afp_names::Path;
use thiserror::Error;

/// A request (AFP Reference, "AFP Calls"). Numbers and bytes are as they stand in the block. Spelt
/// are only: a `function` of 1 to 4; FPGetSessionToken's `kind` of 0 to 4, with a `stamp` exactly
/// where it is 3 or 4; a `path_kind` of 2 or 3; a `piece` of exactly `count` (or `size`) bytes, of
/// none where `count` is negative; texts that fit their counts. All other rules are the call's own.
#[derive(Drop)]
pub enum Call<'a> {
    ByteRangeLock {
        flags: u8,
        reference: ForkRef,
        offset: i32,
        length: i32,
    },
    CloseVol {
        volume: VolumeId,
    },
    CloseDir {
        volume: VolumeId,
        dir: NodeId,
    },
    CloseFork {
        reference: ForkRef,
    },
    CopyFile {
        volume: VolumeId,
        dir: NodeId,
        target_volume: VolumeId,
        target_dir: NodeId,
        path: Path,
        target_path: Path,
        new_path: Path,
    },
    CreateDir {
        volume: VolumeId,
        dir: NodeId,
        path: Path,
    },
    CreateFile {
        flag: u8,
        volume: VolumeId,
        dir: NodeId,
        path: Path,
    },
    Delete {
        volume: VolumeId,
        dir: NodeId,
        path: Path,
    },
    Enumerate {
        volume: VolumeId,
        dir: NodeId,
        file_bits: u16,
        dir_bits: u16,
        count: u16,
        start: u16,
        size: u16,
        path: Path,
    },
    Flush {
        volume: VolumeId,
    },
    FlushFork {
        reference: ForkRef,
    },
    GetForkParms {
        reference: ForkRef,
        bits: u16,
    },
    GetSrvrInfo,
    GetSrvrParms,
    GetVolParms {
        volume: VolumeId,
        bits: u16,
    },
    Login {
        version: Bytes,
        uam: Bytes,
        tail: Bytes,
    },
    Logout,
    MapID {
        function: u8,
        id: u32,
    },
    MapName {
        function: u8,
        name: Bytes,
    },
    MoveAndRename {
        volume: VolumeId,
        dir: NodeId,
        target_dir: NodeId,
        path: Path,
        target_path: Path,
        new_path: Path,
    },
    OpenVol {
        bits: u16,
        name: Bytes,
    },
    OpenDir {
        volume: VolumeId,
        dir: NodeId,
        path: Path,
    },
    OpenFork {
        flag: u8,
        volume: VolumeId,
        dir: NodeId,
        bits: u16,
        mode: u16,
        path: Path,
    },
    Read {
        reference: ForkRef,
        offset: i32,
        count: u32,
        mask: u8,
        character: u8,
    },
    Rename {
        volume: VolumeId,
        dir: NodeId,
        path: Path,
        new_path: Path,
    },
    SetDirParms {
        volume: VolumeId,
        dir: NodeId,
        bits: u16,
        path: Path,
        tail: Bytes,
    },
    SetFileParms {
        volume: VolumeId,
        dir: NodeId,
        bits: u16,
        path: Path,
        tail: Bytes,
    },
    SetForkParms {
        reference: ForkRef,
        bits: u16,
        tail: Bytes,
    },
    SetVolParms {
        volume: VolumeId,
        bits: u16,
        tail: Bytes,
    },
    Write {
        flag: u8,
        reference: ForkRef,
        offset: i32,
        count: u32,
        piece: Piece<'a>,
    },
    GetFileDirParms {
        volume: VolumeId,
        dir: NodeId,
        file_bits: u16,
        dir_bits: u16,
        path: Path,
    },
    SetFileDirParms {
        volume: VolumeId,
        dir: NodeId,
        bits: u16,
        path: Path,
        tail: Bytes,
    },
    GetUserInfo {
        flag: u8,
        id: u32,
        bits: u16,
    },
    GetSrvrMsg {
        kind: u16,
        bits: u16,
    },
    CreateID {
        volume: VolumeId,
        dir: NodeId,
        path: Path,
    },
    DeleteID {
        volume: VolumeId,
        id: NodeId,
    },
    ResolveID {
        volume: VolumeId,
        id: NodeId,
        bits: u16,
    },
    ExchangeFiles {
        volume: VolumeId,
        dir: NodeId,
        second_dir: NodeId,
        path: Path,
        second_path: Path,
    },
    OpenDT {
        volume: VolumeId,
    },
    CloseDT {
        dt: u16,
    },
    GetIcon {
        dt: u16,
        creator: [u8; 4],
        kind: [u8; 4],
        icon_kind: u8,
        length: u16,
    },
    GetIconInfo {
        dt: u16,
        creator: [u8; 4],
        index: u16,
    },
    AddAPPL {
        dt: u16,
        dir: NodeId,
        creator: [u8; 4],
        tag: u32,
        path: Path,
    },
    RemoveAPPL {
        dt: u16,
        dir: NodeId,
        creator: [u8; 4],
        path: Path,
    },
    GetAPPL {
        dt: u16,
        creator: [u8; 4],
        index: u16,
        bits: u16,
    },
    AddComment {
        dt: u16,
        dir: NodeId,
        path: Path,
        comment: Bytes,
    },
    RemoveComment {
        dt: u16,
        dir: NodeId,
        path: Path,
    },
    GetComment {
        dt: u16,
        dir: NodeId,
        path: Path,
    },
    ByteRangeLockExt {
        flags: u8,
        reference: ForkRef,
        offset: i64,
        length: i64,
    },
    ReadExt {
        reference: ForkRef,
        offset: i64,
        count: i64,
    },
    WriteExt {
        flag: u8,
        reference: ForkRef,
        offset: i64,
        count: i64,
        piece: Piece<'a>,
    },
    LoginExt {
        flags: u16,
        version: Bytes,
        uam: Bytes,
        name: Bytes,
        path_kind: u8,
        path: Bytes,
        tail: Bytes,
    },
    GetSessionToken {
        kind: u16,
        stamp: Option<u32>,
        id: Bytes,
    },
    DisconnectOldSession {
        kind: u16,
        token: Bytes,
    },
    EnumerateExt {
        volume: VolumeId,
        dir: NodeId,
        file_bits: u16,
        dir_bits: u16,
        count: u16,
        start: u16,
        size: u16,
        path: Path,
    },
    EnumerateExt2 {
        volume: VolumeId,
        dir: NodeId,
        file_bits: u16,
        dir_bits: u16,
        count: u16,
        start: u32,
        size: u32,
        path: Path,
    },
    AddIcon {
        dt: u16,
        creator: [u8; 4],
        kind: [u8; 4],
        icon_kind: u8,
        tag: u32,
        size: u16,
        piece: Piece<'a>,
    },
}

/// Why a block is no request. `NotSupported`: its first byte is no command. `Param`: it is empty, or
/// it and what came with it spell no request of its command. `Memory`: there is no memory, which
/// comes for no other reason.
#[derive(Clone, Copy, Debug, PartialEq, Eq, Error)]
pub enum ReadFault {
    #[error("the command is none of the protocol")]
    NotSupported,
    #[error("the request is not spelt as its command wants")]
    Param,
    #[error("out of memory")]
    Memory,
}

impl From<OutOfMemory> for ReadFault {
    ghost use Rattle.std.specs.Prelude.{◌≡◌};
    ghost use Rattle.afp_calls_grammar.specs.declared.grammar.call.ReadFault.{ReadFault};

    ghost from_gives = { λ _ fault. fault ≡ ReadFault.Memory };

    fn from(_error: OutOfMemory) -> ReadFault {
        ReadFault::Memory
    }
}
