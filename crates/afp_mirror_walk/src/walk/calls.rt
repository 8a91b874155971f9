//! The calls that a mirror asks.
ghost use Rattle.std.specs.Prelude.{◌≡◌, ◌<◌, ◌≤◌, ◌++◌, length, IfOk, OnOk};
ghost use Rattle.afp_base.specs.Limits.{most_fork_bytes};
ghost use Rattle.afp_calls_grammar.specs.declared.grammar.call.Call.TheVariants as calls;
ghost use Rattle.afp_mirror_walk.specs.Asks as asks;
ghost use Rattle.afp_mirror_walk.specs.Asks.{place_of};
ghost use Rattle.afp_mirror_walk.specs.Settings.{date_bytes, settings_bytes};
ghost use Rattle.afp_mirror_walk.specs.Standing.{most_piece};
ghost use Rattle.afp_mirror_walk.specs.lemma.Askings.{Says};
ghost use Rattle.afp_names.specs.Path.{canonical_path};

use crate::walk::ends::Side;
use crate::walk::standing::{Found, Made, Settings};
use afp_base::{Bytes, ForkRef, NodeId, OutOfMemory, VolumeId};
use afp_calls_grammar::grammar::commands::{
    CLOSE_FORK, CREATE_DIR, CREATE_FILE, ENUMERATE_EXT2, GET_FILE_DIR_PARMS, OPEN_FORK, OPEN_VOL,
    READ_EXT, SET_DIR_PARMS, SET_FILE_PARMS, WRITE_EXT,
};
use afp_calls_grammar::{Call, Piece};
use afp_names::{Name, Path, UTF8_NAMES};
use afp_replies::ReplyKind;
use std::alloc::Global;

/// A call, whom it is asked, and by what its reply is read.
#[derive(Drop)]
pub struct Asking<'a> {
    pub side: Side,
    pub call: Call<'a>,
    pub kind: ReplyKind,
}

/// The bits that a list asks: of files and directories their attributes, dates, Finder information, ids and names in UTF-8.
const LIST_BITS: u16 = 0x213d;

/// How many bytes are read at once.
pub(crate) const PIECE: usize = 65_536;

/// The bit of an id.
const ID_BIT: u16 = 0x0100;

/// The path that goes down to the name of these bytes; no bytes go nowhere.
#[tactic(auto, using(client_script_lines::proofs::OfCalls::SizeLemmas::place_is))]
fn path_of(alloc: Global, name: &[u8]) -> Result<Path, OutOfMemory>
    requires { length name.now ≤ 255 }
    ensures place { IfOk result (λ path. path ≡ place_of name.now) }
    ensures short { IfOk result (λ path. length (canonical_path path) ≤ 4096) }
{
    match Path::read(alloc, UTF8_NAMES, name) {
        Ok(path) => Ok(path),
        Err(_) => Err(OutOfMemory),
    }
}

/// The path to a name.
fn path_to(alloc: Global, name: &Name) -> Result<Path, OutOfMemory>
    ensures place { IfOk result (λ path. path ≡ place_of name.now) }
    ensures short { IfOk result (λ path. length (canonical_path path) ≤ 4096) }
{
    path_of(alloc, name.as_str().as_bytes())
}

fn plain(command: u8) -> ReplyKind
    ensures { result ≡ record { command = command; bits = 0; dir_bits = 0 } }
{
    ReplyKind {
        command,
        bits: 0,
        dir_bits: 0,
    }
}

/// FPOpenVol.
#[tactic(auto, using(client_script_lines::proofs::OfCalls::AskableLemmas::askable_open_vol))]
pub(crate) fn open_volume(
    alloc: Global,
    side: Side,
    name: &Name,
) -> Result<Asking<'static>, OutOfMemory>
    ensures { IfOk result (λ a. Says side (asks.open_volume name.now) a) }
{
    Ok(Asking {
        side,
        call: Call::OpenVol {
            bits: 0x20,
            name: Bytes::of(alloc, name.as_str().as_bytes())?,
        },
        kind: ReplyKind {
            command: OPEN_VOL,
            bits: 0x20,
            dir_bits: 0,
        },
    })
}

/// FPEnumerateExt2.
#[tactic(auto, using(client_script_lines::proofs::OfCalls::AskableLemmas::askable_list))]
pub(crate) fn list(
    alloc: Global,
    side: Side,
    volume: VolumeId,
    dir: NodeId,
    start: u32,
) -> Result<Asking<'static>, OutOfMemory>
    ensures { IfOk result (λ a. Says side (asks.list volume dir start) a) }
{
    Ok(Asking {
        side,
        call: Call::EnumerateExt2 {
            volume,
            dir,
            file_bits: LIST_BITS,
            dir_bits: LIST_BITS,
            count: 64,
            start,
            size: 65_536,
            path: path_of(alloc, b"")?,
        },
        kind: ReplyKind {
            command: ENUMERATE_EXT2,
            bits: LIST_BITS,
            dir_bits: LIST_BITS,
        },
    })
}

/// FPCreateDir or FPCreateFile.
#[tactic(auto, using(client_script_lines::proofs::OfCalls::AskableLemmas::askable_create_dir, client_script_lines::proofs::OfCalls::AskableLemmas::askable_create_file))]
pub(crate) fn create(
    alloc: Global,
    volume: VolumeId,
    dir: NodeId,
    found: &Found,
) -> Result<Asking<'static>, OutOfMemory>
    ensures { IfOk result (λ a. Says Side.To (asks.create found.now.dir volume dir found.now.name) a) }
{
    let path = path_to(alloc, &found.name)?;
    if found.dir {
        Ok(Asking {
            side: Side::To,
            call: Call::CreateDir { volume, dir, path },
            kind: plain(CREATE_DIR),
        })
    } else {
        Ok(Asking {
            side: Side::To,
            call: Call::CreateFile {
                flag: 0,
                volume,
                dir,
                path,
            },
            kind: plain(CREATE_FILE),
        })
    }
}

/// FPGetFileDirParms.
#[tactic(auto, using(client_script_lines::proofs::OfCalls::AskableLemmas::askable_get_id))]
pub(crate) fn find_file(
    alloc: Global,
    volume: VolumeId,
    dir: NodeId,
    found: &Found,
) -> Result<Asking<'static>, OutOfMemory>
    ensures { IfOk result (λ a. Says Side.To (asks.find_file volume dir found.now.name) a) }
{
    Ok(Asking {
        side: Side::To,
        call: Call::GetFileDirParms {
            volume,
            dir,
            file_bits: ID_BIT,
            dir_bits: ID_BIT,
            path: path_to(alloc, &found.name)?,
        },
        kind: ReplyKind {
            command: GET_FILE_DIR_PARMS,
            bits: ID_BIT,
            dir_bits: ID_BIT,
        },
    })
}

fn flag_of(resource: bool) -> u8
    ensures { result ≡ asks.flag_of resource }
{
    if resource { 0x80 } else { 0 }
}

/// FPOpenFork.
#[tactic(auto, using(client_script_lines::proofs::OfCalls::AskableLemmas::askable_open_fork))]
pub(crate) fn open_fork(
    alloc: Global,
    side: Side,
    volume: VolumeId,
    resource: bool,
    mode: u16,
    dir: NodeId,
    name: &Name,
) -> Result<Asking<'static>, OutOfMemory>
    ensures { IfOk result (λ a. Says side (asks.open_fork resource volume mode dir name.now) a) }
{
    Ok(Asking {
        side,
        call: Call::OpenFork {
            flag: flag_of(resource),
            volume,
            dir,
            bits: 0,
            mode,
            path: path_to(alloc, name)?,
        },
        kind: plain(OPEN_FORK),
    })
}

/// FPReadExt.
#[tactic(auto, using(crate::proofs::AskedCalls::askable_read_ext))]
pub(crate) fn read(side: Side, reference: ForkRef, offset: u64) -> Asking<'static>
    requires { offset ≤ most_fork_bytes }
    ensures { Says side (asks.read reference offset) result }
{
    Asking {
        side,
        call: Call::ReadExt {
            reference,
            offset: offset as i64,
            count: 65_536,
        },
        kind: plain(READ_EXT),
    }
}

/// FPWriteExt.
#[tactic(auto, using(crate::proofs::AskedCalls::askable_write_ext))]
pub(crate) fn write<'a>(reference: ForkRef, offset: u64, piece: &'a [u8]) -> Asking<'a>
    requires offset { offset ≤ most_fork_bytes }
    requires piece { length piece.now ≤ most_piece }
    ensures { Says Side.To (asks.write reference offset piece.now) result }
{
    Asking {
        side: Side::To,
        call: Call::WriteExt {
            flag: 0,
            reference,
            offset: offset as i64,
            count: piece.len() as i64,
            piece: Piece::new(piece),
        },
        kind: plain(WRITE_EXT),
    }
}

/// FPCloseFork.
#[tactic(auto, using(client_script_lines::proofs::OfCalls::AskableLemmas::askable_close_fork))]
pub(crate) fn close(side: Side, reference: ForkRef) -> Asking<'static>
    ensures { Says side (asks.close reference) result }
{
    Asking {
        side,
        call: Call::CloseFork { reference },
        kind: plain(CLOSE_FORK),
    }
}

/// The Finder information is 32 bytes.
fn finder_is_whole(finder: &[u8; 32])
    ensures { length finder.now ≡ 32 }
{}

/// Appends a date.
fn put_date(out: &mut Bytes, date: i32) -> Result<(), OutOfMemory>
    ensures { OnOk result (out.new ≡ out.old ++ date_bytes date) }
{
    out.push_u32(date.cast_unsigned())
}

/// The bytes of what is set.
#[tactic(auto, using(crate::proofs::AskedCalls::settings_size), unfolding(crate::specs::Settings::settings_bytes))]
fn settings_bytes(alloc: Global, settings: &Settings) -> Result<Bytes, OutOfMemory>
    ensures bytes { IfOk result (λ bytes. bytes ≡ settings_bytes settings.now) }
    ensures short { IfOk result (λ bytes. length bytes ≤ 46) }
{
    finder_is_whole(&settings.finder);
    let mut out = Bytes::new(alloc);
    out.push_u16(settings.word)?;
    put_date(&mut out, settings.created)?;
    put_date(&mut out, settings.modified)?;
    put_date(&mut out, settings.backup)?;
    out.extend(&settings.finder)?;
    Ok(out)
}

/// FPSetFileParms.
#[tactic(auto, using(crate::proofs::AskedCalls::askable_set_file))]
pub(crate) fn set_file(
    alloc: Global,
    volume: VolumeId,
    dir: NodeId,
    found: &Found,
) -> Result<Asking<'static>, OutOfMemory>
    ensures { IfOk result (λ a. Says Side.To (asks.set_file volume dir found.now.name found.now.settings) a) }
{
    let tail = settings_bytes(alloc, &found.settings)?;
    Ok(Asking {
        side: Side::To,
        call: Call::SetFileParms {
            volume,
            dir,
            bits: 0x003d,
            path: path_to(alloc, &found.name)?,
            tail,
        },
        kind: plain(SET_FILE_PARMS),
    })
}

/// FPSetDirParms.
#[tactic(auto, using(crate::proofs::AskedCalls::askable_set_dir))]
pub(crate) fn set_dir(
    alloc: Global,
    volume: VolumeId,
    node: &Made,
) -> Result<Asking<'static>, OutOfMemory>
    ensures { IfOk result (λ a. Says Side.To (asks.set_dir volume node.now.target node.now.settings) a) }
{
    let tail = settings_bytes(alloc, &node.settings)?;
    Ok(Asking {
        side: Side::To,
        call: Call::SetDirParms {
            volume,
            dir: node.target,
            bits: 0x003d,
            path: path_of(alloc, b"")?,
            tail,
        },
        kind: plain(SET_DIR_PARMS),
    })
}
