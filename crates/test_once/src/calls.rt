//! What the client is asked, and what happens to its bytes.
use crate::server::moment;
use afp_base::{Bytes, ForkRef, NodeId, OutOfMemory, VolumeId};
use afp_calls_grammar::{Call, Piece};
use afp_names::{Path, UTF8_NAMES};
use once_across_breaks_live::Happening;
use std::alloc::Global;

/// The root directory, and the one volume.
const ROOT: NodeId = NodeId(2);

const SHARE: VolumeId = VolumeId(1);

fn path(alloc: Global) -> Result<Path, OutOfMemory> {
    match Path::read(alloc, UTF8_NAMES, b"f") {
        Ok(path) => Ok(path),
        Err(_) => Err(OutOfMemory),
    }
}

/// FPOpenVol of `Share`.
pub fn open_volume(alloc: Global) -> Result<Call<'static>, OutOfMemory> {
    Ok(Call::OpenVol {
        bits: 0x20,
        name: Bytes::of(alloc, b"Share")?,
    })
}

/// FPCreateFile of `f`.
pub fn create_file(alloc: Global) -> Result<Call<'static>, OutOfMemory> {
    Ok(Call::CreateFile {
        flag: 0,
        volume: SHARE,
        dir: ROOT,
        path: path(alloc)?,
    })
}

/// FPOpenFork of `f`, to write.
pub fn open_fork(alloc: Global) -> Result<Call<'static>, OutOfMemory> {
    Ok(Call::OpenFork {
        flag: 0,
        volume: SHARE,
        dir: ROOT,
        bits: 0,
        mode: 2,
        path: path(alloc)?,
    })
}

/// FPWrite of one byte at the fork's end.
pub fn append() -> Call<'static> {
    Call::Write {
        flag: 0x80,
        reference: ForkRef(1),
        offset: 0,
        count: 1,
        piece: Piece::new(b"x"),
    }
}

/// All bytes under way on a link arrive, first at the server end and then at the client, so many times.
pub fn put_arrivals(
    events: &mut Vec<Happening<'static>>,
    link: u32,
    times: u32,
) -> Result<(), OutOfMemory> {
    for _time in 0..times {
        events.push(Happening::ToServer {
            link,
            bytes: u32::MAX,
            now: moment(100),
        })?;
        events.push(Happening::ToClient {
            link,
            bytes: u32::MAX,
        })?;
    }
    Ok(())
}

/// A call is asked on a link that stays, and its reply comes.
pub fn put_call(
    events: &mut Vec<Happening<'static>>,
    link: u32,
    call: Call<'static>,
) -> Result<(), OutOfMemory> {
    events.push(Happening::Asks(call))?;
    put_arrivals(events, link, 1)
}

/// The opening of link 1, and `f` is made and opened.
pub fn put_opened(alloc: Global, events: &mut Vec<Happening<'static>>) -> Result<(), OutOfMemory> {
    put_arrivals(events, 1, 3)?;
    put_call(events, 1, open_volume(alloc)?)?;
    put_call(events, 1, create_file(alloc)?)?;
    put_call(events, 1, open_fork(alloc)?)
}

/// The append reaches the server and runs; its reply is lost with its link, and the client goes on by the next one.
pub fn put_broken_append(
    alloc: Global,
    events: &mut Vec<Happening<'static>>,
    loses: bool,
) -> Result<(), OutOfMemory> {
    events.push(Happening::Asks(append()))?;
    events.push(Happening::ToServer {
        link: 1,
        bytes: u32::MAX,
        now: moment(100),
    })?;
    if loses {
        events.push(Happening::Lost {
            link: 1,
            now: moment(100),
        })?;
    }
    events.push(Happening::Breaks)?;
    put_arrivals(events, 2, 4)
}
