//! A parcel, and what is told of it.
ghost use Rattle.std.specs.Prelude.{◌≡◌, ◌<◌, ◌^◌};
ghost use Rattle.afp_outside.specs.ends.Whole.{PrintsAll};
ghost use Rattle.afptool_lib.specs.tool.Parcelling.{ComesTo, RunsParcel, parcel_status, parcel_text};
ghost use Rattle.afptool_lib.specs.tool.lemma.Parcelling.{JudgesTo, ReadsTo};

use crate::tool::lines::report_parcel;
use afp_base::Bytes;
use afp_outside::{ReadResult, Sink, Source, print_all};
use apple_double::{ParcelFault, Shape, read_parcel};
use std::alloc::Global;

/// What a source comes to that is to be a parcel.
#[derive(Clone, Copy)]
pub enum ParcelEnd {
    /// A parcel of this format, whose forks have so many bytes.
    Whole {
        shape: Shape,
        data_size: u64,
        resource_size: u64,
    },
    /// Other bytes.
    Bad,
    /// A read failed.
    ReadFault,
    /// So many bytes were taken that no more are read.
    Spent,
    /// There was no memory.
    Memory,
}

/// What stopped the reading of a source.
#[derive(Drop)]
pub enum ReadStop {
    /// It ended, and these are its bytes.
    All(Bytes),
    /// A read failed.
    ReadFault,
    /// So many bytes were taken that no more are read.
    Spent,
    /// There was no memory.
    Memory,
}

/// The bytes of a read at most.
const ROOM: usize = 4096;

/// Reads all that the source gives.
fn read_all<S: Source>(alloc: Global, source: &mut S, turns: u64) -> ReadStop
    requires turns { turns < 2 ^ 63 }
    ensures { ReadsTo turns (S.source_state source.old) (S.source_state source.new) result }
{
    let mut room = [0; ROOM];
    let mut bytes = Bytes::new(alloc);
    let mut taken: u64 = 0;
    while taken < turns {
        match source.read(&mut room) {
            ReadResult::Got(n) => {
                let Ok(()) = bytes.extend(&room[..n]) else {
                    return ReadStop::Memory;
                };
                taken += n as u64;
            }
            ReadResult::End => return ReadStop::All(bytes),
            ReadResult::Failed => return ReadStop::ReadFault,
            ReadResult::Quiet => return ReadStop::ReadFault,
        }
    }
    ReadStop::Spent
}

/// What the bytes are.
fn judged(alloc: Global, bytes: &[u8]) -> ParcelEnd
    ensures { JudgesTo bytes.now result }
{
    match read_parcel(alloc, bytes) {
        Ok((shape, file)) => ParcelEnd::Whole {
            shape,
            data_size: file.data_fork.as_slice().len() as u64,
            resource_size: file.resource_fork.as_slice().len() as u64,
        },
        Err(fault) => match fault {
            ParcelFault::Memory => ParcelEnd::Memory,
            _ => ParcelEnd::Bad,
        },
    }
}

/// What the source comes to.
fn parcel_in<S: Source>(alloc: Global, source: &mut S, turns: u64) -> ParcelEnd
    requires turns { turns < 2 ^ 63 }
    ensures { ComesTo turns (S.source_state source.old) (S.source_state source.new) result }
{
    match read_all(alloc, source, turns) {
        ReadStop::All(bytes) => judged(alloc, bytes.as_slice()),
        ReadStop::ReadFault => ParcelEnd::ReadFault,
        ReadStop::Spent => ParcelEnd::Spent,
        ReadStop::Memory => ParcelEnd::Memory,
    }
}

/// Prints what the source came to. `false`: a write failed.
fn report_end<O: Sink>(out: &mut O, end: ParcelEnd) -> bool
    ensures { PrintsAll (O.sink_state out.old) (parcel_text end) result (O.sink_state out.new) }
{
    match end {
        ParcelEnd::Whole {
            shape,
            data_size,
            resource_size,
        } => report_parcel(out, shape, data_size, resource_size),
        ParcelEnd::Bad => print_all(out, b"bad parcel\n"),
        ParcelEnd::ReadFault | ParcelEnd::Spent | ParcelEnd::Memory => print_all(out, b""),
    }
}

/// The exit status of what was printed.
fn status_of(end: ParcelEnd) -> u8
    ensures { result ≡ parcel_status end }
{
    match end {
        ParcelEnd::Whole { .. } => 0,
        ParcelEnd::Bad => 3,
        ParcelEnd::ReadFault => 4,
        ParcelEnd::Spent => 8,
        ParcelEnd::Memory => 6,
    }
}

/// Reads the source to its end, prints which parcel it is and how large its forks are, or that it is none, and gives the exit status. It holds all
/// bytes.
pub fn run_parcel<S: Source, O: Sink>(alloc: Global, source: &mut S, out: &mut O, turns: u64) -> u8
    requires turns { turns < 2 ^ 63 }
    ensures { RunsParcel turns (S.source_state source.old) (S.source_state source.new) (O.sink_state out.old) (O.sink_state out.new) result }
{
    let end = parcel_in(alloc, source, turns);
    if report_end(out, end) {
        status_of(end)
    } else {
        5
    }
}
