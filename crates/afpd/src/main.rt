//! The file server: it serves sessions of the Apple Filing Protocol over TCP.
#![tactic(auto)]

ghost use Rattle.std.specs.Prelude.{◌≡◌, All, false};

mod closing;
mod doors;
mod opening;

use afp_base::OutOfMemory;
use afp_core::Counts;
use afp_outside::{OpenGate, StdSink, SystemClock, TcpDoor};
use afpd_lib::WordFault;
use afpd_lib::server::ends::{RunEnd, report_end};
use afpd_lib::server::given::given_words;
use afpd_lib::server::notes::{Notes, PortNotes, port_remedy};
use afpd_lib::server::server::{Finish, afpd};
use afpd_lib::server::setup::{ServerSettings, VolumePlace, setup};
use closing::close_logs;
use doors::{doors_at, number_of, open_port};
use opening::{PlaceKeeper, open_place};
use record_keeper::Keeper;
use std::io;
use std::net::TcpListener;
use std::process::ExitCode;
use std::random::RandomSource;
use std::sync::Wait;
use std::thread::Threads;

/// A key of session tokens, from the system's randomness.
fn token_key(rt: &HostRuntime) -> io::Result<[u8; 32]> {
    let mut key = [0; 32];
    rt.fill_bytes(&mut key)?;
    Ok(key)
}

/// Opens the port that the words ask for; where it cannot be opened, a person is told why, and what to do.
fn listener_at(rt: &HostRuntime, port: u16) -> Option<TcpListener> {
    match open_port(rt, port) {
        Ok(listener) => Some(listener),
        Err(error) => {
            let remedy = port_remedy(error.kind());
            let _told = eprint!(rt; "error: port {port}: {error}: {remedy}");
            None
        }
    }
}

/// As many places in memory.
fn in_memory(rt: &HostRuntime, places: &[VolumePlace]) -> Result<Vec<VolumePlace>, OutOfMemory> {
    let mut made = Vec::new(rt.alloc());
    for _ in places {
        made.push(VolumePlace::Memory)?;
    }
    Ok(made)
}

/// Serves the links that come through the doors, over a keeper for each place, and gives the exit status. Without a key of session tokens none is
/// served. `threads` is the host once more, by what it is asked for: workers.
fn serve<R: Threads + Wait + Sync, P: Notes>(
    threads: &R,
    rt: &HostRuntime,
    words: &[String],
    places: &[VolumePlace],
    doors: Vec<TcpDoor<&HostRuntime>>,
    report: &mut StdSink<&HostRuntime>,
    notes: &mut P,
) -> u8
    requires { All (λ door. door.door.closed ≡ false) doors.items }
{
    let Ok(key) = token_key(rt) else {
        let counts = Counts {
            entries: 0,
            sessions: 0,
        };
        return report_end(RunEnd::DoorFailed(counts), report);
    };
    serve_kept(threads, rt, words, places, doors, key, report, notes)
}

/// The same with this key.
fn serve_kept<R: Threads + Wait + Sync, P: Notes>(
    threads: &R,
    rt: &HostRuntime,
    words: &[String],
    places: &[VolumePlace],
    doors: Vec<TcpDoor<&HostRuntime>>,
    key: [u8; 32],
    report: &mut StdSink<&HostRuntime>,
    notes: &mut P,
) -> u8
    requires { All (λ door. door.door.closed ≡ false) doors.items }
{
    let alloc = rt.alloc();
    let mut keepers: Vec<Box<dyn Keeper + Send>> = Vec::new(alloc);
    for place in places {
        let Ok(opened) = open_place(rt, place) else {
            return report_end(RunEnd::Memory, report);
        };
        match opened {
            PlaceKeeper::Memory(inner) | PlaceKeeper::Unopened(inner) => {
                let Ok(keeper) = Box::new(alloc, inner) else {
                    return report_end(RunEnd::Memory, report);
                };
                if keepers.push(keeper).is_err() {
                    return report_end(RunEnd::Memory, report);
                }
            }
            PlaceKeeper::File(inner) => {
                let Ok(keeper) = Box::new(alloc, inner) else {
                    return report_end(RunEnd::Memory, report);
                };
                if keepers.push(keeper).is_err() {
                    return report_end(RunEnd::Memory, report);
                }
            }
        }
    }
    let clock = SystemClock::new(rt);
    let Finish { status, trace, .. } = afpd(
        threads, alloc, words, keepers, doors, &clock, &OpenGate, key, report, notes,
    );
    // Where the doors were served each file was opened, and its keeper is gone.
    if trace.is_some() {
        close_logs(rt, places);
    }
    status
}

/// Serves as the words set it, with the doors at this port, if it is open. Where it is not, no file of a volume is opened or made, each door fails, and
/// nobody is told that the server listens.
fn serve_at<R: Threads + Wait + Sync>(
    threads: &R,
    rt: &HostRuntime,
    words: &[String],
    settings: &ServerSettings,
    listener: Option<TcpListener>,
    report: &mut StdSink<&HostRuntime>,
) -> u8 {
    let port = match &listener {
        Some(listener) => Some(number_of(listener, settings.port)),
        None => None,
    };
    let mut notes = PortNotes::new(StdSink::new(rt.stderr()), port);
    let Ok(doors) = doors_at(rt, listener, settings.workers, settings.links) else {
        return report_end(RunEnd::Memory, report);
    };
    let places = settings.places.as_slice();
    if port.is_some() {
        return serve(threads, rt, words, places, doors, report, &mut notes);
    }
    match in_memory(rt, places) {
        Ok(places) => serve(
            threads,
            rt,
            words,
            places.as_slice(),
            doors,
            report,
            &mut notes,
        ),
        Err(_) => report_end(RunEnd::Memory, report),
    }
}

/// Serves what the words ask for, and gives the exit status.
fn run<R: Threads + Wait + Sync>(
    threads: &R,
    rt: &HostRuntime,
    report: &mut StdSink<&HostRuntime>,
) -> u8 {
    let Ok(words) = given_words(rt) else {
        return report_end(RunEnd::Memory, report);
    };
    let words = words.as_slice();
    match setup(rt.alloc(), words) {
        Ok(settings) => {
            let listener = listener_at(rt, settings.port);
            serve_at(threads, rt, words, &settings, listener, report)
        }
        Err(WordFault::Bad) => {
            let mut notes = PortNotes::new(StdSink::new(rt.stderr()), None);
            let doors = Vec::new(rt.alloc());
            serve(threads, rt, words, &[], doors, report, &mut notes)
        }
        Err(WordFault::Memory) => report_end(RunEnd::Memory, report),
    }
}

fn main(rt: HostRuntime) -> ExitCode {
    let mut report = StdSink::new(&rt);
    ExitCode::from(run(&rt, &rt, &mut report))
}
