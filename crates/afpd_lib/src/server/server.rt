//! The whole server: it reads its words, serves the links that come through its doors, side by side, and reports.
ghost use Rattle.std.specs.Prelude.{◌≡◌, ◌<◌, ◌≤◌, ◌+◌, ◌++◌, ◌^◌, All, None, Some, [], false, length, map, string_bytes, vec_capacity, vec_len};
ghost use Rattle.afp_desk.specs.workers.Keeping.{keeping};
ghost use Rattle.afpd_lib.specs.server.Run.{EndsRun, IsServerRun};
ghost use Rattle.afpd_lib.specs.server.lemma.Run.{EndsCore, EndsHouse, end_of};

use crate::server::ends::{RunEnd, end_of, load_end, report_end, unread_end};
use crate::server::house::house_for;
use crate::server::notes::{Notes, house_text, tell_listening, tell_unloaded};
use crate::words::{ServerWords, WordFault, read_words};
use afp_core::{Core, CoreFault};
use afp_desk::{Closing, Done, Trace, serve_loaded};
use afp_outside::{Clock, Gate, Listener, Sink};
use afp_serial::{House, HouseFault};
use record_keeper::Keeper;
use std::alloc::Global;
use std::sync::Wait;
use std::thread::Threads;

/// What a run of the server came to.
#[derive(Drop)]
pub struct Finish<N> {
    /// The exit status.
    pub status: u8,
    /// What was shown at closing, for contracts alone: `Some` exactly where the doors were served.
    pub trace: Option<Trace>,
    /// The doors that were handed in, in order, as the run left them.
    pub doors: Vec<N>,
}

/// The same before the report.
#[derive(Drop)]
struct Ran<N> {
    end: RunEnd,
    trace: Option<Trace>,
    doors: Vec<N>,
}

/// A run that served nothing.
fn unserved<N>(end: RunEnd, doors: Vec<N>) -> Ran<N>
    ensures { result ≡ record { end = end; trace = None; doors = doors } }
{
    Ran {
        end,
        trace: None,
        doors,
    }
}

/// Takes the doors out of what their workers left, in order. There is room for them.
fn take_doors<N: Drop>(done: Vec<Done<N>>, doors: &mut Vec<N>)
    requires room { vec_len doors.old + length done.items ≤ vec_capacity doors.old }
    ensures { doors.new.items ≡ doors.old.items ++ map (λ one. one.door) done.items }
{
    for one in done {
        let Done { door, end: _ } = one;
        doors.push_reserved(door);
    }
}

/// A run whose doors were served. There is room for them.
fn served_run<N: Drop>(closing: Closing<N>, room: Vec<N>) -> Ran<N>
    requires none { room.items ≡ [] }
    requires room { vec_len room + length closing.done.items ≤ vec_capacity room }
    ensures end { result.end ≡ end_of closing.end closing.counts }
    ensures trace { result.trace ≡ Some closing.trace }
    ensures doors { result.doors.items ≡ map (λ one. one.door) closing.done.items }
{
    let Closing {
        trace,
        done,
        end,
        counts,
        retired: _,
    } = closing;
    let mut doors = room;
    take_doors(done, &mut doors);
    Ran {
        end: end_of(end, counts),
        trace: Some(trace),
        doors,
    }
}

/// Serves the doors of a house whose volumes were loaded, each link up to `turns` bytes and quiets, and settles its keepers. There is room for the doors.
fn serve_core<
    K: Keeper + Send,
    R: Threads + Wait + Sync,
    N: Listener + Send + Drop,
    G: Gate + Sync,
>(
    rt: &R,
    alloc: Global,
    house: &House,
    core: Core<K>,
    turns: u64,
    doors: Vec<N>,
    room: Vec<N>,
    gate: &G,
) -> Ran<N>
where
    N::Link: Send,
    G::Log: Send,
    requires turns { turns < 2 ^ 63 }
    requires few { length doors.items ≤ 16 }
    requires open { All (λ door. (N.door_state door).closed ≡ false) doors.items }
    requires none { room.items ≡ [] }
    requires room { length doors.items ≤ vec_capacity room }
    ensures { EndsCore N.Link.link_state G.passed N.door_state (keeping K.records K.steady K.sure K.faults K.settles) house.now core turns doors.items result.end result.trace result.doors.items }
{
    match serve_loaded(rt, alloc, house, core, doors, gate, turns) {
        // A settle that fails has no place in the report.
        Ok(closing) => served_run(closing, room),
        Err(doors) => unserved(RunEnd::Memory, doors),
    }
}

/// Serves a house, whose volumes are loaded from these keepers, as the words say. Notes tell a person when it listens, or what is not loaded.
fn serve_house<
    K: Keeper + Send,
    R: Threads + Wait + Sync,
    N: Listener + Send + Drop,
    C: Clock,
    G: Gate + Sync,
    P: Notes,
>(
    rt: &R,
    alloc: Global,
    house: &House,
    keepers: Vec<K>,
    said: &ServerWords<'_>,
    doors: Vec<N>,
    clock: &C,
    gate: &G,
    notes: &mut P,
) -> Ran<N>
where
    N::Link: Send,
    G::Log: Send,
    requires turns { said.now.turns < 2 ^ 63 }
    requires few { said.now.workers ≤ 16 }
    requires open { All (λ door. (N.door_state door).closed ≡ false) doors.items }
    ensures { EndsHouse N.Link.link_state G.passed N.door_state (keeping K.records K.steady K.sure K.faults K.settles) house.now keepers.items said.now.workers said.now.turns (C.moment_told clock.now) doors.items result.end result.trace result.doors.items }
{
    if doors.len() != usize::from(said.workers) {
        return unserved(RunEnd::Refused, doors);
    }
    let Ok(room) = Vec::with_capacity(alloc, doors.len()) else {
        return unserved(RunEnd::Memory, doors);
    };
    match Core::new(alloc, house, keepers, clock.now()) {
        Ok(core) => {
            tell_listening(alloc, notes, said, &core);
            serve_core(rt, alloc, house, core, said.turns, doors, room, gate)
        }
        Err(CoreFault::Count) => unserved(RunEnd::Refused, doors),
        Err(CoreFault::Load { index, fault }) => {
            tell_unloaded(alloc, notes, said, index);
            unserved(load_end(alloc, index, fault), doors)
        }
        Err(CoreFault::Memory) => unserved(RunEnd::Memory, doors),
    }
}

/// The run, without its report.
fn run<
    K: Keeper + Send,
    R: Threads + Wait + Sync,
    N: Listener + Send + Drop,
    C: Clock,
    G: Gate + Sync,
    P: Notes,
>(
    rt: &R,
    alloc: Global,
    words: &[String],
    keepers: Vec<K>,
    doors: Vec<N>,
    clock: &C,
    gate: &G,
    token_key: [u8; 32],
    notes: &mut P,
) -> Ran<N>
where
    N::Link: Send,
    G::Log: Send,
    requires { All (λ door. (N.door_state door).closed ≡ false) doors.items }
    ensures { EndsRun N.Link.link_state G.passed N.door_state (keeping K.records K.steady K.sure K.faults K.settles) (map (λ word. string_bytes word) words.now) keepers.items token_key (C.moment_told clock.now) doors.items result.end result.trace result.doors.items }
{
    match read_words(alloc, words) {
        Ok(said) => match house_for(alloc, &said, token_key) {
            Ok(house) => serve_house(rt, alloc, &house, keepers, &said, doors, clock, gate, notes),
            Err(fault) => match fault {
                HouseFault::Memory => unserved(RunEnd::Memory, doors),
                _ => {
                    notes.tell(house_text(fault));
                    unserved(RunEnd::Refused, doors)
                }
            },
        },
        Err(fault) => match fault {
            WordFault::Bad => unserved(unread_end(alloc, words, notes), doors),
            WordFault::Memory => unserved(RunEnd::Memory, doors),
        },
    }
}

/// The same over keepers of one kind.
fn serve_kept<
    K: Keeper + Send,
    R: Threads + Wait + Sync,
    N: Listener + Send + Drop,
    C: Clock,
    G: Gate + Sync,
    O: Sink,
    P: Notes,
>(
    rt: &R,
    alloc: Global,
    words: &[String],
    keepers: Vec<K>,
    doors: Vec<N>,
    clock: &C,
    gate: &G,
    token_key: [u8; 32],
    report: &mut O,
    notes: &mut P,
) -> Finish<N>
where
    N::Link: Send,
    G::Log: Send,
    requires { All (λ door. (N.door_state door).closed ≡ false) doors.items }
    ensures { IsServerRun N.Link.link_state G.passed N.door_state (keeping K.records K.steady K.sure K.faults K.settles) (map (λ word. string_bytes word) words.now) keepers.items token_key (C.moment_told clock.now) doors.items (O.sink_state report.old) (O.sink_state report.new) result }
{
    let Ran { end, trace, doors } = run(
        rt, alloc, words, keepers, doors, clock, gate, token_key, notes,
    );
    let status = report_end(end, report);
    Finish {
        status,
        trace,
        doors,
    }
}

/// The whole server: it loads the volumes from their keepers, in the order of the words, serves the links of all doors out of one history, each door
/// with a worker and a thread of its own, hands each link back, settles the keepers, and gives the exit status and the doors.
///
/// The words are `[--server NAME] [--signature HEX] [--users LIST] [--message TEXT] [--port N] [--workers N] [--links N] [--turns N]
/// VOLUME=PLACE ..`, as `read_words` reads them, with 1 to 8 volumes. There are as many doors as `--workers` says. Each is served until it is closed or fails;
/// of each link up to `--turns` bytes and quiets are taken. After how many links a door closes, as `--links` says, is the door's own affair.
///
/// The status is 2 where the words are others, the house is refused, or the number of keepers is not that of the volumes, or that of doors not that of the
/// workers, with the report `bad words`; 3 where a load gave no volume, with the report `load I bad KEY REASON` or `load I fault`, I from 1 and KEY in
/// hexadecimal; 6 for want of memory before a door was served, or for a link before it was read, with the report `no memory`; 4 where a door failed; 0 where
/// each door is closed; both with the report `entries N sessions M`; and 5 where the report could not
/// be written. Words that ask for help or for the version have that text as their report, and the status 0.
///
/// `notes` are told what a person wants to know beside: what is wrong with the words, what could not be loaded, and when the server listens.
pub fn afpd<
    R: Threads + Wait + Sync,
    N: Listener + Send + Drop,
    C: Clock,
    G: Gate + Sync,
    O: Sink,
    P: Notes,
>(
    rt: &R,
    alloc: Global,
    words: &[String],
    keepers: Vec<Box<dyn Keeper + Send>>,
    doors: Vec<N>,
    clock: &C,
    gate: &G,
    token_key: [u8; 32],
    report: &mut O,
    notes: &mut P,
) -> Finish<N>
where
    N::Link: Send,
    G::Log: Send,
    requires { All (λ door. (N.door_state door).closed ≡ false) doors.items }
    ensures { IsServerRun N.Link.link_state G.passed N.door_state (keeping records steady sure faults settles) (map (λ word. string_bytes word) words.now) keepers.items token_key (C.moment_told clock.now) doors.items (O.sink_state report.old) (O.sink_state report.new) result }
{
    serve_kept(
        rt, alloc, words, keepers, doors, clock, gate, token_key, report, notes,
    )
}
