//! Runs of the whole server.
ghost use Rattle.std.specs.Prelude.{◌≡◌, ◌<◌, false, All, IfOk};
ghost use Rattle.afp_outside.specs.ends.Tape.{IsFreshTape};

use crate::numbers::{moment_of, numbers_of, sizes_of};
use afp_base::OutOfMemory;
use afp_outside::{OpenGate, TapeClock, TapeLink, TapeListener, TapeSink};
use afpd_lib::server::server::{Finish, afpd};
use afpd_lib::server::setup::{VolumePlace, setup};
use record_keeper::{Keeper, MemoryKeeper};
use std::alloc::Global;
use std::sync::Wait;
use std::thread::Threads;
use test_lines::lines::{bytes_of, digits_of, number_of, owned};

/// A link that waits: the most bytes of each read, and what comes.
#[derive(Drop)]
pub struct Waiting {
    pub reads: String,
    pub bytes: String,
}

fn link_of(alloc: Global, waiting: &Waiting) -> Result<TapeLink, OutOfMemory>
    ensures { IfOk result IsFreshTape }
{
    let coming = owned(alloc, waiting.bytes.as_str())?;
    let reads = sizes_of(alloc, waiting.reads.as_str())?;
    let (writes, moments, failing) = (Vec::new(alloc), Vec::new(alloc), Vec::new(alloc));
    TapeLink::new(
        alloc,
        moment_of(100),
        coming,
        reads,
        writes,
        moments,
        failing,
    )
}

/// The links that come through a door, of so many doors, among which those that wait are dealt out in turn, up to so many a door.
fn links_of(
    alloc: Global,
    waiting: &[Waiting],
    door: usize,
    doors: usize,
    limit: usize,
) -> Result<Vec<TapeLink>, OutOfMemory>
    requires { 0 < doors }
    ensures { IfOk result (λ links. All IsFreshTape links.items) }
{
    let mut links = Vec::new(alloc);
    for one in waiting.iter().skip(door).step_by(doors).take(limit) {
        links.push(link_of(alloc, one)?)?;
    }
    Ok(links)
}

fn door_of(alloc: Global, links: Vec<TapeLink>, accepts: &str) -> Result<TapeListener, OutOfMemory>
    requires { All IsFreshTape links.items }
    ensures { IfOk result (λ door. door.closed ≡ false) }
{
    let failing = numbers_of(alloc, accepts)?;
    TapeListener::new(alloc, links, failing)
}

/// So many doors, through which the links that wait come.
fn doors_of(
    alloc: Global,
    waiting: &[Waiting],
    accepts: &str,
    doors: usize,
    limit: usize,
) -> Result<Vec<TapeListener>, OutOfMemory>
    ensures { IfOk result (λ made. All (λ door. door.closed ≡ false) made.items) }
{
    let mut made = Vec::new(alloc);
    for door in 0..doors {
        let links = links_of(alloc, waiting, door, doors, limit)?;
        made.push(door_of(alloc, links, accepts)?)?;
    }
    Ok(made)
}

/// The doors that the words ask for; one, where they say nothing.
fn doors_for(
    alloc: Global,
    waiting: &[Waiting],
    accepts: &str,
    words: &[String],
) -> Result<Vec<TapeListener>, OutOfMemory>
    ensures { IfOk result (λ made. All (λ door. door.closed ≡ false) made.items) }
{
    let (mut doors, mut limit) = (1, usize::MAX);
    if let Ok(settings) = setup(alloc, words) {
        doors = usize::from(settings.workers);
        if settings.links > 0 {
            limit = settings.links as usize;
        }
    }
    doors_of(alloc, waiting, accepts, doors, limit)
}

fn word_of(alloc: Global, word: &str) -> Result<String, OutOfMemory> {
    if let Some(digits) = word.strip_prefix("0x") {
        let bytes = bytes_of(alloc, digits);
        return match str::from_utf8(bytes.as_slice()) {
            Ok(text) => Ok(String::from_str(alloc, text)?),
            Err(_) => Ok(String::new(alloc)),
        };
    }
    Ok(String::from_str(alloc, word)?)
}

fn words_of(alloc: Global, words: &[&str]) -> Result<Vec<String>, OutOfMemory> {
    let mut all = Vec::new(alloc);
    for word in words {
        all.push(word_of(alloc, word)?)?;
    }
    Ok(all)
}

/// Appends a report, the end of each line as `/`.
fn put_report(text: &mut String, report: &[u8]) -> Result<(), OutOfMemory> {
    for byte in report {
        if *byte == b'\n' {
            text.push('/')?;
        } else {
            text.push(char::from(*byte))?;
        }
    }
    Ok(())
}

/// What came of a run.
fn ran(
    alloc: Global,
    status: u8,
    report: &[u8],
    doors: &[TapeListener],
) -> Result<String, OutOfMemory> {
    let mut text = String::new(alloc);
    write!(text, "{status} ")?;
    put_report(&mut text, report)?;
    for door in doors {
        put_links(alloc, &mut text, door.returned())?;
    }
    Ok(text)
}

/// Appends what was written to each link.
fn put_links(alloc: Global, text: &mut String, links: &[TapeLink]) -> Result<(), OutOfMemory> {
    for link in links {
        let digits = digits_of(alloc, link.written())?;
        write!(text, " {digits}")?;
    }
    Ok(())
}

/// So many keepers in memory that hold nothing, and whose calls of these numbers fail; the run over them.
fn serve_over<R: Threads + Wait + Sync>(
    threads: &R,
    alloc: Global,
    count: u64,
    failing: &str,
    words: &[String],
    doors: Vec<TapeListener>,
    report: &mut TapeSink,
    notes: &mut TapeSink,
) -> Result<Finish<TapeListener>, OutOfMemory>
    requires { All (λ door. door.closed ≡ false) doors.items }
{
    let mut keepers: Vec<Box<dyn Keeper + Send>> = Vec::new(alloc);
    for _ in 0..count {
        let keeper = MemoryKeeper::new(alloc, numbers_of(alloc, failing)?);
        keepers.push(Box::new(alloc, keeper)?)?;
    }
    let clock = TapeClock::new(moment_of(100));
    Ok(afpd(
        threads, alloc, words, keepers, doors, &clock, &OpenGate, [0; 32], report, notes,
    ))
}

/// A sink that takes all.
fn sink(alloc: Global) -> Result<TapeSink, OutOfMemory> {
    TapeSink::new(alloc, Vec::new(alloc), Vec::new(alloc))
}

/// What came of a run over such keepers.
fn run_over<R: Threads + Wait + Sync>(
    threads: &R,
    alloc: Global,
    waiting: &[Waiting],
    count: u64,
    failing: &str,
    accepts: &str,
    report: &str,
    words: &[&str],
) -> Result<String, OutOfMemory> {
    let words = words_of(alloc, words)?;
    let doors = doors_for(alloc, waiting, accepts, words.as_slice())?;
    let mut told = TapeSink::new(alloc, Vec::new(alloc), numbers_of(alloc, report)?)?;
    let mut notes = sink(alloc)?;
    let finish = serve_over(
        threads,
        alloc,
        count,
        failing,
        words.as_slice(),
        doors,
        &mut told,
        &mut notes,
    )?;
    ran(
        alloc,
        finish.status,
        told.written(),
        finish.doors.as_slice(),
    )
}

/// `run KEEPERS FAILING ACCEPTS REPORT WORD..`, over the links that wait.
pub fn run<R: Threads + Wait + Sync>(
    threads: &R,
    alloc: Global,
    waiting: &[Waiting],
    words: &[&str],
) -> Result<Option<String>, OutOfMemory> {
    let [_, keepers, failing, accepts, report, words @ ..] = words else {
        return Ok(None);
    };
    let count = number_of(keepers);
    let text = run_over(
        threads, alloc, waiting, count, failing, accepts, report, words,
    )?;
    Ok(Some(text))
}

/// `notes KEEPERS WORD..`, over no link.
pub fn notes<R: Threads + Wait + Sync>(
    threads: &R,
    alloc: Global,
    words: &[&str],
) -> Result<Option<String>, OutOfMemory> {
    let [_, keepers, words @ ..] = words else {
        return Ok(None);
    };
    let count = number_of(keepers);
    let words = words_of(alloc, words)?;
    let words = words.as_slice();
    let doors = doors_for(alloc, &[], "-", words)?;
    let (mut told, mut noted) = (sink(alloc)?, sink(alloc)?);
    let finish = serve_over(
        threads, alloc, count, "-", words, doors, &mut told, &mut noted,
    )?;
    let mut text = ran(alloc, finish.status, told.written(), &[])?;
    text.push_str(" and ")?;
    put_report(&mut text, noted.written())?;
    Ok(Some(text))
}

/// Appends the places of volumes.
fn put_places(text: &mut String, places: &[VolumePlace]) -> Result<(), OutOfMemory> {
    for place in places {
        match place {
            VolumePlace::Memory => text.push_str("memory ")?,
            VolumePlace::File(name) => {
                text.push_str("file ")?;
                put_report(text, name.as_slice())?;
                text.push(' ')?;
            }
        }
    }
    Ok(())
}

/// `settings WORD..`.
pub fn settings(alloc: Global, words: &[&str]) -> Result<Option<String>, OutOfMemory> {
    let [_, words @ ..] = words else {
        return Ok(None);
    };
    let words = words_of(alloc, words)?;
    match setup(alloc, words.as_slice()) {
        Ok(settings) => {
            let mut text = String::new(alloc);
            put_places(&mut text, settings.places.as_slice())?;
            let (port, workers, links) = (settings.port, settings.workers, settings.links);
            write!(text, "port {port} workers {workers} links {links}")?;
            Ok(Some(text))
        }
        Err(_) => Ok(Some(String::from_str(alloc, "none")?)),
    }
}
