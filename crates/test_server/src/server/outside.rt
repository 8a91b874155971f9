//! Links, doors, sinks, sources and clocks, as the server's crates meet them.
use crate::server::taped::{Plan, link_of, moment};
use afp_base::{Bytes, OutOfMemory};
use afp_outside::{
    Accepted, Clock, Link, Listener, ReadResult, Sink, Source, SteadyClock, SystemClock, TapeClock,
    TapeLink, TapeListener, TapeSink, TapeSource, TcpDoor, Wrote,
};
use std::alloc::Global;
use std::cell::Cell;
use std::io::ErrorKind;
use std::process::Abort;
use std::test::Fail;
use std::time::Duration;
use std::{io, time};

/// What each read in turn gives, its bytes, the moment after it, and that of the last bytes.
fn reads() -> &'static [(ReadResult, &'static str, u32, u32)] {
    &[
        (ReadResult::Got(2), "ab", 110, 110),
        (ReadResult::Failed, "", 120, 110),
        (ReadResult::Quiet, "", 130, 110),
        (ReadResult::Got(3), "cde", 130, 130),
        (ReadResult::Got(1), "f", 130, 130),
        (ReadResult::End, "", 130, 130),
    ]
}

/// What each write of a text in turn did, and all that was written behind it.
fn writes() -> &'static [(Wrote, &'static str)] {
    &[
        (Wrote::Took(3), "hel"),
        (Wrote::Took(1), "helh"),
        (Wrote::Failed, "helh"),
        (Wrote::Took(5), "helhhello"),
    ]
}

/// Whether a link's next read gives this, with these bytes, at this moment, the last bytes at that one.
fn gives(link: &mut TapeLink, gave: ReadResult, text: &str, now: u32, last_read: u32) -> bool {
    let mut room = [0; 8];
    let is_given = link.read(&mut room) == gave && room.as_slice().starts_with(text.as_bytes());
    is_given && link.now() == moment(now) && link.last_read() == moment(last_read)
}

fn expect_reads(rt: &impl Abort, link: &mut TapeLink) {
    for (gave, text, now, last_read) in reads() {
        assert!(rt; gives(link, *gave, text, *now, *last_read), "{text}");
    }
}

fn expect_writes(rt: &impl Abort, link: &mut TapeLink) {
    for (wrote, written) in writes() {
        let is_wanted = link.write(b"hello") == *wrote && link.written() == written.as_bytes();
        assert!(rt; is_wanted, "{written}");
    }
}

/// A link that is read by `reads()` and then written by `writes()`.
fn planned_link(alloc: Global) -> Result<TapeLink, OutOfMemory> {
    let plan = Plan {
        reads: &[2, 0, 3],
        writes: &[3, 0],
        moments: &[110, 120, 130],
        failing: &[1, 8],
    };
    link_of(alloc, b"abcdef", &plan)
}

#[test]
fn a_link_in_memory_follows_its_plan(rt: HostRuntime) -> Result<(), Fail> {
    let mut link = planned_link(rt.alloc())?;
    expect_reads(&rt, &mut link);
    expect_writes(&rt, &mut link);
    Ok(())
}

/// A sink that takes 3 bytes, and then fails.
fn planned_sink(alloc: Global) -> Result<TapeSink, OutOfMemory> {
    TapeSink::new(alloc, [3].to_vec(alloc)?, [1].to_vec(alloc)?)
}

fn expect_report(rt: &impl Abort, sink: &mut TapeSink) {
    let is_cut = sink.write(b"hello") == Wrote::Took(3) && sink.write(b"lo") == Wrote::Failed;
    assert!(rt; is_cut && sink.written() == b"hel".as_slice());
}

/// What each read of a source in turn gives, and its bytes.
fn source_reads() -> &'static [(ReadResult, &'static str)] {
    &[
        (ReadResult::Got(2), "ab"),
        (ReadResult::Failed, ""),
        (ReadResult::Got(1), "c"),
        (ReadResult::End, ""),
    ]
}

/// A source that gives two bytes, fails, and gives the rest.
fn planned_source(alloc: Global) -> Result<TapeSource, OutOfMemory> {
    let mut bytes = Bytes::new(alloc);
    bytes.extend(b"abc")?;
    TapeSource::new(bytes, [2].to_vec(alloc)?, [1].to_vec(alloc)?)
}

fn expect_source(rt: &impl Abort, source: &mut TapeSource) {
    for (gave, text) in source_reads() {
        let mut room = [0; 8];
        let is_wanted = source.read(&mut room) == *gave
            && room.as_slice().starts_with(text.as_bytes());
        assert!(rt; is_wanted, "{text}");
    }
}

/// What each accept in turn tells, and the first byte of its link.
fn accepts() -> &'static [(&'static str, u8)] {
    &[("failed", 0), ("link", b'a'), ("closed", 0)]
}

/// A door through which a link comes, and whose first accept fails.
fn planned_door(alloc: Global) -> Result<TapeListener, OutOfMemory> {
    let failing = [0].to_vec(alloc)?;
    let plan = Plan {
        reads: &[],
        writes: &[],
        moments: &[],
        failing: &[],
    };
    let link = link_of(alloc, b"a", &plan)?;
    TapeListener::new(alloc, vec![in alloc; link]?, failing)
}

/// Accepts, reads a byte of the link, and hands it back. It gives what the accept told, and the byte.
fn accepted(door: &mut TapeListener) -> (&'static str, u8) {
    match door.accept() {
        Accepted::Link(mut link) => {
            let mut room = [0; 1];
            let _ = link.read(&mut room);
            door.back(link);
            ("link", room[0])
        }
        Accepted::Failed => ("failed", 0),
        Accepted::Closed => ("closed", 0),
    }
}

/// Whether the next accept tells this, of a link that begins with this byte.
fn is_accepted(door: &mut TapeListener, told: &str, first: u8) -> bool {
    let (said, byte) = accepted(door);
    said == told && byte == first
}

fn expect_accepts(rt: &impl Abort, door: &mut TapeListener) {
    for (told, first) in accepts() {
        assert!(rt; is_accepted(door, told, *first), "{told}");
    }
    assert!(rt; door.returned().len() == 1);
}

#[test]
fn doors_sources_and_sinks_follow_their_plans(rt: HostRuntime) -> Result<(), Fail> {
    assert!(rt; matches!(TcpDoor::closed(rt).accept(), Accepted::Closed));
    expect_accepts(&rt, &mut planned_door(rt.alloc())?);
    expect_report(&rt, &mut planned_sink(rt.alloc())?);
    expect_source(&rt, &mut planned_source(rt.alloc())?);
    Ok(())
}

/// Seconds since 1970, and the moment.
fn moments() -> &'static [(u64, u32)] {
    &[
        (0, 0),
        (946_684_799, 0),
        (946_684_801, 1),
        (1_000_000_000, 53_315_200),
        (3_094_168_447, 2_147_483_647),
        (u64::MAX, 2_147_483_647),
    ]
}

/// A system's clock that stands at so many seconds since 1970, or fails.
#[derive(Drop)]
struct Stopped(Option<u64>);

impl time::Clock for Stopped {
    fn monotonic(&self) -> io::Result<Duration> {
        self.since_1970()
    }

    fn since_1970(&self) -> io::Result<Duration> {
        match self.0 {
            Some(seconds) => Ok(Duration::from_secs(seconds)),
            None => Err(io::Error::from(ErrorKind::Other)),
        }
    }
}

/// A system's clock that stands 0.9 seconds behind 2000-01-01 00:00 GMT, and whose time goes on by 1.1 seconds once it was read.
#[derive(Drop)]
struct Going {
    millis: Cell<u64>,
}

impl time::Clock for Going {
    fn monotonic(&self) -> io::Result<Duration> {
        let gone = Duration::from_millis(self.millis.get());
        self.millis.set(1_100);
        Ok(gone)
    }

    fn since_1970(&self) -> io::Result<Duration> {
        Ok(Duration::from_millis(946_684_800_900))
    }
}

/// What a clock tells, through its trait.
fn told<C: Clock>(clock: &C) -> u32 {
    clock.now().seconds()
}

/// What a steady clock tells that is set by this one.
fn told_steadily<C: time::Clock + Drop>(clock: C) -> Option<u32> {
    let clock = SteadyClock::new(clock).ok()?;
    Some(clock.moment()?.seconds())
}

/// Whether both clocks tell these moments of a system's clock that stands so.
fn tell(unix: Option<u64>, seconds: u32, steadily: Option<u32>) -> bool {
    told(&SystemClock::new(&Stopped(unix))) == seconds && told_steadily(Stopped(unix)) == steadily
}

/// What a steady clock tells at first that is set by a clock whose time goes on.
fn told_going() -> Option<u32> {
    told_steadily(Going {
        millis: Cell::new(0),
    })
}

#[test]
fn clocks_tell_their_moments(rt: HostRuntime) {
    for (unix, seconds) in moments() {
        assert!(rt; tell(Some(*unix), *seconds, Some(*seconds)), "{unix}");
    }
    assert!(rt; tell(None, 0, None));
    assert!(rt; told_going() == Some(2) && told(&TapeClock::new(moment(100))) == 100);
}
