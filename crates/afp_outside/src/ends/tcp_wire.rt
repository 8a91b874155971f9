//! A link over TCP.
ghost use Rattle.std.specs.Prelude.{◌≡◌, ◌≤◌, ◌<◌, length, IfOk, IfSome};
ghost use Rattle.afp_outside.specs.ends.Link.{IsFresh, Reads};

use crate::ends::link::{Link, ReadResult, Wrote};
use crate::ends::steady_clock::SteadyClock;
use afp_base::Moment;
use std::io;
use std::io::{ErrorKind, Read, Write};
use std::marker::Model;
use std::net::{Shutdown, TcpStream};
use std::time::{Clock, Duration};

/// How many seconds a read waits, and each try of a write. A read that waits longer is a quiet.
const WAIT_SECONDS: u64 = 1;

/// How often a write is tried that takes no byte, before it has failed: for a minute.
const WRITE_TRIES: u32 = 60;

/// How many seconds a link that was handed back is read at most before it is closed. The last read may
/// wait for `WAIT_SECONDS` more.
const CLOSING_SECONDS: u64 = 5;

/// How many bytes of a link that was handed back are dropped before it is closed: with those of one read
/// more at most.
const CLOSING_BYTES: usize = 16 * 1024 * 1024;

/// How many bytes are dropped at once.
const CLOSING_ROOM: usize = 4096;

/// A link over TCP. It counts its errors and tells no bytes.
///
/// A read that waits longer than a second is a quiet. A write that takes no byte in 60 seconds has failed.
/// The moments are those of a clock that the wall clock sets once, where the link is made; they never go
/// back. Where the clock fails, the last moment stays and a fault of reading is counted.
#[derive(Drop)]
pub struct TcpWire<C> {
    stream: TcpStream,
    clock: SteadyClock<C>,
    moment: Moment,
    last_read: Moment,
    ended: bool,
    read_faults: u64,
    write_faults: u64,
    quiets: u64,
}

impl<C> Model for TcpWire<C> {
    ghost use Rattle.std.specs.Prelude.{None};
    ghost use Rattle.afp_outside.specs.ends.Link.{LinkState};

    ghost Value = { LinkState };

    ghost view = { λ a. record {
      events = None;
      coming = None;
      written = None;
      ended = a.ended;
      read_faults = a.read_faults;
      write_faults = a.write_faults;
      quiets = a.quiets;
      now = a.moment;
      last_read = a.last_read;
    } };
}

impl<C: Clock + Drop> TcpWire<C> {
    /// A link over a stream, made now. An error is one of the stream or of the clock.
    pub fn new(stream: TcpStream, clock: C) -> io::Result<TcpWire<C>>
        ensures { IfOk result IsFresh }
    {
        stream.set_nodelay(true)?;
        stream.set_read_timeout(Some(Duration::from_secs(WAIT_SECONDS)))?;
        stream.set_write_timeout(Some(Duration::from_secs(WAIT_SECONDS)))?;
        let clock = SteadyClock::new(clock)?;
        let made = clock.set_at();
        Ok(TcpWire {
            stream,
            clock,
            moment: made,
            last_read: made,
            ended: false,
            read_faults: 0,
            write_faults: 0,
            quiets: 0,
        })
    }
}

impl<C: Clock> TcpWire<C> {
    /// Shuts the writing side, and then reads and drops what comes, so that the peer gets what was written.
    /// It returns where the peer ends or the link fails, after `CLOSING_SECONDS` (and the wait of a last
    /// read), or behind `CLOSING_BYTES`. It counts nothing.
    pub(crate) fn shut(&mut self)
        ensures { self.new ≡ self.old }
    {
        if self.stream.shutdown(Shutdown::Write).is_ok() {
            drop_what_comes(&mut self.stream, &self.clock);
        }
    }
}

/// Reads and drops what comes, within the bounds of a link that is closed.
fn drop_what_comes<C: Clock>(stream: &mut TcpStream, clock: &SteadyClock<C>) {
    let Some(begun) = clock.gone() else {
        return;
    };
    let mut left = CLOSING_BYTES;
    for _ in 0..u64::MAX {
        let Some(dropped) = drop_some(stream) else {
            return;
        };
        left = left.saturating_sub(dropped);
        if left == 0 || !is_closing_time(clock, begun) {
            return;
        }
    }
}

/// Whether a link that began to be closed so long after its clock was set is read on.
fn is_closing_time<C: Clock>(clock: &SteadyClock<C>, begun: Duration) -> bool {
    match clock.gone() {
        Some(gone) => gone.saturating_sub(begun).as_secs() < CLOSING_SECONDS,
        None => false,
    }
}

/// Reads bytes and drops them: how many, 0 where none came in the time that a read waits. `None`: none is
/// left, or the read failed.
fn drop_some(stream: &mut TcpStream) -> Option<usize> {
    let mut room = [0; CLOSING_ROOM];
    match stream.read(&mut room) {
        Ok(n) if n > 0 => Some(n),
        Err(error) if has_only_waited(&error) => Some(0),
        _ => None,
    }
}

/// Writes the first bytes of a piece, as many as go out at once. `None`: none went out in all tries, or the
/// write failed.
fn write_some(stream: &mut TcpStream, piece: &[u8]) -> Option<usize>
    ensures least { IfSome result (λ n. 1 ≤ n) }
    ensures most { IfSome result (λ n. n ≤ length piece.now) }
{
    for _ in 0..WRITE_TRIES {
        match stream.write(piece) {
            Ok(n) if n > 0 => return Some(n),
            Err(error) if has_only_waited(&error) => {}
            _ => return None,
        }
    }
    None
}

impl<C: Clock> Link for TcpWire<C> {
    ghost link_state = { λ link. link };

    fn read(&mut self, room: &mut [u8]) -> ReadResult
        requires { 0 < length room.old }
        ensures reads { Reads self.old room.new result self.new }
        ensures steady { self.old.now ≤ self.new.now }
    {
        let outcome = self.stream.read(room);
        match self.clock.moment() {
            Some(moment) => self.moment = self.moment.later(moment),
            None => self.read_faults = self.read_faults.saturating_add(1),
        }
        match outcome {
            Ok(0) => {
                self.ended = true;
                ReadResult::End
            }
            Ok(n) => {
                self.last_read = self.moment;
                ReadResult::Got(n)
            }
            Err(error) if has_only_waited(&error) => {
                self.quiets = self.quiets.saturating_add(1);
                ReadResult::Quiet
            }
            Err(_) => {
                self.read_faults = self.read_faults.saturating_add(1);
                ReadResult::Failed
            }
        }
    }

    fn write(&mut self, piece: &[u8]) -> Wrote {
        match write_some(&mut self.stream, piece) {
            Some(n) => Wrote::Took(n),
            None => {
                self.write_faults = self.write_faults.saturating_add(1);
                Wrote::Failed
            }
        }
    }

    fn now(&self) -> Moment {
        self.moment
    }

    fn last_read(&self) -> Moment {
        self.last_read
    }
}

/// Whether a read or a write only waited, and nothing failed.
fn has_only_waited(error: &io::Error) -> bool {
    matches!(
        error.kind(),
        ErrorKind::WouldBlock | ErrorKind::TimedOut | ErrorKind::Interrupted
    )
}
