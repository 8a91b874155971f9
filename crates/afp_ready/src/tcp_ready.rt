//! A link over TCP that never waits.
ghost use Rattle.std.specs.Prelude.{◌≡◌, IfOk};
ghost use Rattle.afp_outside.specs.ends.Link.{IsFresh};

use afp_base::Moment;
use afp_outside::{ReadyLink, ReadyRead, ReadyWrote};
use mio::Registry;
use mio::net::TcpStream;
use std::io;
use std::io::{ErrorKind, Read, Write};
use std::marker::Model;
use std::net::Shutdown;

/// How many bytes are dropped at once.
const CLOSING_ROOM: usize = 4096;

/// How often bytes are dropped in a row.
const CLOSING_READS: u32 = 16;

/// A link over TCP that never waits. It counts its errors and tells no bytes.
#[derive(Drop)]
pub struct TcpReady {
    stream: TcpStream,
    moment: Moment,
    last_read: Moment,
    ended: bool,
    read_faults: u64,
    write_faults: u64,
    quiets: u64,
}

impl Model for TcpReady {
    ghost use Rattle.std.specs.Prelude.{None};
    ghost use Rattle.afp_outside.specs.ends.Link.{LinkState};

    ghost Value = { LinkState };

    ghost view = { λ a. record {
      events = None;
      coming = None;
      written = None;
      ended = a.ended;
      read_faults = a.read_faults;
      write_faults = a.write_faults;
      quiets = a.quiets;
      now = a.moment;
      last_read = a.last_read;
    } };
}

impl TcpReady {
    /// A link over a stream that does not wait, made now. An error is one of the stream.
    pub fn new(stream: TcpStream, now: Moment) -> io::Result<TcpReady>
        ensures { IfOk result IsFresh }
    {
        stream.set_nodelay(true)?;
        Ok(TcpReady {
            stream,
            moment: now,
            last_read: now,
            ended: false,
            read_faults: 0,
            write_faults: 0,
            quiets: 0,
        })
    }

    /// It is watched no longer. It counts nothing.
    pub(crate) fn leave(&mut self, registry: &Registry)
        ensures { self.new ≡ self.old }
    {
        let _left = registry.deregister(&mut self.stream);
    }

    /// Ends the writing side. `false`: the peer has ended too, or the link failed. It counts nothing.
    pub(crate) fn shut(&mut self) -> bool
        ensures { self.new ≡ self.old }
    {
        !self.ended && self.stream.shutdown(Shutdown::Write).is_ok()
    }

    /// Drops what has come. `false`: nothing more comes, or the link failed. It counts nothing.
    pub(crate) fn drop_some(&mut self) -> bool
        ensures { self.new ≡ self.old }
    {
        drop_some_of(&mut self.stream)
    }
}

/// Drops what has come, so many bytes at most. `false`: nothing more comes, or the stream failed.
fn drop_some_of(stream: &mut TcpStream) -> bool {
    let mut room = [0; CLOSING_ROOM];
    for _ in 0..CLOSING_READS {
        match stream.read(&mut room) {
            Ok(n) if n > 0 => {}
            Err(error) if has_to_wait(&error) => return true,
            _ => return false,
        }
    }
    true
}

impl ReadyLink for TcpReady {
    ghost link_state = { λ link. link };

    fn read_ready(&mut self, room: &mut [u8], now: Moment) -> ReadyRead {
        match self.stream.read(room) {
            Ok(0) => {
                self.moment = self.moment.later(now);
                self.ended = true;
                ReadyRead::End
            }
            Ok(n) => {
                self.moment = self.moment.later(now);
                self.last_read = self.moment;
                ReadyRead::Got(n)
            }
            Err(error) if has_to_wait(&error) => ReadyRead::NotYet,
            Err(_) => {
                self.moment = self.moment.later(now);
                self.read_faults = self.read_faults.saturating_add(1);
                ReadyRead::Failed
            }
        }
    }

    fn write_ready(&mut self, piece: &[u8]) -> ReadyWrote {
        match self.stream.write(piece) {
            Ok(n) if n > 0 => ReadyWrote::Took(n),
            Err(error) if has_to_wait(&error) => ReadyWrote::NotYet,
            _ => {
                self.write_faults = self.write_faults.saturating_add(1);
                ReadyWrote::Failed
            }
        }
    }

    fn be_quiet(&mut self, now: Moment) {
        self.moment = self.moment.later(now);
        self.quiets = self.quiets.saturating_add(1);
    }

    fn give_up(&mut self) {
        self.write_faults = self.write_faults.saturating_add(1);
    }

    fn now(&self) -> Moment {
        self.moment
    }

    fn last_read(&self) -> Moment {
        self.last_read
    }
}

/// Whether a read or a write would have to wait, and nothing failed.
fn has_to_wait(error: &io::Error) -> bool {
    matches!(error.kind(), ErrorKind::WouldBlock | ErrorKind::Interrupted)
}
