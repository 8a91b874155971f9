//! A door for links over TCP.
ghost use Rattle.std.specs.Prelude.{◌≡◌, [], false, Some, IfSome, length};
ghost use Rattle.afp_outside.specs.ends.Link.{IsFresh};
ghost use Rattle.afp_outside.specs.ends.Listener.{Accepts, TakesBack};
ghost use Rattle.afp_outside.specs.ends.Tcp.{Limits, limit_of};

use crate::ends::listener::{Accepted, Listener};
use crate::ends::remedy::{is_one_socket, is_want};
use crate::ends::tcp_wire::TcpWire;
use ghost_log::Log;
use std::marker::Model;
use std::net::{Ipv4Addr, Net, TcpListener, TcpStream};
use std::thread;
use std::time::{Clock, Duration};

/// How many milliseconds an accept waits where the system has no descriptor or no memory.
const PAUSE_MILLISECONDS: u64 = 100;

/// How often one accept waits so, before it fails: for a minute.
const MOST_PAUSES: u32 = 600;

/// A door for links over TCP. It counts its errors.
///
/// An accept fails where the port could not be opened, where the system has had no descriptor or no memory
/// for a minute, and at an error that nothing heals. A link that is handed back is shut for writing, and
/// what its peer still sends is read and dropped within bounds (`TcpWire::shut`) before it is closed.
#[derive(Drop)]
pub struct TcpDoor<R> {
    rt: R,
    listener: Option<TcpListener>,
    left: Option<u64>,
    handed: Log<()>,
    back: Log<TcpWire<R>>,
    closed: bool,
    faults: u64,
}

impl<R> Model for TcpDoor<R> {
    ghost use Rattle.std.specs.Prelude.{length};
    ghost use Rattle.afp_outside.specs.ends.Tcp.{TcpState};

    ghost Value = { TcpState };

    ghost view = { λ a. record {
      door = record { handed = length a.handed.items; back = a.back.items; closed = a.closed; faults = a.faults };
      left = a.left;
    } };
}

impl<R> TcpDoor<R> {
    fn with(rt: R, listener: Option<TcpListener>, left: Option<u64>) -> TcpDoor<R>
        ensures { result ≡ record { door = record { handed = 0; back = []; closed = false; faults = 0 }; left = left } }
    {
        TcpDoor {
            rt,
            listener,
            left,
            handed: Log::new(),
            back: Log::new(),
            closed: false,
            faults: 0,
        }
    }

    /// A door that is closed.
    pub fn closed(rt: R) -> TcpDoor<R>
        ensures { result ≡ record { door = record { handed = 0; back = []; closed = false; faults = 0 }; left = Some 0 } }
    {
        TcpDoor::with(rt, None, Some(0))
    }
}

impl<R: Net<Listener = TcpListener, Stream = TcpStream>> TcpDoor<R> {
    /// A door at a port of every address of this host, which is closed once it has handed out
    /// `limit` links, and never where that is 0. Where the port can't be opened, each accept fails.
    pub fn bind(rt: R, port: u16, limit: u64) -> TcpDoor<R>
        ensures { result ≡ record { door = record { handed = 0; back = []; closed = false; faults = 0 }; left = limit_of limit } }
    {
        let listener = TcpListener::bind(&rt, (Ipv4Addr::UNSPECIFIED, port)).ok();
        TcpDoor::over(rt, listener, limit)
    }

    /// A door at a port that is open, which is closed once it has handed out `limit` links, and never where that is 0. Where
    /// there is none, each accept fails.
    pub fn over(rt: R, listener: Option<TcpListener>, limit: u64) -> TcpDoor<R>
        ensures { result ≡ record { door = record { handed = 0; back = []; closed = false; faults = 0 }; left = limit_of limit } }
    {
        let left = if limit == 0 { None } else { Some(limit) };
        TcpDoor::with(rt, listener, left)
    }

    /// Another door at the same port, which is closed once it has handed out `limit` links, and never where that is 0. Where
    /// the port is not open, or can't be opened again, each accept fails.
    pub fn beside(&self, rt: R, limit: u64) -> TcpDoor<R>
        ensures { result ≡ record { door = record { handed = 0; back = []; closed = false; faults = 0 }; left = limit_of limit } }
    {
        let listener = match &self.listener {
            Some(listener) => listener.try_clone().ok(),
            None => None,
        };
        TcpDoor::over(rt, listener, limit)
    }
}

impl<R: Clock + Clone + Drop> TcpDoor<R> {
    /// A link over a socket that was accepted, or `None` where its options or its clock fail.
    fn wire_over(&self, stream: TcpStream) -> Option<TcpWire<R>>
        ensures { IfSome result IsFresh }
    {
        TcpWire::new(stream, self.rt.clone().ok()?).ok()
    }

    /// The next link, or `None` where the door fails.
    ///
    /// A socket whose options or clock fail is dropped. An error of one socket alone is tried again at once,
    /// want of descriptors or of memory after a pause.
    fn next_wire(&self) -> Option<TcpWire<R>>
        ensures { IfSome result IsFresh }
    {
        let listener = self.listener.as_ref()?;
        let mut pauses = 0;
        for _ in 0..u64::MAX {
            match listener.accept() {
                Ok((stream, _)) => {
                    if let Some(wire) = self.wire_over(stream) {
                        return Some(wire);
                    }
                }
                Err(error) => match error.raw_os_error() {
                    Some(number) if is_want(number) && pauses < MOST_PAUSES => {
                        pauses += 1;
                        thread::sleep(&self.rt, Duration::from_millis(PAUSE_MILLISECONDS));
                    }
                    Some(number) if !is_one_socket(number) => return None,
                    _ => {}
                },
            }
        }
        None
    }
}

impl<R: Clock + Clone + Drop> Listener for TcpDoor<R> {
    type Link = TcpWire<R>;

    ghost door_state = { λ door. door.door };

    fn accept(&mut self) -> Accepted<TcpWire<R>>
        ensures accepts { Accepts (λ link. link) self.old.door result self.new.door }
        ensures limits { Limits self.old.left result self.new.left }
    {
        if self.left == Some(0) {
            self.closed = true;
            return Accepted::Closed;
        }
        match self.next_wire() {
            Some(wire) => {
                self.handed = self.handed.and(&());
                self.left = self.left.map(|n| n - 1);
                Accepted::Link(wire)
            }
            None => {
                self.faults = self.faults.saturating_add(1);
                Accepted::Failed
            }
        }
    }

    fn back(&mut self, link: TcpWire<R>)
        ensures back { TakesBack self.old.door link self.new.door }
        ensures left { self.new.left ≡ self.old.left }
    {
        self.back = self.back.and(&link);
        let mut link = link;
        link.shut();
    }
}
