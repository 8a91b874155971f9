//! A dialer for links over TCP.
ghost use Rattle.std.specs.Prelude.{◌≡◌, [], IfOk};
ghost use Rattle.afp_outside.specs.ends.Dialer.{Dials, TakesBack};
ghost use Rattle.afp_outside.specs.ends.Link.{IsFresh};

use crate::ends::dialer::{DialFault, Dialer};
use crate::ends::tcp_wire::TcpWire;
use ghost_log::Log;
use std::io;
use std::io::ErrorKind;
use std::marker::Model;
use std::net::{Net, TcpStream};
use std::string::String;
use std::time::Clock;
use thiserror::Error;

/// The port of an address that names none (AFP over TCP, "afpovertcp").
const AFP_PORT: u16 = 548;

/// Why a link was not dialled.
#[derive(Clone, Copy, Debug, Error)]
pub enum DialReason {
    /// The address can't be read.
    #[error("the address is none of HOST and HOST:PORT")]
    Address,
    /// The system's error, that of the last address that was tried.
    #[error("{0}")]
    System(io::Error),
}

/// A dialer for links over TCP to one peer. It counts its errors, and keeps the reason of the last one.
///
/// The peer's address is `HOST` or `HOST:PORT`, parted at the last `:`, where HOST is a host's name, an IPv4
/// address, or an IPv6 address, which may stand in brackets; without a port it is 548. A dial tries the
/// addresses of a host's name in turn. It fails where the address can't be read, where the host is not found,
/// and where none of its addresses answers. A link that is handed back is shut for writing, and what its peer
/// still sends is read and dropped within bounds (`TcpWire::shut`) before it is closed.
#[derive(Drop)]
pub struct TcpDialer<R> {
    rt: R,
    address: String,
    handed: Log<()>,
    back: Log<TcpWire<R>>,
    faults: u64,
    reason: Option<DialReason>,
}

impl<R> Model for TcpDialer<R> {
    ghost use Rattle.std.specs.Prelude.{length};
    ghost use Rattle.afp_outside.specs.ends.Dialer.{DialerState};
    ghost use Rattle.afp_outside.specs.ends.Link.{LinkState};

    ghost Value = { DialerState LinkState };

    ghost view = { λ a. record { handed = length a.handed.items; back = a.back.items; faults = a.faults } };
}

impl<R> TcpDialer<R> {
    /// A dialer to the peer at this address.
    pub fn new(rt: R, address: String) -> TcpDialer<R>
        ensures { result ≡ record { handed = 0; back = []; faults = 0 } }
    {
        TcpDialer {
            rt,
            address,
            handed: Log::new(),
            back: Log::new(),
            faults: 0,
            reason: None,
        }
    }

    /// Why the last dial that failed did, for a person to read; `None` where none failed.
    pub fn reason(&self) -> Option<DialReason> {
        self.reason
    }
}

/// The number of a port: decimal digits without a leading zero.
fn read_port(text: &str) -> Option<u16> {
    if text.starts_with('0') || text.starts_with('+') {
        return None;
    }
    text.parse::<u16>().ok()
}

/// A host without the brackets in which an IPv6 address may stand.
fn without_brackets(host: &str) -> &str {
    match host.strip_prefix('[') {
        Some(inside) => inside.strip_suffix(']').unwrap_or(host),
        None => host,
    }
}

/// The host and the port of an address, or `None` where it can't be read.
fn host_and_port(address: &str) -> Option<(&str, u16)> {
    if address.ends_with(']') {
        return Some((without_brackets(address), AFP_PORT));
    }
    match address.rsplit_once(':') {
        Some((host, port)) => Some((without_brackets(host), read_port(port)?)),
        None => Some((address, AFP_PORT)),
    }
}

/// Whether no link was dialled for want of memory, or the dial failed.
fn fault_of(reason: &DialReason) -> DialFault {
    match reason {
        DialReason::System(error) if error.kind() == ErrorKind::OutOfMemory => DialFault::Memory,
        _ => DialFault::Failed,
    }
}

impl<R: Net<Stream = TcpStream> + Clock + Clone + Drop> TcpDialer<R> {
    /// A link to the peer.
    fn next_wire(&self) -> Result<TcpWire<R>, DialReason>
        ensures { IfOk result IsFresh }
    {
        let Some((host, port)) = host_and_port(self.address.as_str()) else {
            return Err(DialReason::Address);
        };
        let Ok(rt) = self.rt.clone() else {
            return Err(DialReason::System(io::Error::from(ErrorKind::OutOfMemory)));
        };
        let stream = match TcpStream::connect(&self.rt, (host, port)) {
            Ok(stream) => stream,
            Err(error) => return Err(DialReason::System(error)),
        };
        TcpWire::new(stream, rt).map_err(DialReason::System)
    }
}

impl<R: Net<Stream = TcpStream> + Clock + Clone + Drop> Dialer for TcpDialer<R> {
    type Link = TcpWire<R>;

    ghost dialer_state = { λ dialer. dialer };

    fn dial(&mut self) -> Result<TcpWire<R>, DialFault>
        ensures dials { Dials (λ link. link) self.old result self.new }
    {
        match self.next_wire() {
            Ok(wire) => {
                self.handed = self.handed.and(&());
                Ok(wire)
            }
            Err(reason) => {
                self.reason = Some(reason);
                match fault_of(&reason) {
                    DialFault::Memory => Err(DialFault::Memory),
                    DialFault::Failed => {
                        self.faults = self.faults.saturating_add(1);
                        Err(DialFault::Failed)
                    }
                }
            }
        }
    }

    fn back(&mut self, link: TcpWire<R>)
        ensures back { TakesBack self.old link self.new }
    {
        self.back = self.back.and(&link);
        let mut link = link;
        link.shut();
    }
}
