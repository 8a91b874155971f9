//! A dialer that dials again where the server is away.
ghost use Rattle.std.specs.Prelude.{◌≡◌, [], IfOk};
ghost use Rattle.afp_outside.specs.ends.Link.{IsFresh};

use afp_outside::{DialFault, DialReason, Dialer, TcpDialer, TcpWire};
use ghost_log::Log;
use std::marker::Model;
use std::thread;
use std::time::Duration;

/// A dialer to one peer over TCP, where a dial that fails is tried again, a second later, for some seconds.
#[derive(Drop)]
pub struct Patience<'a> {
    rt: &'a HostRuntime,
    dialer: TcpDialer<&'a HostRuntime>,
    first: u64,
    seconds: u64,
    handed: Log<()>,
    back: Log<TcpWire<&'a HostRuntime>>,
    faults: u64,
}

impl<'a> Model for Patience<'a> {
    ghost use Rattle.std.specs.Prelude.{length};
    ghost use Rattle.afp_outside.specs.ends.Dialer.{DialerState};
    ghost use Rattle.afp_outside.specs.ends.Link.{LinkState};

    ghost Value = { DialerState LinkState };

    ghost view = { λ p. record { handed = length p.handed.items; back = p.back.items; faults = p.faults } };
}

impl<'a> Patience<'a> {
    /// A dialer to the peer at this address: the first link is dialled for so many seconds, and each other for so many.
    pub fn new(rt: &'a HostRuntime, address: String, first: u64, seconds: u64) -> Patience<'a>
        ensures { result ≡ record { handed = 0; back = []; faults = 0 } }
    {
        Patience {
            rt,
            dialer: TcpDialer::new(rt, address),
            first,
            seconds,
            handed: Log::new(),
            back: Log::new(),
            faults: 0,
        }
    }

    /// Why the last dial that failed did; none where none failed.
    pub fn reason(&self) -> Option<DialReason> {
        self.dialer.reason()
    }
}

/// A link to the peer, dialled again each second, for so many.
fn wire_of<'a>(
    rt: &'a HostRuntime,
    dialer: &mut TcpDialer<&'a HostRuntime>,
    seconds: u64,
) -> Result<TcpWire<&'a HostRuntime>, DialFault>
    ensures { IfOk result IsFresh }
{
    for _ in 0..seconds {
        match dialer.dial() {
            Ok(wire) => return Ok(wire),
            Err(fault) => match fault {
                DialFault::Memory => return Err(DialFault::Memory),
                DialFault::Failed => thread::sleep(rt, Duration::from_secs(1)),
            },
        }
    }
    dialer.dial()
}

impl<'a> Dialer for Patience<'a> {
    type Link = TcpWire<&'a HostRuntime>;

    ghost dialer_state = { λ dialer. dialer };

    fn dial(&mut self) -> Result<TcpWire<&'a HostRuntime>, DialFault> {
        let seconds = self.first;
        match wire_of(self.rt, &mut self.dialer, seconds) {
            Ok(wire) => {
                self.first = self.seconds;
                self.handed = self.handed.and(&());
                Ok(wire)
            }
            Err(fault) => match fault {
                DialFault::Memory => Err(DialFault::Memory),
                DialFault::Failed => {
                    self.faults = self.faults.saturating_add(1);
                    Err(DialFault::Failed)
                }
            },
        }
    }

    fn back(&mut self, link: TcpWire<&'a HostRuntime>) {
        self.back = self.back.and(&link);
        self.dialer.back(link);
    }
}
