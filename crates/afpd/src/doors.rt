//! The doors of the server.
ghost use Rattle.std.specs.Prelude.{◌≡◌, ◌≤◌, All, IfOk, length};
ghost use Rattle.afpd.specs.Doors.{unused_door};

use afp_base::OutOfMemory;
use afp_outside::TcpDoor;
use std::io;
use std::net::{Ipv4Addr, TcpListener};

/// Opens a port of every address of this host; 0 is one that is free.
pub fn open_port(rt: &HostRuntime, port: u16) -> io::Result<TcpListener> {
    TcpListener::bind(rt, (Ipv4Addr::UNSPECIFIED, port))
}

/// The number of a port that is open; `asked` where the system does not tell it.
pub fn number_of(listener: &TcpListener, asked: u16) -> u16 {
    match listener.local_addr() {
        Ok(address) => address.port(),
        Err(_) => asked,
    }
}

/// So many doors at a port, which no link has come through yet, each of which is closed once it has handed out `links` links, and never where that is 0.
/// Where the port is not open, each door fails.
pub fn doors_at(
    rt: &HostRuntime,
    listener: Option<TcpListener>,
    workers: u8,
    links: u64,
) -> Result<Vec<TcpDoor<&HostRuntime>>, OutOfMemory>
    ensures unused { IfOk result (λ doors. All (λ door. door ≡ unused_door links) doors.items) }
    ensures many { IfOk result (λ doors. 1 ≤ workers → length doors.items ≡ workers) }
{
    let first = TcpDoor::over(rt, listener, links);
    let mut doors = Vec::new(rt.alloc());
    for _ in 1..workers {
        doors.push(first.beside(rt, links))?;
    }
    doors.push(first)?;
    Ok(doors)
}
