//! Houses, a server in memory that is asked past any link, and whole links: each a case of one line.
#![tactic(auto)]

mod houses;
mod kinds;
mod server;
mod whole;

use kinds::KINDS;
use server::Server;
use std::io;
use test_lines::try_cases;

fn main(rt: HostRuntime) -> io::Result<()> {
    try_cases(&rt, &KINDS, Server::new(rt.alloc()))
}
