//! Worked examples of the protocol: codes, bytes, frames, names, parameters, requests and replies, each a case of one line.
#![tactic(auto)]

mod base;
mod fields;
mod frames;
mod kinds;
mod names;
mod parameters;
mod replies;
mod requests;
mod sessions;

use kinds::{KINDS, Protocol};
use std::io;
use test_lines::try_cases;

fn main(rt: HostRuntime) -> io::Result<()> {
    try_cases(&rt, &KINDS, Ok(Protocol))
}
