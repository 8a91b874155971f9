//! Runs of a server in memory in which one call fails: each read and each write of its link, each commit and each settle of its keeper, and each call of a load, one
//! in a run. Behind each kind it prints how many runs there were, what they answered, and what the keeper holds then.
//!
//! The standard input says the run: `open HEX` are the frames of the opening, `call HEX` those behind them, and `join HEX` those by which a new link takes the session
//! up, each in turn.
#![tactic(auto)]

mod base;
mod frames;
mod house;
mod keeper;
mod keeper_faults;
mod link_faults;
mod loads;
mod places;
mod printed;
mod retiring;
mod script;
mod serve;
mod tally;

use afp_base::OutOfMemory;
use base::base_of;
use printed::{memory_of, print_all};
use script::Script;
use std::io;
use test_lines::take_lines;

fn main(rt: HostRuntime) -> io::Result<()> {
    let mut script = Script::new(rt.alloc());
    take_lines(&rt, &mut script)?;
    match base_of(rt.alloc(), script) {
        Ok(base) => print_all(&rt, &base),
        Err(OutOfMemory) => Err(memory_of()),
    }
}
