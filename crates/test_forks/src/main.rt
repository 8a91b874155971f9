//! Runs the bytes of a fork, opens with their deny modes, byte-range locks and the table of open forks over lines of the standard
//! input. Behind each line it prints its result. A line that is empty or begins with `#` is passed over.
#![tactic(auto)]

mod forks;
mod keys;
mod line;
mod locks;
mod opens;
mod run;
mod tables;

use run::Run;
use std::io;
use test_lines::answer_lines;

fn main(rt: HostRuntime) -> io::Result<()> {
    answer_lines(&rt, Run::new(rt.alloc()))
}
