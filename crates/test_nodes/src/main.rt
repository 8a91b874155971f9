//! Runs the nodes of a volume over lines of the standard input. Behind each line it prints its result, a number or
//! `none`. A line that is empty or begins with `#` is passed over.
#![tactic(auto)]

mod many;
mod run;
mod volume;

use afp_base::OutOfMemory;
use run::Run;
use std::io;
use std::io::ErrorKind;
use test_lines::answer_lines;

fn main(rt: HostRuntime) -> io::Result<()> {
    match Run::new(rt.alloc()) {
        Ok(run) => answer_lines(&rt, run),
        Err(OutOfMemory) => Err(io::Error::from(ErrorKind::OutOfMemory)),
    }
}
