//! Keeps records in a database file, over lines of the standard input: they open the file, put records and take them away, commit,
//! and read. Behind each line it prints its result. A line that is empty or begins with `#` is passed over.
#![tactic(auto)]

mod changes;
mod line;
mod run;
mod words;

use run::Run;
use std::io;
use test_lines::take_lines;

fn main(rt: HostRuntime) -> io::Result<()> {
    let mut run = Run::new(rt.alloc());
    take_lines(&rt, &mut run)
}
