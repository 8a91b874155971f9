//! Loads volumes from a keeper in memory, over lines of the standard input that put its records. Behind each line it prints
//! its result. A line that is empty or begins with `#` is passed over.
#![tactic(auto)]

mod desktop;
mod line;
mod rows;
mod run;

use run::Run;
use std::io;
use test_lines::answer_lines;

fn main(rt: HostRuntime) -> io::Result<()> {
    answer_lines(&rt, Run::new(rt.alloc()))
}
