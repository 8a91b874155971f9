//! Runs calls on a volume beside a keeper in memory, one of whose calls may fail, over lines of the standard input. Behind each line it
//! prints its result: a number, the code of a refusal, a word, or a change of a record. A line that is empty or begins with `#` is passed
//! over.
#![tactic(auto)]

mod line;
mod noting;
mod run;
mod spent;

use line::Volumes;
use std::io;
use test_lines::answer_lines;

fn main(rt: HostRuntime) -> io::Result<()> {
    answer_lines(&rt, Volumes { run: None })
}
