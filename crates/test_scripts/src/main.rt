//! Carries out commands of a script over answers that the lines of the standard input give. Behind each line it prints what the command
//! asked and what comes of it. A line that is empty or begins with `#` is passed over. Bytes are hexadecimal digits, `-` where there are none.
//!
//! A line is a command, its words, and the answers in order, each a code and a block. The volume is 1, and a path is its bytes: names
//! parted by zero bytes. Printed are the requests, each its block, with `+` and its data where it has some; and behind `:` the text, `error
//! CODE`, `bad reply`, `no reply`, or `waits` where an answer is missing; of `ls` behind the entries of the lists that were told.
#![tactic(auto)]

mod asked;
mod fake;
mod run;
mod text;

use run::Run;
use std::io;
use test_lines::answer_lines;

fn main(rt: HostRuntime) -> io::Result<()> {
    answer_lines(&rt, Run)
}
