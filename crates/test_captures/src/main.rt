//! Runs over files: captures that are replayed, and what the tool says of others.
//!
//! Each line of the standard input is the name of a file in `captures`, or `afptool`, the tool's words, and the name of a file in `tool`.
#![tactic(auto)]

mod replays;
mod runs;

use replays::replay_capture;
use runs::run_tool;
use std::io;
use test_lines::{TakesLines, take_lines};

/// The files beside the program.
#[derive(Drop)]
struct Files;

impl TakesLines for Files {
    fn take(&mut self, rt: &HostRuntime, _number: u64, line: &str) -> io::Result<()> {
        match line.split_once(' ') {
            None => replay_capture(rt, line),
            Some((_, words)) => run_tool(rt, line, words),
        }
    }
}

fn main(rt: HostRuntime) -> io::Result<()> {
    take_lines(&rt, &mut Files)
}
