//! Whole runs of a client over files: a script, and what comes on each link that is dialled.
//!
//! Each line of the standard input is the name of a file in `cases`, whose lines say what the client meets. Printed are the name, what the
//! client prints, where `/` stands for the end of a line, how it ends, and for each link that was handed back the bytes that were written to it.
//!
//! - `user NAME PASSWORD`: as whom it logs in, where it is not a guest; the password has 8 bytes, in hexadecimal digits.
//! - `turns N`: how many bytes, quiets and dials it may take, below 2^32; so many as can be, where no line says it.
//! - `script TEXT`: a line of the script. `bytes HEX`: bytes of it.
//! - `source`, `sink` or `dials`, and behind it `fails N`: its call of this number, from 0, fails; or `takes N`: its next call takes at most so many bytes.
//! - `link MOMENT`: a link is dialled, which was made at this moment. The lines below are of the last one.
//! - `MOMENT in HEX`: a read at this moment gives these bytes. `MOMENT quiet`: it gives none. Behind the last of them the link ends.
//! - `calls fails N`: the call of this number fails, reads and writes counted together; `calls takes N`: the next write takes so many bytes.
#![tactic(auto)]

mod case;
mod link;
mod plan;
mod run;
mod told;

use crate::case::Case;
use crate::run::run_case;
use crate::told::print_run;
use afp_base::OutOfMemory;
use std::io::ErrorKind;
use std::{fs, io};
use test_lines::{TakesLines, take_lines};

/// The files beside the program.
#[derive(Drop)]
struct Files;

/// The case in a file.
fn case_of(rt: &HostRuntime, name: &str) -> io::Result<Case> {
    let path = format!(in rt.alloc(); "cases/{name}")?;
    let text = fs::read_to_string(rt, path.as_str())?;
    match Case::of(rt.alloc(), text.as_str()) {
        Ok(case) => Ok(case),
        Err(OutOfMemory) => Err(io::Error::from(ErrorKind::OutOfMemory)),
    }
}

impl TakesLines for Files {
    fn take(&mut self, rt: &HostRuntime, _number: u64, line: &str) -> io::Result<()> {
        let case = case_of(rt, line)?;
        match run_case(rt.alloc(), &case) {
            Ok(run) => print_run(rt, line, &run),
            Err(OutOfMemory) => Err(io::Error::from(ErrorKind::OutOfMemory)),
        }
    }
}

fn main(rt: HostRuntime) -> io::Result<()> {
    take_lines(&rt, &mut Files)
}
