//! A client's end of a session, the answers that a session keeps, and the lines of a script. Behind each line of the standard input it
//! prints what came of it. Bytes are hexadecimal digits, `-` where there are none.
//!
//! - `guest`, or `user NAME PASSWORD`: a client without a link; a name of more than 255 bytes and a password of other than 8 are no user.
//! - `link BYTES`: it begins a link, and these bytes come on it. Printed: what it writes.
//! - `event`: what the next frame does, and what the client writes.
//! - `flush VOLUME`: it is asked FPFlush; what it writes.
//! - `broke`: its link broke.
//! - `keep ID KIND OFFSET PAYLOAD CODE BLOCK`: a session keeps an answer to a request, KIND `write` or `command`, where none is kept for an equal one.
//! - `kept ID KIND OFFSET PAYLOAD`: the answer that is kept for it.
//! - `script WORD..`: the line of these words, with one space between; `line BYTES`: the line of these bytes.
#![tactic(auto)]

mod answers;
mod client;
mod run;
mod script;
mod text;

use run::Run;
use std::io;
use test_lines::answer_lines;

fn main(rt: HostRuntime) -> io::Result<()> {
    match Run::new(rt.alloc()) {
        Ok(run) => answer_lines(&rt, run),
        Err(_) => Err(io::Error::from(io::ErrorKind::OutOfMemory)),
    }
}
