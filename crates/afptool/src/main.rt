//! The tool: from the standard input it carries out scripts of a client, replays captures, checks streams of frames, and reads parcels; it makes
//! captures, and counts in them, and in drills over links that break. A person is told on the standard error what is wrong, and what to do.
#![tactic(auto)]

mod heard;
mod named;
mod telling;

use afp_base::{Bytes, NO_LIMIT, OutOfMemory};
use afp_outside::TcpDialer;
use afpd_lib::server::given::given_words;
use afptool_lib::{addresses, afptool, memory_keepers};
use heard::Heard;
use named::Named;
use std::process::ExitCode;
use telling::tell_end;

/// The exit status for want of memory.
const NO_MEMORY: u8 = 6;

/// The first address, as a text; an empty text where there is none.
fn first_of(rt: &HostRuntime, found: &[Bytes]) -> Result<String, OutOfMemory> {
    let Some(address) = found.first() else {
        return Ok(String::new(rt.alloc()));
    };
    match str::from_utf8(address.as_slice()) {
        Ok(address) => Ok(String::from_str(rt.alloc(), address)?),
        Err(_) => Ok(String::new(rt.alloc())),
    }
}

/// Where the words say that the server is, if they do.
fn address_in(rt: &HostRuntime, words: &[String]) -> Result<String, OutOfMemory> {
    let found = addresses(rt.alloc(), words)?;
    first_of(rt, found.as_slice())
}

/// Does what the words ask, over keepers in memory and a dialer to the address among the words, tells a person how it ended, and gives the exit
/// status.
fn run_tool(rt: &HostRuntime, words: &[String]) -> Result<u8, OutOfMemory> {
    let address = address_in(rt, words)?;
    let dialled = String::from_str(rt.alloc(), address.as_str())?;
    let keepers = memory_keepers(rt.alloc())?;
    let mut source = Heard::new(rt, rt.reader());
    let mut out = Named::new(rt);
    let finished = afptool(
        rt.alloc(),
        words,
        keepers,
        &mut source,
        &mut out,
        TcpDialer::new(rt, dialled),
        NO_LIMIT,
    );
    tell_end(rt, words, address.as_str(), &finished, source.lines());
    Ok(finished.status)
}

/// Does what the words behind the program's name ask, by the first of them, and gives the exit status.
fn run(rt: &HostRuntime) -> Result<u8, OutOfMemory> {
    let words = given_words(rt)?;
    run_tool(rt, words.as_slice())
}

fn main(rt: HostRuntime) -> ExitCode {
    match run(&rt) {
        Ok(status) => ExitCode::from(status),
        Err(_) => {
            let _told = eprintln!(&rt; "error: there is no memory");
            ExitCode::from(NO_MEMORY)
        }
    }
}
