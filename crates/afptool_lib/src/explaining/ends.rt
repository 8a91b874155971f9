//! How a run ended, in words, and what to do.

use crate::explaining::script::explain_line;
use afp_base::OutOfMemory;
use afp_outside::DialReason;
use client_script_run::ClientEnd;
use std::alloc::Global;
use std::io::ErrorKind;

/// What a person may do where a server is not reached, by the system's error, in a line.
fn dial_remedy(fault: ErrorKind) -> &'static str {
    match fault {
        ErrorKind::ConnectionRefused => {
            "no server has this port open there: look whether afpd runs, and at which port, which it tells when it starts; HOST:PORT names another"
        }
        ErrorKind::TimedOut => "the host says nothing: look at its address, and at firewalls",
        ErrorKind::HostUnreachable | ErrorKind::NetworkUnreachable => {
            "there is no way to this host: look at its address, and at this machine's network"
        }
        _ => "look at the host's name, or write its address in numbers",
    }
}

/// What a person is told of a server that was not reached: at which address, what the system said, and what to do.
pub fn explain_dial(
    alloc: Global,
    address: &str,
    reason: &DialReason,
) -> Result<String, OutOfMemory> {
    let mut text = String::new(alloc);
    let has_port = address.contains(':') && !address.ends_with(']');
    let port = if has_port { "" } else { ", port 548" };
    write!(text, "error: {address}{port}: {reason}")?;
    match reason {
        DialReason::Address => text.push_str(
            "; PORT is a number of 1 to 65535, as in localhost:5548, and an IPv6 address stands in brackets\n",
        )?,
        DialReason::System(error) => {
            let remedy = dial_remedy(error.kind());
            write!(text, "; {remedy}\n")?;
        }
    }
    Ok(text)
}

/// What a person is told of the end of a script, where it was not carried out. `line` is the bytes of a bad line, where they are known.
pub fn explain_end(
    alloc: Global,
    end: ClientEnd,
    line: Option<&[u8]>,
) -> Result<String, OutOfMemory> {
    let mut text = String::new(alloc);
    match end {
        ClientEnd::Done | ClientEnd::DialFault => {}
        ClientEnd::BadLine { line: number } => return explain_line(alloc, number, line),
        ClientEnd::Refused { code } => write!(
            text,
            "error: the server refused the session or the login: {code}; look at the name and the password behind --user\n"
        )?,
        ClientEnd::SessionLost { line: number } => write!(
            text,
            "error: the session was lost while line {number} of the script waited for its answer: look whether it was carried out; the lines before it were\n"
        )?,
        ClientEnd::BadReply { at } => write!(
            text,
            "error: the server answered what no server of AFP may, at byte {at} of the connection: look whether it is one\n"
        )?,
        ClientEnd::ReadFault => text.push_str("error: standard input could not be read\n")?,
        ClientEnd::WriteFault => text.push_str("error: standard output could not be written\n")?,
        ClientEnd::Broken => text.push_str(
            "error: eight connections in a row broke without an answer; look whether the server runs, and whether it is one of AFP\n",
        )?,
        ClientEnd::Spent => text.push_str("error: 2^63 bytes have come\n")?,
        ClientEnd::Memory => text.push_str("error: there is no memory\n")?,
    }
    Ok(text)
}

/// What a person is told of the status of a command other than `client`, where what is printed does not say it.
pub fn explain_status(command: &str, status: u8) -> &'static str {
    match (command, status) {
        ("replay", 1) => "error: the server in memory answers otherwise than the capture says\n",
        ("replay", 3) => {
            "error: this line of the capture has no form, may not stand there, or is missing; docs/CAPTURES.md has the forms\n"
        }
        ("check", 3) => {
            "error: the bytes are no whole frames of the Data Stream Interface, of one direction from a connection's start\n"
        }
        ("parcel", 3) => "error: standard input is no AppleSingle or AppleDouble file\n",
        (_, 4) => "error: standard input could not be read\n",
        (_, 5) => "error: standard output could not be written\n",
        (_, 6) => "error: there is no memory\n",
        (_, 8) => "error: 2^63 bytes have come\n",
        _ => "",
    }
}
