//! What a person is told on the standard error beside what is printed.

use crate::heard::LastLines;
use afp_outside::TcpDialer;
use afptool_lib::explaining::{explain_dial, explain_end, explain_status, explain_words};
use afptool_lib::{ClientEnd, Finished};

/// Tells what became of a script.
fn tell_client(
    rt: &HostRuntime,
    address: &str,
    finished: &Finished<TcpDialer<&HostRuntime>>,
    lines: &LastLines,
) {
    let Some(end) = finished.end else {
        return;
    };
    let line = match end {
        ClientEnd::BadLine { line } => lines.line(line),
        _ => None,
    };
    if let Ok(text) = explain_end(rt.alloc(), end, line) {
        let _told = eprint!(rt; "{text}");
    }
    if let (ClientEnd::DialFault, Some(reason)) = (end, finished.dialer.reason()) {
        if let Ok(text) = explain_dial(rt.alloc(), address, &reason) {
            let _told = eprint!(rt; "{text}");
        }
    }
}

/// Tells how a run ended, where it did not end well, and what to do.
pub fn tell_end(
    rt: &HostRuntime,
    words: &[String],
    address: &str,
    finished: &Finished<TcpDialer<&HostRuntime>>,
    lines: &LastLines,
) {
    if finished.status == 2 {
        if let Ok(text) = explain_words(rt.alloc(), words) {
            let _told = eprint!(rt; "{text}");
        }
    } else if finished.end.is_some() {
        tell_client(rt, address, finished, lines);
    } else {
        let command = words.first().map_or("", |word| word.as_str());
        let _told = eprint!(rt; "{}", explain_status(command, finished.status));
    }
}
