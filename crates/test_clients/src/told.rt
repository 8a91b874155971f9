//! What is printed of a run.
use crate::run::Run;
use afp_outside::TapeLink;
use std::io;

/// What the client printed, the end of each line as `/`.
fn text_of(rt: &HostRuntime, printed: &[u8]) -> io::Result<String> {
    let mut text = String::new(rt.alloc());
    for byte in printed {
        if *byte == b'\n' {
            text.push('/')?;
        } else {
            text.push(char::from(*byte))?;
        }
    }
    Ok(text)
}

fn print_link(rt: &HostRuntime, link: &TapeLink) -> io::Result<()> {
    let digits = hex::encode(rt.alloc(), link.written())?;
    println!(rt; "wrote {digits}")
}

/// Prints a name, what the client printed, how it ended, and what it wrote to each of its links.
pub fn print_run(rt: &HostRuntime, name: &str, run: &Run) -> io::Result<()> {
    let text = text_of(rt, run.printed.written())?;
    let end = run.ran.end;
    println!(rt; "{name}")?;
    println!(rt; "printed {text}")?;
    println!(rt; "end {end:?}")?;
    for link in run.ran.dialer.returned() {
        print_link(rt, link)?;
    }
    Ok(())
}
