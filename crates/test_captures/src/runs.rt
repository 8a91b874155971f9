//! Runs of the tool over files.
use afp_base::NO_LIMIT;
use afp_outside::{StdSink, StdSource, TapeDialer};
use afptool_lib::{afptool, memory_keepers};
use std::fs::File;
use std::io;
use std::io::ErrorKind;

/// The words of a line.
fn words_of(rt: &HostRuntime, line: &str) -> io::Result<Vec<String>> {
    let mut words = Vec::new(rt.alloc());
    for word in line.split(' ') {
        words.push(String::from_str(rt.alloc(), word)?)?;
    }
    Ok(words)
}

/// Runs the tool over a file, keepers in memory and a dialer that has no link, and gives its exit status.
fn run(rt: &HostRuntime, words: &[String], name: &str) -> io::Result<u8> {
    let Ok(keepers) = memory_keepers(rt.alloc()) else {
        return Err(io::Error::from(ErrorKind::OutOfMemory));
    };
    let path = format!(in rt.alloc(); "tool/{name}")?;
    let mut source = StdSource::new(File::open(rt, path.as_str())?);
    let mut out = StdSink::new(rt);
    let Ok(dialer) = TapeDialer::new(rt.alloc(), Vec::new(rt.alloc()), Vec::new(rt.alloc())) else {
        return Err(io::Error::from(ErrorKind::OutOfMemory));
    };
    let finished = afptool(
        rt.alloc(),
        words,
        keepers,
        &mut source,
        &mut out,
        dialer,
        NO_LIMIT,
    );
    Ok(finished.status)
}

/// Prints a line, what the tool prints with these words over the file that the last of them names, and its exit status.
pub fn run_tool(rt: &HostRuntime, line: &str, words: &str) -> io::Result<()> {
    println!(rt; "{line}")?;
    let mut words = words_of(rt, words)?;
    let Some(name) = words.pop() else {
        return Ok(());
    };
    let status = run(rt, words.as_slice(), name.as_str())?;
    println!(rt; "status {status}")
}
