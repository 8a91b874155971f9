//! What comes of lines.
use crate::link::{cut, link, room};
use crate::server::{Waiting, notes, run, settings};
use afp_base::OutOfMemory;
use std::alloc::Global;
use std::io;
use std::io::ErrorKind;
use std::mem::replace;
use std::sync::Wait;
use std::thread::Threads;

/// The links that wait for a run of the server.
#[derive(Drop)]
pub struct Run {
    waiting: Vec<Waiting>,
}

impl Run {
    pub fn new(alloc: Global) -> Run {
        Run {
            waiting: Vec::new(alloc),
        }
    }

    /// `come READS BYTES`.
    fn come(&mut self, alloc: Global, words: &[&str]) -> Result<Option<String>, OutOfMemory> {
        let [_, reads, bytes] = words else {
            return Ok(None);
        };
        self.waiting.push(Waiting {
            reads: String::from_str(alloc, reads)?,
            bytes: String::from_str(alloc, bytes)?,
        })?;
        Ok(None)
    }
}

/// What comes of a line of these words. `None`: it is passed over.
fn answer<R: Threads + Wait + Sync>(
    threads: &R,
    alloc: Global,
    lines: &mut Run,
    words: &[&str],
) -> Result<Option<String>, OutOfMemory> {
    match words.first() {
        Some(&"link") => link(alloc, words),
        Some(&"cut") => cut(alloc, words),
        Some(&"room") => room(alloc, words),
        Some(&"come") => lines.come(alloc, words),
        Some(&"run") => {
            let waiting = replace(&mut lines.waiting, Vec::new(alloc));
            run(threads, alloc, waiting.as_slice(), words)
        }
        Some(&"notes") => notes(threads, alloc, words),
        Some(&"settings") => settings(alloc, words),
        _ => Ok(None),
    }
}

/// Prints a line, and behind it what comes of it.
fn answer_line<R: Threads + Wait + Sync>(
    rt: &HostRuntime,
    threads: &R,
    lines: &mut Run,
    line: &str,
) -> io::Result<()> {
    let words: Vec<&str> = line.split_whitespace().collect(rt.alloc())?;
    match answer(threads, rt.alloc(), lines, words.as_slice()) {
        Ok(Some(text)) => println!(rt; "{line} -> {text}"),
        Ok(None) => Ok(()),
        Err(OutOfMemory) => Err(io::Error::from(ErrorKind::OutOfMemory)),
    }
}

/// Prints each line of the standard input, and behind it what comes of it. One that is empty or begins with `#` is passed over.
pub fn answer_all<R: Threads + Wait + Sync>(rt: &HostRuntime, threads: &R) -> io::Result<()> {
    let mut lines = Run::new(rt.alloc());
    for line in rt.lines(rt.alloc()) {
        let line = line?;
        if !line.as_str().is_empty() && !line.as_str().starts_with('#') {
            answer_line(rt, threads, &mut lines, line.as_str())?;
        }
    }
    Ok(())
}
