//! A person's console: the standard output, and notes and how far a copy is on standard error.
ghost use Rattle.std.specs.Prelude.{◌≡◌, []};

use afp_outside::{StdSink, print_all};
use afpcmd_lib::{Cause, Console};
use ghost_log::Log;
use std::io::IsTerminal;
use std::time::{Clock, Instant};

/// A person's console. It keeps the causes of its notes, which only proofs read.
#[derive(Drop)]
pub struct Person<'a> {
    rt: &'a HostRuntime,
    shows: bool,
    name: String,
    from: u64,
    at: u64,
    size: u64,
    since: Option<Instant>,
    shown: Option<Instant>,
    causes: Log<Cause>,
}

impl<'a> Person<'a> {
    /// The person at this machine; how far a copy is, is shown on a terminal alone, and not where it is to be quiet.
    pub fn new(rt: &'a HostRuntime, quiet: bool) -> Person<'a>
        ensures { result.causes.items ≡ [] }
    {
        Person {
            rt,
            shows: !quiet && rt.stderr().is_terminal(),
            name: String::new(rt.alloc()),
            from: 0,
            at: 0,
            size: 0,
            since: None,
            shown: None,
            causes: Log::new(),
        }
    }

    /// Milliseconds since a moment.
    fn gone(&self, moment: &Option<Instant>) -> Option<u64> {
        match moment {
            Some(moment) => match moment.elapsed(self.rt) {
                Ok(gone) => u64::try_from(gone.as_millis()).ok(),
                Err(_) => None,
            },
            None => None,
        }
    }

    /// This moment.
    fn now(&self) -> Option<Instant> {
        Instant::now(self.rt).ok()
    }

    /// Writes how far the copy is.
    fn show(&self, end: &str) {
        let gone = self.gone(&self.since).unwrap_or(0).max(1);
        let rate = self.at.saturating_sub(self.from) / gone; // bytes a millisecond: thousands a second
        let whole = rate / 1000;
        let part = rate / 100 % 10;
        let left = self.size.saturating_sub(self.at) / rate.max(1) / 1000;
        let percent = self.at.min(self.size).saturating_mul(100) / self.size.max(1);
        let name = self.name.as_str();
        let at = self.at;
        let size = self.size;
        let minutes = left / 60;
        let seconds = left % 60;
        let _told = eprint!(self.rt;
            "\r{name}  {percent}% {at} of {size} bytes  {whole}.{part} MB/s  {minutes:02}:{seconds:02} {end}"
        );
    }

    /// Whether it is time to write it anew.
    fn is_due(&self) -> bool {
        match self.gone(&self.shown) {
            Some(gone) => gone >= 200,
            None => true,
        }
    }
}

impl<'a> Console for Person<'a> {
    ghost causes = { λ p. p.causes.items };

    fn print(&mut self, text: &[u8]) -> bool {
        let mut out = StdSink::new(self.rt);
        print_all(&mut out, text)
    }

    fn note(&mut self, cause: Cause, text: &str) {
        self.causes = self.causes.and(&cause);
        let _told = eprintln!(self.rt; "afpcmd: {text}");
    }

    fn prompt(&mut self) {
        let _told = eprint!(self.rt; "afp> ");
    }

    fn begins(&mut self, name: &str, from: u64, size: u64) {
        if self.shows {
            self.name = match String::from_str(self.rt.alloc(), name) {
                Ok(name) => name,
                Err(_) => String::new(self.rt.alloc()),
            };
            self.from = from;
            self.at = from;
            self.size = size;
            self.shown = None;
            self.since = self.now();
        }
    }

    fn moved(&mut self, bytes: u64) {
        self.at = bytes;
        if self.shows && self.is_due() {
            self.show("");
            self.shown = self.now();
        }
    }

    fn ends(&mut self) {
        if self.shows {
            self.show("\n");
        }
    }
}
