//! A sink that tells the names of the codes that are printed.

use afp_base::Code;
use afp_outside::{Sink, StdSink, Wrote};
use std::marker::Model;
use std::str;

/// A sink over the standard output. Where a line that a server refused is printed there, its code's name goes to the standard error.
#[derive(Drop)]
pub struct Named<'a> {
    rt: &'a HostRuntime,
    out: StdSink<&'a HostRuntime>,
}

impl<'a> Model for Named<'a> {
    ghost use Rattle.afp_outside.specs.ends.Sink.{SinkState};

    ghost Value = { SinkState };

    ghost view = { λ a. a.out };
}

impl<'a> Named<'a> {
    ghost use Rattle.std.specs.Prelude.{◌≡◌, None};

    /// A sink to which nothing was written.
    pub fn new(rt: &'a HostRuntime) -> Named<'a>
        ensures { result ≡ record { written = None; faults = 0 } }
    {
        Named {
            rt,
            out: StdSink::new(rt),
        }
    }
}

/// The code of a line that tells a refusal, as `error -5018`.
fn code_in(line: &[u8]) -> Option<Code> {
    let text = str::from_utf8(line).ok()?;
    let number = text.strip_prefix("error ")?.strip_suffix('\n')?;
    Code::of(number.parse::<i32>().ok()?)
}

impl<'a> Sink for Named<'a> {
    ghost sink_state = { λ sink. sink };

    fn write(&mut self, piece: &[u8]) -> Wrote {
        let wrote = self.out.write(piece);
        if let Some(code) = code_in(piece) {
            let _told = eprintln!(self.rt; "error: the server refused this: {code}");
        }
        wrote
    }
}
