//! A capture that comes in pieces, or whose source fails.
ghost use Rattle.std.specs.Prelude.{◌≡◌, false, IfOk};
ghost use Rattle.afp_outside.specs.ends.Tape.{source_of};

use afp_base::{Bytes, OutOfMemory};
use afp_outside::TapeSource;
use afptool_lib::new_memory_keepers;
use capture_log::{ReplayEnd, replay};
use std::alloc::Global;

/// The status of a server, and the first two bytes of the reply.
const CAPTURE: &str = "afp-capture 1
server Mac
signature 000102030405060708090a0b0c0d0e0f
volume Share
key 0000000000000000000000000000000000000000000000000000000000000000
at 1 100 in 00030000000000000000000000000000
at 1 100 out 0103
end
";

/// A source of the capture, whose reads in turn give so many bytes at most, and of which those with these numbers fail.
fn capture_source(
    alloc: Global,
    reads: &[usize],
    failing: &[u64],
) -> Result<TapeSource, OutOfMemory>
    ensures { IfOk result (λ source. (source_of source).ended ≡ false) }
{
    let mut bytes = Bytes::new(alloc);
    bytes.extend(CAPTURE.as_bytes())?;
    TapeSource::new(bytes, reads.to_vec(alloc)?, failing.to_vec(alloc)?)
}

/// How its replay ends.
fn replayed(alloc: Global, reads: &[usize], failing: &[u64]) -> Result<ReplayEnd, OutOfMemory> {
    let mut source = capture_source(alloc, reads, failing)?;
    let keepers = new_memory_keepers(alloc)?;
    Ok(replay(alloc, keepers, &mut source, 1000))
}

/// The most bytes of each read, the reads that fail, and how the replay ends.
fn ends() -> &'static [(&'static [usize], &'static [u64], ReplayEnd)] {
    &[
        (
            &[1, 30, 2, 90, 7],
            &[],
            ReplayEnd::Same {
                links: 1,
                entries: 0,
                replies: 1,
                refused: 0,
            },
        ),
        (&[30, 90], &[2], ReplayEnd::ReadFault),
    ]
}

#[test]
fn a_capture_comes_in_pieces_or_its_source_fails(rt: HostRuntime) -> Result<(), OutOfMemory> {
    for (reads, failing, end) in ends() {
        assert!(rt; replayed(rt.alloc(), reads, failing)? == *end);
    }
    Ok(())
}
