//! Captures, each replayed on a server of its own.
use afp_base::NO_LIMIT;
use afp_outside::StdSource;
use afptool_lib::new_memory_keepers;
use capture_log::{ReplayEnd, replay};
use std::fs::File;
use std::io;

/// Replays the capture in a file, over keepers in memory.
fn replay_file(rt: &HostRuntime, name: &str) -> io::Result<ReplayEnd> {
    let path = format!(in rt.alloc(); "captures/{name}")?;
    let mut source = StdSource::new(File::open(rt, path.as_str())?);
    match new_memory_keepers(rt.alloc()) {
        Ok(keepers) => Ok(replay(rt.alloc(), keepers, &mut source, NO_LIMIT)),
        Err(_) => Ok(ReplayEnd::Memory),
    }
}

/// Prints how a replay ended.
fn print_end(rt: &HostRuntime, name: &str, end: ReplayEnd) -> io::Result<()> {
    match end {
        ReplayEnd::Same {
            links,
            entries,
            replies,
            refused,
        } => {
            println!(rt;
                "{name} links {links} entries {entries} replies {replies} refused {refused} same"
            )
        }
        other => println!(rt; "{name} {other:?}"),
    }
}

/// Replays the capture of a name, and prints the name, the counts of the replay, and `same`; or how else the replay ended.
pub fn replay_capture(rt: &HostRuntime, name: &str) -> io::Result<()> {
    let end = replay_file(rt, name)?;
    print_end(rt, name, end)
}
