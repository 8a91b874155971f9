//! A run of the whole server over two doors.
ghost use Rattle.std.specs.Prelude.{◌≡◌, false, All};

use crate::threads::doors::moment;
use afp_base::OutOfMemory;
use afp_outside::{Gate, TapeClock, TapeListener, TapeSink};
use afpd_lib::server::server::{Finish, afpd};
use record_keeper::Keeper;
use std::alloc::Global;
use std::sync::Wait;
use std::thread::Threads;

fn words_of(alloc: Global, words: &[&str]) -> Result<Vec<String>, OutOfMemory> {
    let mut all = Vec::new(alloc);
    for word in words {
        all.push(String::from_str(alloc, word)?)?;
    }
    Ok(all)
}

/// A sink that takes all.
fn sink(alloc: Global) -> Result<TapeSink, OutOfMemory> {
    TapeSink::new(alloc, Vec::new(alloc), Vec::new(alloc))
}

/// Serves these doors with two workers over the volumes that the words name. The moment is 90.
pub fn run<R: Threads + Wait + Sync, G: Gate + Sync>(
    threads: &R,
    alloc: Global,
    volumes: &[&str],
    keepers: Vec<Box<dyn Keeper + Send>>,
    doors: Vec<TapeListener>,
    gate: &G,
) -> Result<Finish<TapeListener>, OutOfMemory>
where
    G::Log: Send,
    requires { All (λ door. door.closed ≡ false) doors.items }
{
    let mut words = words_of(alloc, &["--server", "Mac", "--workers", "2"])?;
    for volume in volumes {
        words.push(String::from_str(alloc, volume)?)?;
    }
    let (mut report, mut notes) = (sink(alloc)?, sink(alloc)?);
    let clock = TapeClock::new(moment(90));
    Ok(afpd(
        threads,
        alloc,
        words.as_slice(),
        keepers,
        doors,
        &clock,
        gate,
        [0; 32],
        &mut report,
        &mut notes,
    ))
}
