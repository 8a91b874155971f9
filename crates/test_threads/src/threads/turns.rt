//! Calls of two links that come as fast as they are answered.
use crate::threads::doors::{is_answered, two_doors};
use crate::threads::requests::{first_call, first_reply, flush, refused};
use crate::threads::run::run;
use afp_base::{Bytes, OutOfMemory};
use afp_outside::OpenGate;
use record_keeper::{Keeper, MemoryKeeper};
use std::alloc::Global;
use std::sync::Wait;
use std::thread::Threads;

/// How many calls come through each link behind its login.
const MANY: u32 = 5_000;

/// A session with the name of no user, and many calls behind its login.
fn many_calls(alloc: Global) -> Result<Vec<&'static [u8]>, OutOfMemory> {
    let mut frames = Vec::new(alloc);
    for frame in first_call() {
        frames.push(*frame)?;
    }
    for _ in 0..MANY {
        frames.push(flush())?;
    }
    Ok(frames)
}

/// What is written for them.
fn many_replies(alloc: Global) -> Result<Bytes, OutOfMemory> {
    let mut bytes = Bytes::of(alloc, first_reply())?;
    for _ in 0..MANY {
        bytes.extend(refused())?;
    }
    Ok(bytes)
}

/// Whether two links are each answered many calls.
fn all_are_answered<R: Threads + Wait + Sync>(
    threads: &R,
    alloc: Global,
) -> Result<bool, OutOfMemory> {
    let mut keepers: Vec<Box<dyn Keeper + Send>> = Vec::new(alloc);
    let keeper = MemoryKeeper::new(alloc, Vec::new(alloc));
    keepers.push(Box::new(alloc, keeper)?)?;
    let calls = many_calls(alloc)?;
    let doors = two_doors(alloc, calls.as_slice(), calls.as_slice())?;
    let finish = run(threads, alloc, &["Share=memory"], keepers, doors, &OpenGate)?;
    let want = many_replies(alloc)?;
    let both = finish.doors.len() == 2
        && finish
            .doors
            .iter()
            .all(|door| is_answered(door, want.as_slice()));
    Ok(both && finish.status == 0)
}

#[test]
fn links_that_wait_for_their_turns_are_woken(rt: HostRuntime) -> Result<(), OutOfMemory> {
    assert!(rt; all_are_answered(&rt, rt.alloc())?);
    Ok(())
}
