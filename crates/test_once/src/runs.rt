//! Runs, and what the client was told in them.
use crate::calls::{append, put_broken_append, put_call, put_opened};
use crate::server::{Served, moment, teller};
use afp_base::OutOfMemory;
use afp_client::Login;
use once_across_breaks_live::{Happening, OnceRun, once};
use std::alloc::Global;

fn run(alloc: Global, events: &[Happening]) -> Result<OnceRun<Served>, OutOfMemory> {
    once(alloc, Login { user: None }, teller(alloc)?, events)
}

/// What the last result has behind its code, and how many results there are, each of them Ok.
fn last_of(run: &OnceRun<Served>) -> (usize, &[u8]) {
    let mut last: &[u8] = b"none";
    for result in run.results.as_slice() {
        if result.code.number() != 0 {
            return (0, b"refused");
        }
        last = result.block.as_slice();
    }
    (run.results.len(), last)
}

fn broken_append(alloc: Global, loses: bool) -> Result<(usize, bool), OutOfMemory> {
    let mut events = Vec::new(alloc);
    put_opened(alloc, &mut events)?;
    put_broken_append(alloc, &mut events, loses)?;
    let run = run(alloc, events.as_slice())?;
    let (results, last) = last_of(&run);
    Ok((results, last == b"\x00\x00\x00\x01".as_slice()))
}

#[test]
fn a_call_whose_reply_is_lost_has_its_effect_once(rt: HostRuntime) -> Result<(), OutOfMemory> {
    assert_eq!(rt; broken_append(rt.alloc(), false)?, (4, true));
    assert_eq!(rt; broken_append(rt.alloc(), true)?, (4, true));
    Ok(())
}

/// Behind it another byte is appended on the new link: it is the second.
#[test]
fn the_next_call_comes_behind_it(rt: HostRuntime) -> Result<(), OutOfMemory> {
    let alloc = rt.alloc();
    let mut events = Vec::new(alloc);
    put_opened(alloc, &mut events)?;
    put_broken_append(alloc, &mut events, true)?;
    put_call(&mut events, 2, append())?;
    let run = run(alloc, events.as_slice())?;
    assert_eq!(rt; last_of(&run), (5, b"\x00\x00\x00\x02".as_slice()));
    Ok(())
}

/// At links that are not there, on a link that is over, and while a request waits nothing is done.
#[test]
fn what_cannot_be_is_skipped(rt: HostRuntime) -> Result<(), OutOfMemory> {
    let alloc = rt.alloc();
    let mut events = Vec::new(alloc);
    put_opened(alloc, &mut events)?;
    events.push(Happening::Asks(append()))?;
    events.push(Happening::Asks(append()))?;
    events.push(Happening::Quiet {
        link: 0,
        now: moment(100),
    })?;
    events.push(Happening::Lost {
        link: 2,
        now: moment(100),
    })?;
    put_broken_append(alloc, &mut events, true)?;
    let run = run(alloc, events.as_slice())?;
    assert_eq!(rt; last_of(&run), (4, b"\x00\x00\x00\x01".as_slice()));
    Ok(())
}
