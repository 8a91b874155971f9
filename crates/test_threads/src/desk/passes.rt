//! Two passes of one desk.
ghost use Rattle.std.specs.Prelude.{◌≡◌, ◌≢◌, ◌≤◌, length};
ghost use Rattle.afp_base.specs.Limits.{payload_limit};
ghost use Rattle.afp_base.specs.Counts.{counted};
ghost use Rattle.afp_serial.specs.Answer.{link_number};
ghost use Rattle.afp_serial.specs.History.{opened_in};
ghost use Rattle.afp_serial.specs.Shown.{Adds};
ghost use Rattle.afp_serial.specs.declared.ask.Ask.TheVariants as ask;
ghost use Rattle.afp_serial.specs.declared.ask.Told.TheVariants as told;
ghost use Rattle.afp_desk.specs.desk.Passes.{IsOf, view, shown, share};
ghost use Rattle.afp_desk.specs.desk.Rule.{all_shares};

use crate::desk::house::{moment, new_core, open};
use afp_base::{LinkNumber, MAX_PAYLOAD, OutOfMemory};
use afp_core::Counts;
use afp_desk::{Desk, Pass};
use afp_serial::Answered;
use record_keeper::Keeper;
use std::alloc::Global;
use std::sync::Wait;

/// Asks for a session at link 0. The link that is told, or 0 where none is. Where one is, the pass shows the ask as the last entry.
fn opened<K: Keeper, R: Wait>(rt: &R, desk: &Desk<K>, pass: &mut Pass<K>, out: &mut [u8]) -> u64
    requires desk { IsOf desk.now pass.old }
    requires room { payload_limit ≤ length out.old }
    ensures length { length out.new ≡ length out.old }
    ensures desk { IsOf desk.now pass.new }
    ensures share { share pass.new ≡ share pass.old }
    ensures entry { result ≢ 0 → Adds (shown pass.old) 100 (link_number 0) (ask.Open 1024) (told.Opened (link_number result)) (shown pass.new) }
{
    match desk.call(rt, pass, moment(), LinkNumber(0), open(), out) {
        Answered::Opened { link } => link.0,
        _ => 0,
    }
}

/// What the core has counted that the desk gives back: the entries that the pass shows, and those of them that opened a session.
fn closed<K: Keeper>(desk: Desk<K>, pass: Pass<K>) -> Counts
    requires desk { IsOf desk pass }
    requires whole { share pass ≡ all_shares }
    ensures entries { result.entries ≡ counted (length (shown pass).history) (view pass).start.entries }
    ensures sessions { result.sessions ≡ counted (opened_in (view pass).start.world (shown pass).history) (view pass).start.opened }
{
    let (core, _) = desk.close(pass);
    core.counts()
}

/// Two passes each ask for a session, and meet: the links that they are told, and what the core has counted.
fn met<R: Wait>(rt: &R, alloc: Global) -> Result<(u64, u64, Counts), OutOfMemory> {
    let Ok((desk, mut first)) = Desk::new(alloc, new_core(alloc)?) else {
        return Err(OutOfMemory);
    };
    let mut second = desk.split(&mut first);
    let mut out = vec![in alloc; 0u8; MAX_PAYLOAD as usize]?;
    let one = opened(rt, &desk, &mut first, out.as_mut_slice());
    let two = opened(rt, &desk, &mut second, out.as_mut_slice());
    desk.meet(&mut first, second);
    Ok((one, two, closed(desk, first)))
}

#[test]
fn passes_meet_in_one_history(rt: HostRuntime) -> Result<(), OutOfMemory> {
    let (one, two, counts) = met(&rt, rt.alloc())?;
    let wanted = Counts {
        entries: 2,
        sessions: 2,
    };
    assert!(rt; one == 1 && two == 2 && counts == wanted);
    Ok(())
}
