//! Two links at once.
use crate::threads::doors::{is_answered, two_doors};
use crate::threads::gate::HoldingGate;
use crate::threads::requests::{first_call, first_reply};
use crate::threads::run::run;
use afp_base::OutOfMemory;
use afp_outside::Gate;
use record_keeper::{Keeper, MemoryKeeper};
use std::alloc::Global;
use std::sync::Wait;
use std::thread::Threads;

/// Whether two links are each answered their first call, with this gate before them.
fn both_are_answered<R: Threads + Wait + Sync, G: Gate + Sync>(
    threads: &R,
    alloc: Global,
    gate: &G,
) -> Result<bool, OutOfMemory>
where
    G::Log: Send,
{
    let mut keepers: Vec<Box<dyn Keeper + Send>> = Vec::new(alloc);
    let keeper = MemoryKeeper::new(alloc, Vec::new(alloc));
    keepers.push(Box::new(alloc, keeper)?)?;
    let doors = two_doors(alloc, first_call(), first_call())?;
    let finish = run(threads, alloc, &["Share=memory"], keepers, doors, gate)?;
    let both = finish.doors.len() == 2
        && finish
            .doors
            .iter()
            .all(|door| is_answered(door, first_reply()));
    Ok(both && finish.status == 0)
}

#[test]
fn a_link_is_answered_while_another_waits(rt: HostRuntime) -> Result<(), OutOfMemory> {
    let gate = HoldingGate::new();
    assert!(rt; both_are_answered(&rt, rt.alloc(), &gate)?);
    assert!(rt; !gate.is_given_up());
    Ok(())
}
