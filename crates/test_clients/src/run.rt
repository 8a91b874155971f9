//! Runs of a client.

use crate::case::Case;
use crate::link::tapes;
use crate::plan::{numbers, sizes};
use afp_base::OutOfMemory;
use afp_outside::{TapeDialer, TapeSink, TapeSource};
use client_script_run::{Ran, run_client};
use std::alloc::Global;

/// What came of a run: what was printed, and how the client ended.
#[derive(Drop)]
pub struct Run {
    pub printed: TapeSink,
    pub ran: Ran<TapeDialer>,
}

fn source_of(alloc: Global, case: &Case) -> Result<TapeSource, OutOfMemory> {
    let script = case.script.copy()?;
    let reads = sizes(alloc, case.source.takes.as_slice())?;
    TapeSource::new(script, reads, numbers(alloc, case.source.fails.as_slice())?)
}

fn sink_of(alloc: Global, case: &Case) -> Result<TapeSink, OutOfMemory> {
    let writes = sizes(alloc, case.sink.takes.as_slice())?;
    TapeSink::new(alloc, writes, numbers(alloc, case.sink.fails.as_slice())?)
}

fn dialer_of(alloc: Global, case: &Case) -> Result<TapeDialer, OutOfMemory> {
    let links = tapes(alloc, case.links.as_slice())?;
    TapeDialer::new(alloc, links, numbers(alloc, case.dials.fails.as_slice())?)
}

/// Carries out a case.
pub fn run_case(alloc: Global, case: &Case) -> Result<Run, OutOfMemory> {
    let login = case.login(alloc)?;
    let mut source = source_of(alloc, case)?;
    let mut printed = sink_of(alloc, case)?;
    let dialer = dialer_of(alloc, case)?;
    let turns = u64::from(case.turns);
    let ran = run_client(alloc, login, &mut source, &mut printed, dialer, turns);
    Ok(Run { printed, ran })
}
