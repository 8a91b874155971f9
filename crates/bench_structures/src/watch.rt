//! How long calls take.
use std::io;
use std::io::ErrorKind;
use std::time::CpuClock;

/// The processor time that was used so far, in nanoseconds.
pub fn spent(rt: &HostRuntime) -> io::Result<u64> {
    let time = rt.process_cpu_time()?;
    Ok(
        time.as_secs()
            .saturating_mul(1_000_000_000)
            .saturating_add(u64::from(time.subsec_nanos())),
    )
}

/// The nanoseconds that each of so many calls took since then. It is an error if not each of them did what it should.
pub fn each(rt: &HostRuntime, since: u64, calls: u32, done: u32) -> io::Result<u64> {
    let taken = spent(rt)?.saturating_sub(since);
    if done != calls {
        return Err(io::Error::from(ErrorKind::Other));
    }
    if calls == 0 {
        return Ok(0);
    }
    Ok(taken / u64::from(calls))
}

/// Prints what a call takes at the small and at the large size, and how much more that is, in hundredths.
pub fn print_row(rt: &HostRuntime, call: &str, small: u64, large: u64) -> io::Result<()> {
    let ratio = large.saturating_mul(100) / small.max(1);
    println!(rt; "{call} | {small} | {large} | {ratio}")
}

/// Numbers below a bound that jump about.
pub fn scattered(turn: u32, bound: u32) -> u32 {
    if bound == 0 {
        return 0;
    }
    turn.wrapping_mul(2_654_435_761) % bound
}
