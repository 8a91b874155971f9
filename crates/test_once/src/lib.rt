//! Tests of a client over links that break, with a whole server behind them.
#![tactic(auto)]

#[cfg(test)]
mod calls;
#[cfg(test)]
mod runs;
#[cfg(test)]
mod server;
