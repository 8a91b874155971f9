//! Runs of the real client and server ends are schedules of the law by which each command of a client has its effect once and in order.

pub mod laws;
