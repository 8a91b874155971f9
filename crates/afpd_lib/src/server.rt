//! The file server over its doors: its words, its links side by side, and its report.

pub mod ends;
pub mod given;
pub mod house;
pub mod laws;
pub mod notes;
pub mod report;
pub mod server;
pub mod setup;
pub mod unopened;
