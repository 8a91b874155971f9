//! The tool as a library: a client's scripts, captures, drills, streams of frames and AppleSingle
//! files; and what a person is told beside.
#![tactic(auto)]

pub mod client;
pub mod explaining;
mod teller;
mod tool;

pub use client::{ClientWords, Finished, addresses, client_words, run_client_words};
pub use client_script_run::ClientEnd;
pub use teller::{NewKeepers, SureTeller, memory_keepers, new_memory_keepers};
pub use tool::afptool;
