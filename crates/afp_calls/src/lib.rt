//! The requests of the Apple Filing Protocol: read from a command's block, and written to one (AFP
//! Reference, "AFP Calls"). The call's group reads and writes its fields.
#![tactic(auto)]

mod group;
mod read;
mod write;

pub use afp_calls_grammar::grammar::{Call, ReadFault, commands};
pub use read::{is_command, read_call};
pub use write::write_call;
