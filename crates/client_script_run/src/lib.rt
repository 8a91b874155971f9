//! A client that carries out a script, line after line, over links that it opens anew after a
//! break.
#![tactic(auto)]

mod asker;
mod line;
mod run;

pub use asker::{AskEnd, Beginning, Exchanges, Finished, LinkAsker, Unopened, open_asker};
pub use line::run_line;
pub use run::{ClientEnd, Printed, Ran, ScriptEnd, Taken, run_client};
