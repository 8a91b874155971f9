//! A client that carries out a script.

mod ends;
mod line;
mod print;
mod run;

pub use crate::run::ends::ClientEnd;
pub use crate::run::line::{Printed, Taken};
pub use crate::run::run::{Ran, ScriptEnd, run_client};
