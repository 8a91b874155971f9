//! Whoever asks the calls of a script over a client's links.

mod asker;
mod exchanges;
mod kind;

pub use crate::asker::asker::{AskEnd, Beginning, Finished, LinkAsker, Unopened, open_asker};
pub use crate::asker::exchanges::Exchanges;
