//! The core: one turn of the serial file server, over a world in memory.

mod counts;
mod list_teller;
mod turn;

pub use crate::turns::counts::Counts;
pub use crate::turns::list_teller::ListTeller;
pub use crate::turns::turn::Core;
