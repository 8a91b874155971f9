//! A teller for captures: over a core whose keepers nobody has used, and which stores no history.

mod in_memory;
mod making;
mod new_keepers;
mod teller;
mod turning;

pub use crate::teller::in_memory::{memory_keepers, new_memory_keepers};
pub use crate::teller::new_keepers::NewKeepers;
pub use crate::teller::teller::SureTeller;
