//! The keepers of a server's volumes: each volume is loaded from its keeper at the start, and settled at the end.

mod core_fault;
mod loading;
mod retired;

pub use crate::keepers::core_fault::CoreFault;
pub use crate::keepers::loading::load_all;
pub use crate::keepers::retired::{Retired, settle_all};
