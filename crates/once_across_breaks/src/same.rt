//! A client's calls over links that break are told what they are told where no link breaks.

mod breaks;
pub mod laws;

pub use crate::same::breaks::Break;
