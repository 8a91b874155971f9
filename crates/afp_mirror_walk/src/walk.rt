//! Where a mirror stands, and what follows an answer.

mod asking;
mod calls;
mod checks;
mod copies;
mod ends;
mod found;
mod lists;
mod replies;
mod sets;
mod standing;
mod stepping;
mod table;
mod volumes;

pub use crate::walk::calls::Asking;
pub use crate::walk::ends::{Line, MirrorEnd, Side};
pub use crate::walk::standing::{
    Checking, Copying, Found, Made, Pair, Place, Settings, Stage, Walk,
};
pub use crate::walk::stepping::{Heard, told};
pub use crate::walk::table::refusals_end;
