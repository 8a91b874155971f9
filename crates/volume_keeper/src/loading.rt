//! A volume with its desktop database, loaded from a keeper of records.

mod fresh;
mod loading;
mod made;
mod raise;
mod rebuild;

pub use crate::loading::loading::{LoadFault, load};
