//! A line of a client's script, carried out over whoever asks its calls.

mod forks;
mod mounting;
mod parcels;
mod places;
mod run;
mod values;

pub use crate::line::run::run_line;
