//! A client, the server ends of its links and the teller behind them, over a list of happenings: what is asked, which bytes arrive, and what
//! breaks.
#![tactic(auto)]

mod askable;
mod client_end;
mod flight;
mod happening;
mod housed;
mod lane;
mod laws;
mod running;
mod whole_run;

pub use askable::is_askable;
pub use happening::Happening;
pub use housed::HousedTeller;
pub use laws::{what_happens_is_a_schedule, what_happens_takes_effect_once};
pub use whole_run::{OnceRun, once};
