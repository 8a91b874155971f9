//! Tests of a desk: passes that meet in one history, and a pass that reads what it wrote.

#[cfg(test)]
mod house;
#[cfg(test)]
mod passes;
#[cfg(test)]
mod reading;
