//! Tests of the whole server in threads of its own, of what no contract says: that links are served side by side, and that the keepers are those in the boxes
//! that were handed in.

#[cfg(test)]
mod boxes;
#[cfg(test)]
mod doors;
#[cfg(test)]
mod gate;
#[cfg(test)]
mod keeper;
#[cfg(test)]
mod requests;
#[cfg(test)]
mod run;
#[cfg(test)]
mod side_by_side;
#[cfg(test)]
mod turns;
