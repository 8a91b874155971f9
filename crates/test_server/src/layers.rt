//! Tests of single layers with ample memory: what no clause says, since want of memory may come at any time.
//!
//! Of the bottom layer keepers and the reading of all that they hold, of captures those that come in pieces or whose source fails.

#[cfg(test)]
mod keepers;
#[cfg(test)]
mod pieces;
#[cfg(test)]
mod reading;
