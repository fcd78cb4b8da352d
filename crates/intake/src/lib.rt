//! The intake: networks of configured cells, read from their pages.
#![tactic(auto)]

pub mod cell;
pub mod cells;
pub mod network;
pub mod reading;
pub mod records;
pub mod signals;
