//! Designs: a function in a chart is split, cell by cell, into a network.
#![tactic(auto)]

mod cell;
mod closing;
mod codes;
mod design;
mod netlist;
mod opening;
mod pages;
mod pins;
mod running;
mod splitting;
mod swapping;
mod tables;

pub use cell::Cell;
pub use design::Design;
pub use running::perform;
pub use splitting::SplitCounts;
