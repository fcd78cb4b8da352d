//! Bit pages: the table of a Boolean function of 1 to 12 arguments, as lines of frames.
#![tactic(auto)]

pub mod filling;
pub mod loading;
pub mod records;
pub mod writing;
