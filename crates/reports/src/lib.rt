//! Frames and faults in words, for people who look at a text of frames.
#![tactic(auto)]

pub mod check;
pub mod words;
