//! Node pages: the reduced ordered diagram of a Boolean function of 1 to 16 arguments, as lines of frames.
#![tactic(auto)]

pub mod filling;
pub mod records;
