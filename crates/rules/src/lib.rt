//! Code rules: the code that stands for each class of a function.
#![tactic(auto)]

pub mod counting;
pub mod reflected;
pub mod rule;
