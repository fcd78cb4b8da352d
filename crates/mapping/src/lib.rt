//! What is asked of a design and what it answers, and the law over every list of calls, for states of a design.
#![tactic(auto)]

pub mod answer;
pub mod call;
pub mod refusal;
