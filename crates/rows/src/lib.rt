//! Rows: lists of at most so many elements, in arrays.
#![tactic(auto)]

mod row;

pub use row::{Full, Row};
