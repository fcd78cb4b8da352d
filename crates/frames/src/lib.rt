//! Frames: lines of hexadecimal digits, read from and written to lent memory, and the faults of what is read.
#![tactic(auto)]

pub mod faults;
pub mod frame;
pub mod hex;
pub mod kinds;
pub mod reader;
pub mod records;
pub mod writer;
