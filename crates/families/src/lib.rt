//! Cell families: how the table of a cell is packed into configuration bytes, and what such bytes mean.
#![tactic(auto)]

pub mod family;
pub mod joined;
pub mod single;
pub mod tables;
pub mod words;
