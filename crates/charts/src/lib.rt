//! Charts: places in a Boolean function, stepped through argument by argument.
//! The trait, a chart by table, the negation of any chart, and the numbering of a chart's classes.
#![tactic(auto)]

mod bit_chart;
mod chart;
mod class_list;
mod inverting;
mod laws;
mod numbering;
mod refusal;
mod walks;

pub use bit_chart::{BitChart, Stretch};
pub use chart::{Chart, Recoding};
pub use class_list::{ClassList, find};
pub use inverting::Inverting;
pub use laws::{bit_functions_lawful, columns_lawful};
pub use numbering::number_classes;
pub use refusal::ChartRefusal;
pub use walks::{value_at, walk};
