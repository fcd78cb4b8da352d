//! Charts by reduced ordered diagrams of at most 1,024 nodes.
#![tactic(auto)]

mod diagrams;
mod draft;
mod drafting;
mod exchange;
mod node;
mod node_chart;
mod places;
mod raw;
mod recode;
mod reduce;
mod store;

pub use diagrams::{diagrams_lawful, node_charts_lawful};
pub use draft::Draft;
pub use drafting::{NodeFlaw, Unnamed};
pub use node_chart::NodeChart;
