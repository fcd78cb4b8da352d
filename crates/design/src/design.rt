//! What a design holds.

use super::netlist::Netlist;
use charts::{Chart, Inverting};
use families::family::CellFamily;
use rules::rule::CodeRule;

/// A design over any chart, any code rule and any cell family: the function that is left, the live signals that are its
/// arguments, and the cells made so far.
#[derive(Drop)]
pub struct Design<C: Chart, R: CodeRule, F: CellFamily> {
    pub(crate) chart: Inverting<C>,
    pub(crate) rule: R,
    pub(crate) family: F,
    pub(crate) inputs: u8,
    // Kept: as many of these are live as the chart has arguments, so that a length beside would say the same again.
    pub(crate) live: [u8; 16],
    pub(crate) netlist: Netlist,
}
