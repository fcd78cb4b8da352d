//! The rule of the reflected binary code.

ghost use Rattle.rules.specs.Reflected.{reflected};
ghost use Rattle.rules.specs.RuleLaws.{reflected_laws};

use super::rule::{CodeRule, room_for};

/// The codes of the classes 0 to 15: for each `j` up to 4 the first 2^`j` are the numbers below 2^`j` in some order.
const CODES: [usize; 16] = [0, 1, 3, 2, 6, 7, 5, 4, 12, 13, 15, 14, 10, 11, 9, 8];

/// The code of a class is its number in the reflected binary code.
#[derive(Clone, Copy, PartialEq, Eq, Debug, Default)]
pub struct Reflected;

impl CodeRule for Reflected {
    ghost code = { λ _. reflected };

    ghost laws = { reflected_laws };

    #[tactic(auto, using(crate::specs::Limits::room_few))]
    fn code(&self, j: usize, class: usize) -> usize {
        // Kept: the rules share the test by `room_for`; one function of it and of a closure for the code needs two clauses more.
        if class < room_for(j) { CODES[class] } else { 0 }
    }
}
