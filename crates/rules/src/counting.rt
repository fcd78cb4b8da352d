//! The rule that counts.

ghost use Rattle.rules.specs.Counting.{counting};
ghost use Rattle.rules.specs.RuleLaws.{counting_laws};

use super::rule::{CodeRule, room_for};

/// The code of a class is its number.
#[derive(Clone, Copy, PartialEq, Eq, Debug, Default)]
pub struct Counting;

impl CodeRule for Counting {
    ghost code = { λ _. counting };

    ghost laws = { counting_laws };

    fn code(&self, j: usize, class: usize) -> usize {
        // Kept: the rules share the test by `room_for`; one function of it and of a closure for the code needs two clauses more.
        if class < room_for(j) { class } else { 0 }
    }
}
