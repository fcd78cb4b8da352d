//! The meaning of Boolean functions, columns, classes and decompositions.
//! The definitions are in `specs/`; the contracts here are their laws.
#![tactic(auto)]

ghost use Rattle.functions.specs.Decompositions.{DecompositionTheorem};
ghost use Rattle.functions.specs.Laws.{WordLaws, ValueLaws, ArityLaws, NegationLaws, ColumnLaws, ClassLaws, ColumnClassLaws};

/// A word of bits is its number, first bit most significant, and back.
pub fn words_lawful()
    ensures { WordLaws }
{}

/// Functions are known by their values; exchange, codes and negation do to the values what they say.
pub fn functions_lawful()
    ensures values { ValueLaws }
    ensures arities { ArityLaws }
    ensures negation { NegationLaws }
{}

/// The columns of a function stand by assignment number; their classes are the distinct ones, by first appearance.
pub fn classes_lawful()
    ensures columns { ColumnLaws }
    ensures classes { ClassLaws }
    ensures numbers { ColumnClassLaws }
{}

/// A function decomposes at its first `b` arguments into `j` functions exactly when its columns have at most 2^`j` classes.
pub fn decomposition_theorem()
    ensures { DecompositionTheorem }
{}
