//! What a code rule is, and the way back from a code to its class.

ghost use Rattle.std.specs.Prelude.{◌≡◌, ℕ, min};
ghost use Rattle.rules.specs.Codes.{Laws, room, holder, Has, HolderLaws};

/// A rule that gives each class a code of `j` bits.
pub trait CodeRule {
    /// The code, by the rule, the number of bits and the class.
    ghost code: { Self → ℕ → ℕ → ℕ };

    /// It has `j` bits, and is another for each class; outside the range it is 0.
    ghost laws: { Laws code };

    /// The code of `class`, of `j` bits: 0 where `j` is above 4, or `class` at 2^`j` or above.
    fn code(&self, j: usize, class: usize) -> usize
        ensures { result ≡ code self.now j class };
}

/// How many classes have codes of `j` bits: 2^`j`, and none for more than 4 bits.
pub fn room_for(j: usize) -> usize
    ensures { result ≡ room j }
{
    // Kept: `bits::power` has another limit, so the test for 4 and the 0 would stay beside a call of it.
    if j > 4 { 0 } else { 1 << j }
}

/// A class below `count` that has the code `q` of `j` bits.
fn class_with<R: CodeRule>(rule: &R, j: usize, count: usize, q: usize) -> Option<usize>
    ensures { Has (R.CodeRule.code rule.now j) q count result }
{
    (0..count).find(|c| rule.code(j, *c) == q)
}

/// The class below `classes` that has the code `q` of `j` bits, or class 0 if none has, as for more than 4 bits.
#[tactic(auto, using(crate::proofs::Holders::holder_found))]
pub fn class_of_code<R: CodeRule>(rule: &R, j: usize, classes: usize, q: usize) -> usize
    ensures { result ≡ holder (R.CodeRule.code rule.now j) q (min classes (room j)) }
{
    class_with(rule, j, classes.min(room_for(j)), q).unwrap_or(0)
}

/// A code leads back to the class that has it, and one that no class has to class 0.
#[tactic(auto, using(crate::proofs::Holders::holder_laws))]
pub fn codes_lead_back<R: CodeRule>()
    ensures { HolderLaws R.CodeRule.code }
{}
