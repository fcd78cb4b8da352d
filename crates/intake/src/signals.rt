//! The values of the signals of a network.

ghost use Rattle.std.specs.Prelude.{◌≡◌, ℕ, ◌/◌, ◌%◌, ◌^◌, ◌==◌, ◌<◌, ◌≤◌, ◌↔◌, false, [], ◌∷◌, ◌++◌, map, length, take, drop, IsOk, OnOk, OnErr, slice_index_or};
ghost use Rattle.families.specs.Tables.{assignment};
ghost use Rattle.rows.specs.Rows.{items};
ghost use Rattle.intake.specs.Networks.{input_bits, last, pin_value};

use bits::bit_of;
use rows::{Full, Row};
use std::marker::Model;

/// The values of signals: those of the 16 inputs, and then of the cells, of which there are at most 48.
#[derive(Drop)]
pub struct Signals {
    values: Row<bool, 64>,
}

impl Model for Signals {
    ghost use Rattle.std.specs.Prelude.{◌≤◌, Bool, List, length};
    ghost use Rattle.rows.specs.Rows.{items};

    ghost Value = { List Bool };

    ghost view = { λ s. items s.values };

    ghost invariant = { λ s. (16 ≤ length (items s.values)) × (length (items s.values) ≤ 64) };
}

/// The values of the inputs, input i at weight 2^i.
fn input_values(inputs: u16) -> [bool; 16]
    ensures long { length result ≡ 16 }
    ensures each { (i : ℕ) → i < 16 → slice_index_or result i false ≡ (inputs / 2 ^ i % 2 == 1) }
{
    let mut values = [false; 16];
    for (i, value) in values.iter_mut().enumerate() {
        *value = bit_of(u64::from(inputs), i);
    }
    values
}

impl Signals {
    /// The signals of the inputs, input i at weight 2^i.
    pub fn of_inputs(inputs: u16) -> Signals
        ensures { result ≡ input_bits inputs }
    {
        let mut values = Row::new(false);
        values.extend_from_slice(&input_values(inputs)).unwrap();
        Signals { values }
    }

    /// One signal more: the bit that the next cell yields. No signal comes after the 64th.
    pub fn push(&mut self, bit: bool) -> Result<(), Full>
        ensures variant { IsOk result ↔ (length self.old < 64) }
        ensures ok { OnOk result (self.new ≡ self.old ++ (bit ∷ [])) }
        ensures err { OnErr result (self.new ≡ self.old) }
    {
        self.values.push(bit)
    }

    /// The value of a signal, as at a pin: false where there is no such signal, and so at a pin that is not used.
    pub fn value(&self, signal: u8) -> bool
        ensures signal { result ≡ slice_index_or self.now signal false }
        ensures pin { result ≡ pin_value self.now signal }
    {
        let values = self.values.as_slice();
        values.get(usize::from(signal)).copied().unwrap_or(false)
    }

    /// The bit of the last cell: false where there is none.
    #[tactic(auto, using(crate::proofs::Closing::closing_bit))]
    pub fn closing(&self) -> bool
        ensures { result ≡ last (drop 16 self.now) }
    {
        let values = self.values.as_slice();
        values[16..].last().copied().unwrap_or(false)
    }

    /// The number of the assignment that at most 16 signals make, the first most significant.
    fn number_of(&self, signals: &[u8]) -> usize
        requires { length signals.now ≤ 16 }
        ensures signals { result ≡ assignment (map (λ s. slice_index_or self.now s false) signals.now) }
        ensures pins { result ≡ assignment (map (pin_value self.now) signals.now) }
    {
        let mut number = 0;
        for signal in signals {
            number = 2 * number + usize::from(self.value(*signal));
        }
        number
    }

    /// The number of the assignment that the first 16 of some signals make, the first most significant.
    pub fn assignment(&self, signals: &[u8]) -> usize
        ensures signals { result ≡ assignment (map (λ s. slice_index_or self.now s false) (take 16 signals.now)) }
        ensures pins { result ≡ assignment (map (pin_value self.now) (take 16 signals.now)) }
    {
        self.number_of(&signals[..signals.len().min(16)])
    }
}
