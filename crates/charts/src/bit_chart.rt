ghost use Rattle.std.specs.Prelude.{◌≡◌, ℕ, ◌+◌, ◌-◌, ◌^◌, ◌<◌, ◌≤◌, false, length, Decides, slice_index_or};
ghost use Rattle.functions.specs.Functions.{bit};
ghost use Rattle.charts.specs.Changes.{IsInRange};
ghost use Rattle.charts.specs.Stretches.{there, entry_of, stretch_column, all_of, onward};
ghost use Rattle.charts.specs.Tables.{Filled, source_of, exchanged_entry, row_entry};

use super::chart::{Chart, Recoding};
use super::refusal::ChartRefusal;
use bits::power;

/// The most arguments that a bit chart takes.
const MOST: usize = 12;

/// The entries of its table, 2^`MOST`.
const ENTRIES: usize = 4096;

/// A stretch of a bit chart's table.
#[derive(Clone, Copy)]
pub struct Stretch {
    start: usize,
    len: usize,
}

/// A function of at most 12 arguments by its table, the entry of the assignment number `i` at `i`.
// Kept: fixed memory, so the table has room for 12 arguments and their number stands beside.
#[derive(Clone, Copy)]
pub struct BitChart {
    table: [bool; ENTRIES],
    count: usize,
    ghost small: { count ≤ 12 },
}

/// Where the entry `i` comes from when the arguments of weight 2`h` and `h` are exchanged.
fn source(h: usize, i: usize) -> usize
    requires some { 0 < h }
    requires small { h ≤ 4096 }
    requires inside { i < 4096 }
    ensures { result ≡ source_of h i }
{
    let x = i / h;
    let y = match x % 4 {
        1 => x + 1,
        2 => x - 1,
        _ => x,
    };
    y * h + i % h
}

/// A table whose first `n` entries are those that `entry` gives.
fn filled<F: Fn(usize) -> bool>(n: usize, entry: F) -> [bool; ENTRIES]
    requires room { n ≤ 4096 }
    requires known { (i : ℕ) → i < n → F.pre entry i }
    ensures long { length result ≡ 4096 }
    ensures each { (i : ℕ) → i < n → F.post entry i (slice_index_or result i false) }
{
    let mut table = [false; ENTRIES];
    for (i, bit) in table[..n].iter_mut().enumerate() {
        *bit = entry(i);
    }
    table
}

impl BitChart {
    ghost use Rattle.charts.specs.BitCharts.{bit_function, Loaded};

    /// The constant 0 of no arguments.
    pub fn empty() -> BitChart
        ensures { bit_function result ≡ bit false }
    {
        BitChart {
            table: [false; ENTRIES],
            count: 0,
        }
    }

    #[tactic(auto, using(crate::proofs::Stretches::table_size))]
    /// The function of `n` arguments with these entries: none if there are more than 12 arguments, or not 2^`n` entries.
    pub fn with_entries(n: usize, entries: &[bool]) -> Option<BitChart>
        ensures { Loaded n entries.now result }
    {
        if n > MOST || entries.len() != power(n) {
            return None;
        }
        let mut table = [false; ENTRIES];
        table[..entries.len()].copy_from_slice(entries);
        Some(BitChart { table, count: n })
    }

    #[tactic(auto, using(crate::proofs::Stretches::table_size))]
    /// How many entries a place at a depth has.
    fn size(&self, depth: usize) -> usize
        ensures value { result ≡ 2 ^ (self.now.count - depth) }
        ensures few { result ≤ 4096 }
    {
        power(self.count.saturating_sub(depth))
    }

    #[tactic(auto, using(crate::proofs::Stretches::part_fits, crate::proofs::Stretches::there_test))]
    /// Whether the chart has the place at a depth.
    fn has(&self, depth: usize, place: Stretch) -> bool
        ensures { result ≡ there self.now.count (self.now.count - depth) place }
    {
        place.len == self.size(depth) && place.start <= self.size(0) - place.len
    }

    /// The entry `i` of a place at a depth: 0 if the chart lacks the place.
    fn entry(&self, depth: usize, place: Stretch, i: usize) -> bool
        requires { i < 2 ^ (self.now.count - depth) }
        ensures { result ≡ entry_of self.now.count self.now.table (self.now.count - depth) place i }
    {
        self.has(depth, place) && self.table[place.start + i]
    }

    /// Whether two places at a depth have the same entry `i`.
    fn agree(&self, depth: usize, a: Stretch, b: Stretch, i: usize) -> bool
        requires { i < 2 ^ (self.now.count - depth) }
        ensures { Decides result (entry_of self.now.count self.now.table (self.now.count - depth) a i ≡ entry_of self.now.count self.now.table (self.now.count - depth) b i) }
    {
        self.entry(depth, a, i) == self.entry(depth, b, i)
    }

    #[tactic(auto, using(crate::proofs::Stretches::table_size))]
    /// The entry `i` once the arguments of weight 2^(`k` + 1) and 2^`k` are exchanged.
    fn exchanged_entry(&self, k: usize, i: usize) -> bool
        requires two { k + 2 ≤ self.now.count }
        requires inside { i < 2 ^ self.now.count }
        ensures { result ≡ exchanged_entry self.now.table k i }
    {
        self.table[source(power(k), i)]
    }

    /// The table with these arguments exchanged.
    fn exchanged(&self, k: usize) -> [bool; ENTRIES]
        requires { k + 2 ≤ self.now.count }
        ensures { Filled (2 ^ self.now.count) (exchanged_entry self.now.table k) result }
    {
        filled(self.size(0), |i| self.exchanged_entry(k, i))
    }

    /// The entry `x` of the recoded table: the row of a code is the place of its class.
    fn row_entry(&self, recoding: &Recoding<Stretch>, x: usize) -> bool
        requires ready { IsInRange self.now.count recoding.now }
        requires inside { x < 2 ^ (self.now.count - recoding.now.bound + recoding.now.codes) }
        ensures { result ≡ row_entry self.now.count self.now.table (self.now.count - recoding.now.bound) recoding.now.places.now recoding.now.class_of.now x }
    {
        let size = self.size(recoding.bound);
        let place = recoding.places[recoding.class_of[x / size]];
        self.entry(recoding.bound, place, x % size)
    }

    #[tactic(auto, using(crate::proofs::Stretches::table_size))]
    /// The recoded table, one row for each code.
    fn rows(&self, recoding: &Recoding<Stretch>) -> [bool; ENTRIES]
        requires ready { IsInRange self.now.count recoding.now }
        requires small { self.now.count - recoding.now.bound + recoding.now.codes ≤ 12 }
        ensures { Filled (2 ^ (self.now.count - recoding.now.bound + recoding.now.codes)) (row_entry self.now.count self.now.table (self.now.count - recoding.now.bound) recoding.now.places.now recoding.now.class_of.now) result }
    {
        let count = self.count - recoding.bound + recoding.codes;
        filled(power(count), |x| self.row_entry(recoding, x))
    }
}

impl Chart for BitChart {
    ghost use Rattle.charts.specs.BitCharts.{AtMost};
    ghost use Rattle.charts.specs.BitLaws.{bit_laws};

    type Place = Stretch;

    ghost arity = { λ s. s.count };

    ghost column = { λ s. stretch_column s.count s.table };

    ghost root = { λ s. all_of s.count };

    ghost next = { λ s. onward s.count };

    ghost fits = { λ s. AtMost 12 };

    ghost laws = { bit_laws };

    fn count(&self) -> usize {
        self.count
    }

    fn top(&self) -> Stretch {
        Stretch {
            start: 0,
            len: self.size(0),
        }
    }

    fn step(&self, depth: usize, place: Stretch, value: bool) -> Stretch {
        if depth >= self.count {
            return place;
        }
        if !self.has(depth, place) {
            return Stretch { start: 0, len: 0 };
        }
        let half = self.size(depth + 1);
        let start = if value {
            place.start + half
        } else {
            place.start
        };
        Stretch { start, len: half }
    }

    fn same(&self, depth: usize, a: Stretch, b: Stretch) -> bool {
        (0..self.size(depth)).all(|i| self.agree(depth, a, b, i))
    }

    fn end(&self, place: Stretch) -> bool {
        self.entry(self.count, place, 0)
    }

    fn swap(&mut self, p: usize) -> Result<(), ChartRefusal> {
        let m = self.count;
        if m < 2 || p > m - 2 {
            return Err(ChartRefusal::OutOfRange);
        }
        let table = self.exchanged(m - 2 - p);
        self.table = table;
        Ok(())
    }

    fn recode(&mut self, recoding: &Recoding<Stretch>) -> Result<(), ChartRefusal> {
        if !recoding.in_range(self.count) {
            return Err(ChartRefusal::OutOfRange);
        }
        let count = self.count - recoding.bound + recoding.codes;
        if count > MOST {
            return Err(ChartRefusal::DoesNotFit);
        }
        let table = self.rows(recoding);
        self.table = table;
        self.count = count;
        Ok(())
    }
}
