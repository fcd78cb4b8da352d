//! The classes of a split, and the cells that carry their codes.

ghost use Rattle.std.specs.Prelude.{◌≡◌, ℕ, ◌+◌, ◌-◌, ◌/◌, ◌%◌, ◌^◌, ◌<◌, ◌≤◌, ◌++◌, map, length, ◌==◌, slice_index};
ghost use Rattle.std.specs.List.{range_with_len};
ghost use Rattle.functions.specs.Classes.{columns, classes as classes_of, class_of};
ghost use Rattle.functions.specs.Words.{bits};
ghost use Rattle.charts.specs.Walks.{chart_function};
ghost use Rattle.rules.specs.Codes.{holder};
ghost use Rattle.rows.specs.Rows.{items};
ghost use Rattle.design.specs.Cells.{cells_of, number_table, code_cells};

use super::cell::Cell;
use super::netlist::Netlist;
use super::tables::assignments;
use bits::bit_of;
use charts::{Chart, find, walk};
use families::tables::tabulate;
use rows::Row;
use rules::rule::{CodeRule, class_of_code};
use std::array;

/// The class number of the bound assignment `e`, by the places of the classes.
fn class_at<C: Chart>(chart: &C, b: usize, places: &[C::Place], e: usize) -> usize
    requires inside { e < 2 ^ b }
    requires places { map (C.Chart.column chart.now b) places.now ≡ classes_of (columns b (chart_function C.Chart chart.now)) }
    ensures { result ≡ class_of b (chart_function C.Chart chart.now) (bits b e) }
{
    find(chart, b, places, walk(chart, b, e)).unwrap()
}

/// The class number of each bound assignment, by the places of the classes.
#[tactic(auto, using(rows::proofs::Firsts::length_first, rows::proofs::Firsts::first_push))]
pub(crate) fn class_numbers<C: Chart>(chart: &C, b: usize, places: &[C::Place]) -> Row<usize, 32>
    requires few { b ≤ 5 }
    requires places { map (C.Chart.column chart.now b) places.now ≡ classes_of (columns b (chart_function C.Chart chart.now)) }
    ensures { items result ≡ map (λ e. class_of b (chart_function C.Chart chart.now) (bits b e)) (range_with_len 0 (2 ^ b)) }
{
    let mut numbers = Row::new(0);
    for e in 0..assignments(b) {
        numbers.push(class_at(chart, b, places, e)).unwrap();
    }
    numbers
}

/// For each code of `j` bits the class that has it, or class 0.
pub(crate) fn code_classes<R: CodeRule>(rule: &R, j: usize, classes: usize) -> [usize; 16]
    requires few { j ≤ 4 }
    requires fits { classes ≤ 2 ^ j }
    ensures long { length result ≡ 16 }
    ensures classes { (q : ℕ) → q < 16 → slice_index result q ≡ holder (R.CodeRule.code rule.now j) q classes }
{
    array::from_fn(|q| class_of_code(rule, j, classes, q))
}

/// The bit of weight 2^`k` of the code of a class.
fn code_bit<R: CodeRule>(rule: &R, j: usize, k: usize, class: usize) -> bool
    ensures { result ≡ (R.CodeRule.code rule.now j class / 2 ^ k % 2 == 1) }
{
    bit_of(rule.code(j, class) as u64, k)
}

/// The place, by its weight 2^k, of the code bit that a split's cell `t` of `j` carries.
fn place_of(j: usize, t: usize) -> usize
    requires { t < j }
    ensures { result ≡ j - 1 - t }
{
    j - 1 - t
}

/// The table whose entry e is the bit of weight 2^(`j` - 1 - `t`) of the code of the class with the number at e.
fn code_table<R: CodeRule>(rule: &R, j: usize, t: usize, numbers: &[usize]) -> u32
    requires inside { t < j }
    requires short { length numbers.now ≤ 32 }
    ensures { result ≡ number_table (R.CodeRule.code rule.now) j numbers.now t }
{
    let place = place_of(j, t);
    tabulate(numbers.len(), |e| code_bit(rule, j, place, numbers[e]))
}

/// Adds the cells that carry the codes of the classes with these numbers, on the given pins.
pub(crate) fn add_code_cells<R: CodeRule>(
    netlist: &mut Netlist,
    rule: &R,
    pins: Row<u8, 5>,
    j: usize,
    numbers: &[usize],
)
    requires room { length (cells_of netlist.old) + j ≤ 47 }
    requires short { length numbers.now ≤ 32 }
    ensures cells { cells_of netlist.new ≡ cells_of netlist.old ++ code_cells (R.CodeRule.code rule.now) j (items pins) numbers.now j }
    ensures closed { netlist.new.closed ≡ netlist.old.closed }
{
    for t in 0..j {
        let table = code_table(rule, j, t, numbers);
        netlist.add(Cell { pins, table });
    }
}
