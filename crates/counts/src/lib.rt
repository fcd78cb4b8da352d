//! How many classes a function has at each width of its first arguments, in words.
#![tactic(auto)]

ghost use Rattle.std.specs.Prelude.{◌≡◌, IfOk, string_bytes};
ghost use Rattle.charts.specs.Walks.{chart_function};
ghost use Rattle.counts.specs.Counts.{inputs_text, width_text, counts_text, Counted};

use charts::{Chart, number_classes};
use std::alloc::{AllocError, Global};

/// The greatest width that is counted.
const WIDEST: usize = 5;

/// How many classes a chart's function has at its first `b` arguments; none where it has fewer, or `b` is above 5.
pub fn class_count<C: Chart>(heap: Global, chart: &C, b: usize) -> Result<Option<usize>, AllocError>
    ensures { IfOk result (Counted (C.Chart.arity chart.now) (chart_function C.Chart chart.now) b) }
{
    if b > WIDEST {
        return Ok(None);
    }
    let mut strip = vec![in heap; chart.top(); 1 << WIDEST]?;
    Ok(number_classes(chart, b, strip.as_mut_slice()))
}

/// The line that tells the number of inputs.
fn inputs_text(heap: Global, inputs: usize) -> Result<String, AllocError>
    ensures { IfOk result (λ s. string_bytes s ≡ inputs_text inputs) }
{
    format!(in heap; "inputs {inputs}\n")
}

/// The line that tells a width's class count.
fn width_text(heap: Global, width: usize, count: usize) -> Result<String, AllocError>
    ensures { IfOk result (λ s. string_bytes s ≡ width_text width count) }
{
    format!(in heap; "width {width} classes {count}\n")
}

/// The number of inputs of a chart's function, and its class count at each width from 1 to the smaller of 5 and that number.
pub fn counts_text<C: Chart>(heap: Global, chart: &C) -> Result<String, AllocError>
    ensures { IfOk result (λ s. string_bytes s ≡ counts_text (C.Chart.arity chart.now) (chart_function C.Chart chart.now)) }
{
    let mut text = inputs_text(heap, chart.count())?;
    for width in 1..=WIDEST {
        if let Some(count) = class_count(heap, chart, width)? {
            let line = width_text(heap, width, count)?;
            text.push_str(line.as_str())?;
        }
    }
    Ok(text)
}
