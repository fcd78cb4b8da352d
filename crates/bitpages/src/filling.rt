//! Bit charts from bit pages.

ghost use Rattle.std.specs.Prelude.{◌≡◌, ℕ, false, [], slice_index_or};
ghost use Rattle.charts.specs.BitCharts.{bit_function};
ghost use Rattle.functions.specs.Functions.{tree};
ghost use Rattle.frames.specs.Reading.{left};
ghost use Rattle.bitpages.specs.Calls.{Charted};
ghost use Rattle.bitpages.specs.Page.{paged, alone};

use crate::loading::{load_table, read_table};
use crate::records::Arity;
use charts::BitChart;
use frames::faults::PageFault;
use frames::reader::FrameReader;

/// The chart of the function with the first entries of a table.
fn chart_of(arity: Arity, table: &[bool; 4096]) -> BitChart
    ensures { bit_function result ≡ tree arity.n (λ i. slice_index_or table.now i false) }
{
    BitChart::with_entries(arity.n, &table[..arity.entries()]).unwrap()
}

/// Fills a chart with the function of the page at which a reader stands; on a fault the chart is as it was.
/// What follows the page is not looked at.
pub fn read_chart(reader: &mut FrameReader, chart: &mut BitChart) -> Result<(), PageFault>
    ensures { Charted (paged (left reader.old) reader.old.line) (left reader.new) reader.new.line chart.old chart.new result }
{
    let mut table = [false; 4096];
    let n = read_table(reader, &mut table)?;
    *chart = chart_of(Arity { n }, &table);
    Ok(())
}

/// Fills a chart with the function of a text that is a page and nothing else; on a fault the chart is as it was.
pub fn load_chart(text: &[u8], chart: &mut BitChart) -> Result<(), PageFault>
    ensures { (line : ℕ) × Charted (alone text.now 1) [] line chart.old chart.new result }
{
    // Kept: one function for this and read_chart would take the reading as a closure, no plainer than these lines.
    let mut table = [false; 4096];
    let n = load_table(text, &mut table)?;
    *chart = chart_of(Arity { n }, &table);
    Ok(())
}
