//! Node charts from node pages.

ghost use Rattle.std.specs.Prelude.{◌≡◌, ℕ, ◌≤◌, [], length, OnOk};
ghost use Rattle.frames.specs.Pages.{ReadsPage, Fills};
ghost use Rattle.frames.specs.Reading.{left};
ghost use Rattle.nodes.specs.Drafts.{drafted};
ghost use Rattle.nodepages.specs.Page.{listed, paged, alone, Holds};

use crate::records::{read_heading, read_node};
use frames::faults::PageFault;
use frames::reader::FrameReader;
use frames::records::read_end;
use nodes::{Draft, NodeChart};

/// Adds the nodes of the next `count` frames to a draft that has none.
fn read_nodes(reader: &mut FrameReader, draft: &mut Draft, count: usize) -> Result<(), PageFault>
    requires none { drafted draft.old ≡ [] }
    requires room { count ≤ 1024 }
    ensures nodes { ReadsPage (λ ys _. drafted draft.new ≡ ys) (listed draft.old.arity count [] (left reader.old) reader.old.line) (left reader.new) reader.new.line result }
    ensures many { OnOk result (length (drafted draft.new) ≡ count) }
    ensures arity { draft.new.arity ≡ draft.old.arity }
{
    for _i in 0..count {
        let line = reader.line();
        read_node(reader, draft)?.ok_or(PageFault::Missing { line })?;
    }
    Ok(())
}

/// The chart of the page at which a reader stands. What follows the page is not looked at.
fn read_page(reader: &mut FrameReader) -> Result<NodeChart, PageFault>
    ensures { ReadsPage Holds (paged (left reader.old) reader.old.line) (left reader.new) reader.new.line result }
{
    let line = reader.line();
    let heading = read_heading(reader)?.ok_or(PageFault::Missing { line })?;
    let mut draft = Draft::new(heading.arity).unwrap();
    read_nodes(reader, &mut draft, heading.count)?;
    // Kept: map_err would put the sum in a closure, which must prove its bounds for any error; no plainer.
    match draft.finish(heading.root == 1) {
        Ok(chart) => Ok(chart),
        Err(unnamed) => Err(PageFault::Unnamed {
            line: line + (unnamed.node - 1),
            node: unnamed.node,
        }),
    }
}

/// Fills a chart with the function of the page at which a reader stands; on a fault the chart is as it was.
/// What follows the page is not looked at.
pub fn read_chart(reader: &mut FrameReader, chart: &mut NodeChart) -> Result<(), PageFault>
    ensures { Fills (λ d s _. Holds d s) (paged (left reader.old) reader.old.line) (left reader.new) reader.new.line chart.old chart.new result }
{
    *chart = read_page(reader)?;
    Ok(())
}

/// Fills a chart with the function of a text that is a page and nothing else; on a fault the chart is as it was.
pub fn load_chart(text: &[u8], chart: &mut NodeChart) -> Result<(), PageFault>
    ensures { (line : ℕ) × Fills (λ d s _. Holds d s) (alone text.now 1) [] line chart.old chart.new result }
{
    // Kept: one function for this and read_chart would take the reading as a closure, no plainer than these lines.
    let mut reader = FrameReader::new(text);
    let loaded = read_page(&mut reader)?;
    read_end(&mut reader)?;
    *chart = loaded;
    Ok(())
}
