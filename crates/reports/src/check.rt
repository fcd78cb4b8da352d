//! The report on a text: each line in words, and the total.

ghost use Rattle.std.specs.Prelude.{◌≡◌, [], ◌∷◌, ◌++◌, IfOk, string_bytes};
ghost use Rattle.frames.specs.Reading.{Moved};
ghost use Rattle.reports.specs.Checked.{total_text, LineFound, Checked};

use crate::words::{fault_text, frame_text};
use frames::faults::{PageFault, RecordFault};
use frames::reader::FrameReader;
use std::alloc::{AllocError, Global};

/// A line in words, and whether it is faulty.
// Kept: the text is there in both cases, so an enum of two texts is no plainer: its users would match to reach it.
#[derive(Drop)]
pub struct LineReport {
    pub text: String,
    pub faulty: bool,
}

/// The report on a text, and how many of its lines are faulty.
#[derive(Drop)]
pub struct Report {
    pub text: String,
    pub faulty: usize,
}

/// The words for a line, ended by a line end, and whether it is faulty.
fn ended(heap: Global, words: &str, faulty: bool) -> Result<LineReport, AllocError>
    ensures { IfOk result (λ l. (string_bytes l.text ≡ words.now ++ (10 ∷ [])) × (l.faulty ≡ faulty)) }
{
    let text = format!(in heap; "{words}\n")?;
    Ok(LineReport { text, faulty })
}

/// The next line in words; none at the end.
pub fn next_line(heap: Global, reader: &mut FrameReader) -> Result<Option<LineReport>, AllocError>
    ensures found { IfOk result (LineFound reader.old) }
    ensures moved { Moved reader.old reader.new }
{
    let line = reader.line();
    // Kept: as one match that gives the words, the proof did not close: what an arm knows is lost where the arms join.
    match reader.next() {
        Ok(None) => Ok(None),
        Ok(Some(frame)) => {
            let words = frame_text(heap, line, &frame)?;
            Ok(Some(ended(heap, words.as_str(), false)?))
        }
        Err(fault) => {
            let whole = PageFault::Record(RecordFault::Frame(fault));
            let words = fault_text(heap, &whole)?;
            let faulty = true;
            Ok(Some(ended(heap, words.as_str(), faulty)?))
        }
    }
}

/// How many lines there are, and how many of them are good and faulty.
pub fn total_text(
    heap: Global,
    lines: usize,
    good: usize,
    faulty: usize,
) -> Result<String, AllocError>
    ensures { IfOk result (λ s. string_bytes s ≡ total_text lines good faulty) }
{
    format!(in heap; "{lines} lines: {good} good, {faulty} faulty\n")
}

/// The report on a text: a line in words for each of its lines, and the total.
pub fn check_text(heap: Global, text: &[u8]) -> Result<Report, AllocError>
    ensures { IfOk result (Checked text.now) }
{
    let mut reader = FrameReader::new(text);
    let mut all = String::new(heap);
    let mut faulty = 0;
    // Kept: `?` ends the loop and the reader is asked for its line after it, so a chain is no plainer.
    while let Some(line) = next_line(heap, &mut reader)? {
        all.push_str(line.text.as_str())?;
        if line.faulty {
            faulty += 1;
        }
    }
    let lines = reader.line() - 1;
    let total = total_text(heap, lines, lines - faulty, faulty)?;
    all.push_str(total.as_str())?;
    Ok(Report { text: all, faulty })
}
