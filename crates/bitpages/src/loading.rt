//! Reading bit pages into tables.

ghost use Rattle.std.specs.Prelude.{◌≡◌, ℕ, ◌^◌, ◌<◌, false, [], take, IfOk, slice_index_or};
ghost use Rattle.frames.specs.Pages.{ReadsPage};
ghost use Rattle.frames.specs.Reading.{left};
ghost use Rattle.rows.specs.Rows.{items};
ghost use Rattle.bitpages.specs.Calls.{Filled};
ghost use Rattle.bitpages.specs.Page.{packed, shares, paged, alone};
ghost use Rattle.bitpages.specs.Table.{count, entry_at};
ghost use Rattle.bitpages.specs.Written.{table_text, PageLaws};

use crate::records::{Arity, read_bits, read_heading};
use bits::bit_of;
use frames::faults::PageFault;
use frames::reader::FrameReader;
use frames::records::read_end;
use rows::Row;

/// What a page holds: a number of arguments, and the bytes of their table.
#[derive(Drop)]
struct Page {
    arity: Arity,
    bytes: Row<u8, 512>,
}

/// Reads the frames of a page, and gives the bytes that they carry.
fn read_bytes(reader: &mut FrameReader, arity: Arity) -> Result<Row<u8, 512>, PageFault>
    ensures { ReadsPage (λ d bytes. d ≡ packed arity.n (items bytes)) (shares arity.n (count arity.n) [] (left reader.old) reader.old.line) (left reader.new) reader.new.line result }
{
    let share = arity.share();
    let mut bytes = Row::new(0);
    for _i in 0..arity.frames() {
        let line = reader.line();
        let frame = read_bits(reader, arity)?.ok_or(PageFault::Missing { line })?;
        bytes
            .extend_from_slice(&frame.bytes()[1..1 + share])
            .unwrap();
    }
    Ok(bytes)
}

/// Reads a page.
fn read_page(reader: &mut FrameReader) -> Result<Page, PageFault>
    ensures { ReadsPage (λ d page. d ≡ packed page.arity.n (items page.bytes)) (paged (left reader.old) reader.old.line) (left reader.new) reader.new.line result }
{
    let line = reader.line();
    let n = read_heading(reader)?.ok_or(PageFault::Missing { line })?;
    let arity = Arity { n };
    let bytes = read_bytes(reader, arity)?;
    Ok(Page { arity, bytes })
}

/// Sets every entry of a table to the bit that holds it, and to false where no byte does.
fn unpack(bytes: &[u8], table: &mut [bool; 4096])
    ensures { (i : ℕ) → i < 4096 → slice_index_or table.new i false ≡ entry_at bytes.now i }
{
    for (i, entry) in table.iter_mut().enumerate() {
        *entry = bytes
            .get(i / 8)
            .is_some_and(|byte| bit_of(u64::from(*byte), i % 8));
    }
}

/// Fills a table from the page at which a reader stands, and answers the page's number of arguments; on a fault the
/// table is as it was. The first 2^n entries are the page's, the others false. What follows the page is not looked at.
pub fn read_table(reader: &mut FrameReader, table: &mut [bool; 4096]) -> Result<usize, PageFault>
    ensures { Filled (paged (left reader.old) reader.old.line) (left reader.new) reader.new.line table.old table.new result }
{
    let page = read_page(reader)?;
    unpack(page.bytes.as_slice(), table);
    Ok(page.arity.n)
}

/// Fills a table from a text that is a page and nothing else, and answers the page's number of arguments; on a fault
/// the table is as it was. The first 2^n entries are the page's, the others false.
#[tactic(auto, using(crate::proofs::Pages::page_laws))]
pub fn load_table(text: &[u8], table: &mut [bool; 4096]) -> Result<usize, PageFault>
    ensures loaded { (line : ℕ) × Filled (alone text.now 1) [] line table.old table.new result }
    ensures written { IfOk result (λ n. text.now ≡ table_text n (take (2 ^ n) table.new)) }
    ensures laws { PageLaws }
{
    let mut reader = FrameReader::new(text);
    // Kept: one function for this and read_table would take the reading as a closure, no plainer than these lines.
    let page = read_page(&mut reader)?;
    read_end(&mut reader)?;
    unpack(page.bytes.as_slice(), table);
    Ok(page.arity.n)
}
