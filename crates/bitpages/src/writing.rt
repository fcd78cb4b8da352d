//! Writing the bit page of a table.

ghost use Rattle.std.specs.Prelude.{◌≡◌, ℕ, ◌+◌, ◌*◌, ◌≤◌, ◌∷◌, ◌++◌, map, length, take};
ghost use Rattle.frames.specs.Kinds.{kind_byte};
ghost use Rattle.frames.specs.Outcome.{body};
ghost use Rattle.frames.specs.Text.{sealed};
ghost use Rattle.rows.specs.Rows.{items};
ghost use Rattle.bitpages.specs.Calls.{table_refusal_number, Put};
ghost use Rattle.bitpages.specs.Table.{size, share, count, parts, byte_of};
ghost use Rattle.bitpages.specs.Written.{bits_frame};
ghost use Rattle.bitpages.specs.declared.writing.TableRefusal.TheVariants.{Unwritten};

use crate::records::Arity;
use bits::power;
use buffers::WriteRefusal;
use frames::frame::Frame;
use frames::kinds::Kind;
use frames::writer::write_frames;
use rows::Row;

/// Why a table was not written.
#[derive(Clone, Copy, PartialEq, Eq, Debug)]
pub enum TableRefusal {
    /// It is no table of 1 to 12 arguments: n is out of range, or there are not 2^n entries.
    NoTable,
    /// Its lines were not written.
    Unwritten(WriteRefusal),
}

impl From<WriteRefusal> for TableRefusal {
    ghost from_gives = { λ e r. r ≡ Unwritten e };

    fn from(refusal: WriteRefusal) -> TableRefusal {
        TableRefusal::Unwritten(refusal)
    }
}

impl TableRefusal {
    // Kept: a variant with a field has no number that a cast gives, so that the match is the plainest.
    /// The refusal's number: 11 for no table, 22 for a short buffer.
    pub fn number(&self) -> u8
        ensures { result ≡ table_refusal_number self.now }
    {
        match self {
            TableRefusal::NoTable => 11,
            TableRefusal::Unwritten(refusal) => refusal.number(),
        }
    }
}

// Kept: `tabulate` is of the families of cells, on which no page rests.
/// The byte of at most eight entries, the first its lowest bit.
fn byte_of(eight: &[bool]) -> u8
    requires { length eight.now ≤ 8 }
    ensures { result ≡ byte_of eight.now }
{
    let mut byte = 0;
    for (j, bit) in eight.iter().enumerate() {
        if *bit {
            byte += 1 << j;
        }
    }
    byte
}

/// The entries of a table packed into bytes, eight a byte.
fn pack(table: &[bool]) -> Row<u8, 512>
    requires { length table.now ≤ 4096 }
    ensures { (many : ℕ) → length table.now ≤ 8 * many → 8 * many ≤ length table.now + 7 → items result ≡ map byte_of (parts 8 many table.now) }
{
    let mut bytes = Row::new(0);
    for eight in table.chunks(8) {
        bytes.push(byte_of(eight)).unwrap();
    }
    bytes
}

// Kept: a cell's frame in a design has its fields in two parts, which one function would have to join first.
/// The frame of a kind with these fields.
fn frame_of(kind: Kind, fields: &[u8]) -> Frame
    requires { length fields.now ≤ 22 }
    ensures { body result ≡ sealed (kind_byte kind ∷ fields.now) }
{
    let mut content: Row<u8, 23> = Row::new(0);
    content.push(u8::from(kind)).unwrap();
    content.extend_from_slice(fields).unwrap();
    Frame::sealed(content.as_slice()).unwrap()
}

/// Puts the frames that carry the bytes of a table behind others.
fn put_shares(arity: Arity, bytes: &[u8], frames: &mut Row<Frame, 33>)
    requires bytes { length bytes.now ≡ size arity.n }
    requires room { length (items frames.old) ≤ 1 }
    ensures { map body (items frames.new) ≡ map body (items frames.old) ++ map bits_frame (parts (share arity.n) (count arity.n) bytes.now) }
{
    for part in bytes.chunks_exact(arity.share()) {
        frames.push(frame_of(Kind::Bits, part)).unwrap();
    }
}

/// Writes the page of the function of n arguments with this table to the front of `out`, and answers how many bytes it
/// takes. A refusal, for what is no table of 1 to 12 arguments or for a short buffer, leaves `out` as it was.
pub fn write_table(n: usize, table: &[bool], out: &mut [u8]) -> Result<usize, TableRefusal>
    ensures { Put n table.now out.old out.new result }
{
    if !(1..=12).contains(&n) || table.len() != power(n) {
        return Err(TableRefusal::NoTable);
    }
    let arity = Arity { n };
    let bytes = pack(table);
    let heading = frame_of(Kind::BitPage, &[n as u8]);
    let mut frames = Row::new(heading);
    frames.push(heading).unwrap();
    put_shares(arity, bytes.as_slice(), &mut frames);
    Ok(write_frames(frames.as_slice(), out)?)
}
