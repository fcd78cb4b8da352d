//! Hexadecimal digits, and the sum of bytes.

ghost use Rattle.std.specs.Prelude.{◌≡◌, ◌+◌, ◌%◌, ◌<◌, ◌≤◌, true, false, length, IfSome, sum};
ghost use Rattle.std.specs.List.{fold};
ghost use Rattle.std.specs.Option.{option_map};
ghost use Rattle.rows.specs.Rows.{items};
ghost use Rattle.frames.specs.Text.{hex_digit, digit_value, byte_digits, bytes_of, bounded, digit_run, sealing};

use rows::Row;

// Kept: `to_digit` takes a to f too, so that a test for these would stand beside it.
/// The number that a digit, 0 to 9 or A to F, writes; none for any other character.
pub fn digit_value(c: u8) -> Option<u8>
    ensures value { result ≡ digit_value c }
    ensures below { IfSome result (λ d. d < 16) }
{
    match c {
        b'0'..=b'9' => Some(c - b'0'),
        b'A'..=b'F' => Some(c - b'A' + 10),
        _ => None,
    }
}

// Kept: a format would need a text to write to, and there is no heap here.
/// The digit that writes a number below 16.
fn hex_digit(d: u8) -> u8
    requires { d < 16 }
    ensures { result ≡ hex_digit d }
{
    if d < 10 { b'0' + d } else { b'A' + (d - 10) }
}

/// The two digits that write a byte.
pub fn byte_digits(b: u8) -> [u8; 2]
    ensures { result ≡ byte_digits b }
{
    [hex_digit(b / 16), hex_digit(b % 16)]
}

/// The sum of bytes, which wraps at each of them.
fn wrapping_sum(bytes: &[u8]) -> u8
    ensures { result ≡ fold (λ t b. (t + b) % 256) 0 bytes.now }
{
    bytes.iter().fold(0u8, |total, b| total.wrapping_add(*b))
}

/// The sum of bytes, which wraps at 256.
pub fn sum_of(bytes: &[u8]) -> u8
    ensures { result ≡ sum bytes.now % 256 }
{
    wrapping_sum(bytes)
}

/// The byte that makes the sum of a frame's content and itself a multiple of 256.
pub fn sealing_byte(content: &[u8]) -> u8
    ensures { result ≡ sealing content.now }
{
    0u8.wrapping_sub(sum_of(content))
}

/// How many digits come before the first other character.
pub(crate) fn digit_run(digits: &[u8]) -> usize
    ensures value { result ≡ digit_run digits.now }
    ensures within { result ≤ length digits.now }
{
    digits
        .iter()
        .take_while(|c| digit_value(**c).is_some())
        .count()
}

/// Whether so many digits write 2 to 24 bytes.
fn writes_frame(count: usize) -> bool
    ensures yes { result ≡ true → (count % 2 ≡ 0) × (4 ≤ count) × (count ≤ 48) }
    ensures no { result ≡ false → count % 2 ≡ 0 → 4 ≤ count → count ≤ 48 → ⊥ }
{
    count % 2 == 0 && count >= 4 && count <= 48
}

/// The 2 to 24 bytes that digits write; none for any other count or character.
pub(crate) fn bytes_of(digits: &[u8]) -> Option<Row<u8, 24>>
    ensures value { option_map (λ r. items r) result ≡ bounded (bytes_of digits.now) }
    ensures sized { IfSome result (λ r. (2 ≤ length (items r)) × (length (items r) ≤ 24)) }
{
    if !writes_frame(digits.len()) {
        return None;
    }
    let mut bytes = Row::new(0);
    for pair in digits.chunks_exact(2) {
        let byte = 16 * digit_value(pair[0])? + digit_value(pair[1])?;
        bytes.push(byte).unwrap();
    }
    Some(bytes)
}
