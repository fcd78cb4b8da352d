//! Words of two bytes.

ghost use Rattle.std.specs.Prelude.{◌≡◌, ◌+◌, ◌*◌};
ghost use Rattle.families.specs.Words.{word_bytes};

/// The last 16 bits of a word as two bytes, high byte first.
pub fn word_bytes(word: u32) -> [u8; 2]
    ensures { result ≡ word_bytes word }
{
    let [_, _, high, low] = word.to_be_bytes();
    [high, low]
}

/// The word of two bytes.
pub fn word_of(high: u8, low: u8) -> u32
    ensures { result ≡ high * 256 + low }
{
    u32::from(u16::from_be_bytes([high, low]))
}
