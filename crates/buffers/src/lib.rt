//! Lent buffers: what is written goes over the front, and a buffer that is too short is refused and stays as it was.
#![tactic(auto)]

ghost use Rattle.std.specs.Prelude.{◌≡◌};
ghost use Rattle.buffers.specs.Refusals.{refusal_number};
ghost use Rattle.buffers.specs.Written.{Written};

/// Why nothing was written.
#[derive(Clone, Copy, PartialEq, Eq, Debug)]
pub enum WriteRefusal {
    /// The buffer is too short.
    TooShort = 22,
}

impl WriteRefusal {
    /// The refusal's number: 22.
    pub fn number(&self) -> u8
        ensures { result ≡ refusal_number self.now }
    {
        *self as u8
    }
}

/// Writes `bytes` over the front of `out`. A buffer that is too short is refused, and stays as it was.
pub fn put(bytes: &[u8], out: &mut [u8]) -> Result<(), WriteRefusal>
    ensures { Written bytes.now out.old out.new result }
{
    if out.len() < bytes.len() {
        return Err(WriteRefusal::TooShort);
    }
    out[..bytes.len()].copy_from_slice(bytes);
    Ok(())
}
