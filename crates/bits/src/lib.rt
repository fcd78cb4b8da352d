//! Powers of two, and the bits of a number.
#![tactic(auto)]

ghost use Rattle.std.specs.Prelude.{◌≡◌, ◌/◌, ◌%◌, ◌^◌, ◌<◌, ◌≤◌, ◌==◌};

/// 2 to the power `k`, or 0 where `k` is above 16.
pub fn power(k: usize) -> usize
    ensures within { k ≤ 16 → result ≡ 2 ^ k }
    ensures past { 16 < k → result ≡ 0 }
{
    if k > 16 { 0 } else { 1 << k }
}

/// Whether the number `n` has the bit of weight 2^`k`.
pub fn bit_of(n: u64, k: usize) -> bool
    ensures { result ≡ (n / 2 ^ k % 2 == 1) }
{
    k < 64 && (n >> k) % 2 == 1
}
