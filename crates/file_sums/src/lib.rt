// The two sums of a block of a file.
#![tactic(auto)]

ghost use Rattle.std.specs.Prelude.{◌≡◌, ◌+◌, ◌-◌, ◌*◌, ◌≤◌, ◌<◌, length, get_or};
ghost use Rattle.laws.specs.Below.{sum, naturals};
ghost use Rattle.format.specs.Bytes.{from};
ghost use Rattle.format.specs.Blocks.{first_sum, second_sum};
ghost use Rattle.format.specs.Refusals.{sums_differ};

use file_bytes::{byte16, word16};

// The first and the second sum of some bytes.
#[derive(Clone, Copy)]
pub struct TwoSums {
    pub first: usize,
    pub second: usize,
}

// A byte times a weight, as 16 bits hold it.
fn weighed(x: u16, weight: u16) -> u32
    requires { (x ≤ 255) × (weight ≤ 254) }
    ensures { (result ≡ weight * x) × (result ≤ 64770) }
{
    u32::from(weight * x)
}

// Both sums, as they are before a modulus, of the 254 bytes at a place: half of those of a block. 16 bits hold the first, and each term of the second.
fn half(f: &[u8], at: usize) -> TwoSums
    requires { at + 254 ≤ length f.now }
    ensures first_value { (result.first ≡ sum naturals 254 (from f.now at)) × (result.first ≤ 64770) }
    ensures second_value { (result.second ≡ sum naturals 254 (λ p. (254 - p) * from f.now at p)) × (result.second ≤ 16451580) }
{
    let mut first: u16 = 0;
    let mut second: u32 = 0;
    for i in 0..254 {
        let b = byte16(f, at + i);
        first += b;
        second += weighed(b, 254 - i as u16);
    }
    TwoSums {
        first: usize::from(first),
        second: second as usize,
    }
}

// Both sums of the 508 bytes at a place. A byte of the first half has in the second sum 254 more than its weight in that half.
pub fn sums(f: &[u8], at: usize) -> TwoSums
    requires { at + 508 ≤ length f.now }
    ensures { (result.first ≡ first_sum (from f.now at)) × (result.second ≡ second_sum (from f.now at)) }
{
    let a = half(f, at);
    let b = half(f, at + 254);
    let first = a.first + b.first;
    let second = a.second + 254 * a.first + b.second;
    TwoSums {
        first: first % 65521,
        second: second % 65521,
    }
}

// Whether a sum of block k is not as stored.
pub fn sums_differ(f: &[u8], k: usize) -> bool
    requires { 512 * k + 512 ≤ length f.now }
    ensures { result ≡ sums_differ (from f.now (512 * k)) }
{
    let at = 512 * k;
    let s = sums(f, at);
    (s.first != word16(f, at + 508)) | (s.second != word16(f, at + 510))
}
