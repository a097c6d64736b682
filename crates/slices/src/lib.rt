// A word of a slice, read by a call: a caller's own proof then has one step for it, not the steps of its address. Beside it bits, sums, casts, limits, sizes.
#![tactic(auto)]

ghost use Rattle.std.specs.Prelude.{◌≡◌, ◌≤◌, ◌<◌, length, get_or, slice_index_or, pos};

pub mod amounts;
pub mod bits;
pub mod casts;
pub mod limits;
pub mod lists;
pub mod sizes;

use crate::casts::{byte_size, index_of};

// The word at a place, of whatever type.
pub fn at<T: Copy>(s: &[T], i: usize) -> T
    requires { i < length s.now }
    ensures { (d : T) → result ≡ slice_index_or s.now i d }
{
    s[i]
}

// The byte at a place, as a size.
pub fn byte_at(s: &[u8], i: usize) -> usize
    requires { i < length s.now }
    ensures { (result ≡ get_or s.now i 0) × (result ≤ 255) }
{
    byte_size(at(s, i))
}

// The 16-bit word at a place, as an index.
pub fn index_at(s: &[u16], i: usize) -> usize
    requires { i < length s.now }
    ensures { (result ≡ get_or s.now i 0) × (result ≤ 65535) }
{
    index_of(at(s, i))
}

// The 16-bit word at a place.
pub fn u16_at(s: &[u16], i: usize) -> u16
    requires { i < length s.now }
    ensures { result ≡ get_or s.now i 0 }
{
    at(s, i)
}

// The 32-bit word at a place.
pub fn u32_at(s: &[u32], i: usize) -> u32
    requires { i < length s.now }
    ensures { result ≡ get_or s.now i 0 }
{
    at(s, i)
}

// The count at a place.
pub fn i32_at(s: &[i32], i: usize) -> i32
    requires { i < length s.now }
    ensures { result ≡ get_or s.now i (pos 0) }
{
    at(s, i)
}

// The amount at a place.
pub fn i64_at(s: &[i64], i: usize) -> i64
    requires { i < length s.now }
    ensures { result ≡ get_or s.now i (pos 0) }
{
    at(s, i)
}
