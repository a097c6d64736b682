// Whether a number, and whether the first words of a table, are in a range.
#![tactic(auto)]

ghost use Rattle.std.specs.Prelude.{◌≡◌, ◌≤◌, length, leb, nat_abs};
ghost use Rattle.laws.specs.Limits.{max_count};
ghost use Rattle.model.specs.Ranges.{up_to, under, around};

use slices::limits::{MAX_COUNT, MIN_COUNT};

// Whether the first n words of s are below m. There is no branch from word to word, so that several are tested at once.
pub fn under16(s: &[u16], n: usize, m: u16) -> bool
    requires { n ≤ length s.now }
    ensures { result ≡ under m n s.now }
{
    s[..n].iter().fold(true, |all, x| all & (*x < m))
}

// Whether the first n words of s are at most m, likewise: the library's fold once more, with other words and another test.
pub fn upto32(s: &[u32], n: usize, m: u32) -> bool
    requires { n ≤ length s.now }
    ensures { result ≡ up_to m n s.now }
{
    s[..n].iter().fold(true, |all, x| all & (*x <= m))
}

// Whether a count is within ±99,999.
pub fn is_count(x: i32) -> bool
    ensures { result ≡ leb (nat_abs x) max_count }
{
    if x > MAX_COUNT {
        return false;
    }
    x >= MIN_COUNT
}

// Whether the first n words of s are counts.
pub fn around32(s: &[i32], n: usize) -> bool
    requires { n ≤ length s.now }
    ensures { result ≡ around max_count n s.now }
{
    s[..n].iter().all(|x| is_count(*x))
}
