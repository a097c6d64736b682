// The ranges of a store's words, and whether words are in one.
ghost use Rattle.std.specs.Prelude.{◌≡◌, ℕ, suc, ◌≤◌, leb, pos, negsuc, nat_abs, length};
ghost use Rattle.model.specs.Ranges.{around};

// The latest cycle and the twelve numbers before it.
pub const CYCLES: usize = 13;

// The last cycle and one more.
pub const MAX_NEXT: u32 = 65_536;

// The largest amount that is held or given, in cents,
pub const MAX_HELD: i64 = 100_000_000_000_000;

// and the least.
pub const MIN_HELD: i64 = -100_000_000_000_000;

// The largest sum that is kept, in cents,
pub const MAX_KEPT: i64 = 1_300_000_000_000_000;

// and the least.
pub const MIN_KEPT: i64 = -1_300_000_000_000_000;

// Whether a number is neither below the least nor above the most.
pub fn is_within(x: i64, least: i64, most: i64) -> bool
    ensures { (k : ℕ) → least ≡ negsuc k → most ≡ pos (suc k) → result ≡ leb (nat_abs x) (suc k) }
{
    (least <= x) & (x <= most)
}

// Whether the first n words of s are. There is no branch from word to word, so that several are tested at once.
pub fn all_within(s: &[i64], n: usize, least: i64, most: i64) -> bool
    requires { n ≤ length s.now }
    ensures { (k : ℕ) → least ≡ negsuc k → most ≡ pos (suc k) → result ≡ around (suc k) n s.now }
{
    s[..n]
        .iter()
        .fold(true, |all, x| all & is_within(*x, least, most))
}
