// Amounts and their places: a row, a sum and a product that fit, and a sum at a place.
ghost use Rattle.std.specs.Prelude.{◌≡◌, ◌*◌, ◌≤◌, ◌<◌, length, get_or, set, pos, nat_abs, ◌+ℤ◌, ◌*ℤ◌};
ghost use Rattle.std.specs.Int.{w64};
ghost use Rattle.std.proofs.Common.{SFits};
ghost use Rattle.laws.specs.Limits.{max_price, max_count};

use crate::casts::index_of;

// Where row a of a table begins, whose rows have m words.
pub fn row_start(m: usize, a: u16) -> usize
    requires { (m ≤ 4_000) × (a < 16) }
    ensures { result ≡ a * m }
{
    index_of(a) * m
}

// The sum of two amounts that is known to fit.
pub fn plus(x: i64, y: i64) -> i64
    requires { SFits w64 (x +ℤ y) }
    ensures { result ≡ x +ℤ y }
{
    x + y
}

// Count × price.
pub fn amount(count: i32, price: u32) -> i64
    requires { (nat_abs count ≤ max_count) × (price ≤ max_price) }
    ensures { result ≡ count *ℤ pos price }
{
    i64::from(count) * i64::from(price)
}

// Adds x to the amount at place g, where the sum is known to fit.
pub fn raise_at(amounts: &mut [i64], g: usize, x: i64)
    requires { (g < length amounts.old) × SFits w64 (get_or amounts.old g (pos 0) +ℤ x) }
    ensures { amounts.new ≡ set amounts.old g (get_or amounts.old g (pos 0) +ℤ x) }
{
    amounts[g] += x;
}
