// Whether an amount, and whether the first words of a table, are amounts in range.
ghost use Rattle.std.specs.Prelude.{◌≡◌, ◌≤◌, length, leb, nat_abs};
ghost use Rattle.laws.specs.Limits.{max_amount};
ghost use Rattle.model.specs.Ranges.{around};

use slices::limits::{MAX_AMOUNT, MIN_AMOUNT};

// Whether an amount is within ±10^15. `job_ranges` has the same of counts: one function for both would take a trait with laws for two integer types.
pub fn is_amount(x: i64) -> bool
    ensures { result ≡ leb (nat_abs x) max_amount }
{
    if x > MAX_AMOUNT {
        return false;
    }
    x >= MIN_AMOUNT
}

// Whether the first n words of s are amounts.
pub fn around64(s: &[i64], n: usize) -> bool
    requires { n ≤ length s.now }
    ensures { result ≡ around max_amount n s.now }
{
    s[..n].iter().all(|x| is_amount(*x))
}
