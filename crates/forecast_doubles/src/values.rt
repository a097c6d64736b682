// Whether doubles are in range, and whether two have the same bits.
ghost use Rattle.std.specs.Prelude.{◌≡◌, true, ◌*◌, ◌≤◌, ◌<◌, length, get_or};
ghost use Rattle.forecast_rules.specs.Doubles.{zero+, is_value, is_sum, same_bits};
ghost use Rattle.forecast_rules.specs.Ranges.{each};
ghost use Rattle.forecast_doubles.specs.Bounds.{within};

// The words of a table with a row of n words for each of k boxes, whether or not k and n are in range.
pub fn table_words(k: u16, n: u16) -> usize
    ensures { result ≡ k * n }
{
    usize::from(k) * usize::from(n)
}

// The double at a place.
pub fn f64_at(s: &[f64], i: usize) -> f64
    requires { i < length s.now }
    ensures { result ≡ get_or s.now i zero+ }
{
    s[i]
}

// The largest rate and value.
const MAX_VALUE: f64 = 1_000_000.0;

// The largest sum.
const MAX_SUM: f64 = 1_000_000_000_000_000.0;

// Whether x is finite and within ± a bound. A NaN passes no comparison.
fn within(x: f64, most: f64) -> bool
    ensures { result ≡ within most x }
{
    (-most <= x) & (x <= most)
}

// Whether x is finite and within ±1,000,000.
pub fn is_value(x: f64) -> bool
    ensures { result ≡ is_value x }
{
    within(x, MAX_VALUE)
}

// Whether x is finite and within ±10^15.
pub fn is_sum(x: f64) -> bool
    ensures { result ≡ is_sum x }
{
    within(x, MAX_SUM)
}

// Whether two values have the same bits. The bits of a NaN are not asked for: both are in range.
pub fn same_bits(x: f64, y: f64) -> bool
    requires { (is_value x ≡ true) × (is_value y ≡ true) }
    ensures { result ≡ same_bits x y }
{
    f64::to_bits(x) == f64::to_bits(y)
}

// Whether the first n words of s are within ± a bound. There is no branch in the loop, so that several words are tested at once.
fn all_within(s: &[f64], n: usize, most: f64) -> bool
    requires { n ≤ length s.now }
    ensures { result ≡ each (within most) n s.now }
{
    let mut all = true;
    for i in 0..n {
        all = all & within(f64_at(s, i), most);
    }
    all
}

// Whether the first n words of s are values.
pub fn all_values(s: &[f64], n: usize) -> bool
    requires { n ≤ length s.now }
    ensures { result ≡ each is_value n s.now }
{
    all_within(s, n, MAX_VALUE)
}

// Whether the first n words of s are sums.
pub fn all_sums(s: &[f64], n: usize) -> bool
    requires { n ≤ length s.now }
    ensures { result ≡ each is_sum n s.now }
{
    all_within(s, n, MAX_SUM)
}
