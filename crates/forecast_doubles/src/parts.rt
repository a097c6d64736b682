// Part sums at a grocer's owner, and their sum in step 6.
ghost use Rattle.std.specs.Prelude.{◌≡◌, cond, ◌*◌, ◌+◌, ◌≤◌, ◌<◌, eqb, length, get_or};
ghost use Rattle.std.specs.Float.{binary64};
ghost use Rattle.std.specs.Float.Ieee.{add};
ghost use Rattle.laws.specs.Masks.{bit};
ghost use Rattle.laws.specs.Tables.{overwrite};
ghost use Rattle.forecast_rules.specs.Doubles.{zero+};
ghost use Rattle.forecast_doubles.specs.Parts.{owner_sum, sums_fit, summed_word};

use crate::values::{f64_at, is_sum};
use slices::bits::has_bit;
use slices::u16_at;

// The sum with box c's part sum of a grocer, where box c is in the mask: the owner's own, or the one held.
fn with_part(sum: f64, c: u16, a: u16, mask: u16, at: usize, part: &[f64], held: &[f64]) -> f64
    requires { (c < 16) × ((at < length part.now) × (at < length held.now)) }
    ensures { result ≡ cond (bit c mask) (add binary64 sum (cond (eqb c a) (get_or part.now at zero+) (get_or held.now at zero+))) sum }
{
    if !has_bit(mask, c) {
        return sum;
    }
    if c == a {
        return sum + f64_at(part, at);
    }
    sum + f64_at(held, at)
}

// Step 6 for one grocer: the part sums of the boxes of its mask, from +0.0 in ascending box number.
pub fn owner_sum(k: u16, m: usize, g: usize, a: u16, mask: u16, part: &[f64], held: &[f64]) -> f64
    requires k_bound { (k ≤ 16) × ((m ≤ 255) × (g < m)) }
    requires m_in_bounds { (k * m ≤ length part.now) × (k * m ≤ length held.now) }
    ensures { result ≡ owner_sum k m g a mask part.now held.now }
{
    let mut sum = 0.0;
    for c in 0..k {
        let at = slices::amounts::row_start(m, c) + g;
        let more = with_part(sum, c, a, mask, at, part, held);
        sum = more;
    }
    sum
}

// Whether the sums of step 6 of box a are in range, that is of the grocers that it owns: the late 21.
pub fn sums_fit(
    k: u16,
    m: usize,
    a: u16,
    owner: &[u16],
    sharers: &[u16],
    part: &[f64],
    held: &[f64],
) -> bool
    requires k_bound { (k ≤ 16) × ((m ≤ 255) × ((m ≤ length owner.now) × (m ≤ length sharers.now))) }
    requires m_in_bounds { (k * m ≤ length part.now) × (k * m ≤ length held.now) }
    ensures { result ≡ sums_fit k m a owner.now sharers.now part.now held.now m }
{
    let mut fit = true;
    for g in 0..m {
        let fits = (u16_at(owner, g) != a)
            | is_sum(owner_sum(k, m, g, a, u16_at(sharers, g), part, held));
        fit = fit & fits;
    }
    fit
}

// The one number or the other.
fn chosen(first: bool, x: f64, y: f64) -> f64
    ensures { result ≡ cond first x y }
{
    if first {
        return x;
    }
    y
}

// Step 6 of box a for its forecasts: each grocer that it owns gets its sum, whatever stood there before; the others keep theirs.
pub fn write_sums(
    k: u16,
    m: usize,
    a: u16,
    owner: &[u16],
    sharers: &[u16],
    part: &[f64],
    held: &[f64],
    forecast: &mut [f64],
)
    requires k_bound { (k ≤ 16) × ((m ≤ 255) × ((m ≤ length owner.now) × (m ≤ length sharers.now))) }
    requires m_in_bounds { (k * m ≤ length part.now) × ((k * m ≤ length held.now) × (m ≤ length forecast.old)) }
    ensures { forecast.new ≡ overwrite m
        (summed_word k m a owner.now sharers.now part.now held.now forecast.old)
        forecast.old }
{
    for g in 0..m {
        let sum = owner_sum(k, m, g, a, u16_at(sharers, g), part, held);
        let word = chosen(u16_at(owner, g) == a, sum, f64_at(forecast, g));
        forecast[g] = word;
    }
}
