// 34 in one pass over the lines.
ghost use Rattle.std.specs.Prelude.{◌≡◌, true, ℕ, ◌≤◌, ◌<◌, length, get_or};
ghost use Rattle.model.specs.Ranges.{under};
ghost use Rattle.forecast_rules.specs.Doubles.{zero+, is_value};
ghost use Rattle.forecast_doubles.specs.BadLines.{line_bad, bad_lines};

use crate::values::{f64_at, is_value, same_bits};
use slices::index_at;

// Whether line i is out of range, or its value has not the bits of that of line `last` − 1, an earlier line of its offer; there is none where `last` is 0.
fn line_bad(i: usize, last: u16, line_rate: &[f64], line_value: &[f64]) -> bool
    requires i_in_bounds { (i < length line_rate.now) × ((i < length line_value.now) × (last ≤ i)) }
    requires by_index { (k : ℕ) → k < last → is_value (get_or line_value.now k zero+) ≡ true }
    ensures { result ≡ line_bad i last line_rate.now line_value.now }
{
    let v = f64_at(line_value, i);
    if !(is_value(f64_at(line_rate, i)) & is_value(v)) {
        return true;
    }
    if last == 0 {
        return false;
    }
    !same_bits(f64_at(line_value, (last - 1) as usize), v)
}

// 34: whether a line's rate or value is out of range, or two lines of one offer differ in the bits of its value. Each line is held against the last one
// of its offer before it, which is found by offer, and not against every other. (A word that is 0 for none stays: an Option would double the table that
// the loop looks into.)
pub fn bad_lines(n: usize, line_offer: &[u16], line_rate: &[f64], line_value: &[f64]) -> bool
    requires n_bound { (n ≤ 1000) × ((n ≤ length line_offer.now) × ((n ≤ length line_rate.now) × (n ≤ length line_value.now))) }
    requires line_offer_value { under 500 n line_offer.now ≡ true }
    ensures { result ≡ bad_lines n line_offer.now line_rate.now line_value.now }
{
    let mut seen = [0u16; 500];
    for i in 0..n {
        let o = index_at(line_offer, i);
        if line_bad(i, seen[o], line_rate, line_value) {
            return true;
        }
        seen[o] = (i + 1) as u16;
    }
    false
}
