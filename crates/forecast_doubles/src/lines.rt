// Forecast lines by value, and what a box adds up of them in step 3.
ghost use Rattle.std.specs.Prelude.{◌≡◌, cond, ℕ, ◌+◌, ◌*◌, ◌≤◌, ◌<◌, eqb, length, get_or, set};
ghost use Rattle.std.specs.Float.{binary64};
ghost use Rattle.std.specs.Float.Ieee.{add, mul};
ghost use Rattle.forecast_rules.specs.Doubles.{zero+};
ghost use Rattle.forecast_doubles.specs.Lines.{line_lists, LinesIn, RowIn, cleared, Added};

use crate::tables::Forecast;
use slices::amounts::row_start;

// A forecast line: a rate and a value, joined with their grocer, offer and box.
#[derive(Clone, Copy)]
pub struct Line {
    pub grocer: u16,
    pub offer: u16,
    pub line_box: u16,
    pub rate: f64,
    pub value: f64,
}

// Rate × value, rounded.
pub fn product(line: Line) -> f64
    ensures { result ≡ mul binary64 line.rate line.value }
{
    line.rate * line.value
}

// The sum at place p with x added, rounded.
fn raise(sums: &mut [f64], p: usize, x: f64)
    requires { p < length sums.old }
    ensures { sums.new ≡ set sums.old p (add binary64 (get_or sums.old p zero+) x) }
{
    sums[p] += x;
}

// Adds a line to the part sum of its grocer, in the row of box a, where it is a line of this box.
fn add_line(part: &mut [f64], row: usize, a: u16, line: Line)
    requires grocer_in_bounds { row + line.grocer < length part.old }
    requires row_bound { row ≤ 4080 }
    ensures { part.new ≡ cond (eqb line.line_box a) (set part.old (row + line.grocer)
        (add binary64 (get_or part.old (row + line.grocer) zero+) (mul binary64 line.rate line.value))) part.old }
{
    if line.line_box == a {
        let p = row + usize::from(line.grocer);
        raise(part, p, product(line));
    }
}

// The m words of a row become +0.0.
fn zero_row(part: &mut [f64], row: usize, m: usize)
    requires { (row ≤ 4080) × ((m ≤ 255) × (row + m ≤ length part.old)) }
    ensures { (p : ℕ) → get_or part.new p zero+ ≡ cleared row m part.old p }
{
    part[row..row + m].fill(0.0);
}

// Line i, joined from the tables, with the value of its offer that stands in `known`, in the row that begins at `from`.
fn line_at(f: &Forecast, i: usize, from: usize, known: &[f64]) -> Line
    requires i_in_bounds { (i < length f.now.line_grocer.now) × ((i < length f.now.line_offer.now) × ((i < length f.now.line_box.now) ×
        (i < length f.now.line_rate.now))) }
    requires from_bound { (from ≤ 8000) × (from + get_or f.now.line_offer.now i 0 < length known.now) }
    ensures { (result.grocer ≡ get_or f.now.line_grocer.now i 0) × ((result.line_box ≡ get_or f.now.line_box.now i 0) ×
        ((result.rate ≡ get_or f.now.line_rate.now i zero+) × (result.value ≡ get_or known.now (from + get_or f.now.line_offer.now i 0) zero+))) }
{
    let offer = f.line_offer[i];
    Line {
        grocer: f.line_grocer[i],
        offer,
        line_box: f.line_box[i],
        rate: f.line_rate[i],
        value: known[from + usize::from(offer)],
    }
}

// Step 3 of box a: for each grocer rate × the value known over the box's lines, from +0.0 in list order, in the box's row. One pass over the first n
// lines, which may be more or fewer than the forecast's own.
pub fn add_lines(f: &Forecast, n: usize, a: u16, known: &[f64], part: &mut [f64])
    requires lines_in { LinesIn f.now.grocers f.now.offers n (line_lists f.now.line_grocer.now f.now.line_offer.now f.now.line_box.now
        f.now.line_rate.now) }
    requires row_in { RowIn f.now.grocers f.now.offers a part.old known.now }
    ensures { Added (line_lists f.now.line_grocer.now f.now.line_offer.now f.now.line_box.now f.now.line_rate.now)
        f.now.grocers f.now.offers a n known.now part.old part.new }
{
    let grocers = usize::from(f.grocers);
    let row = row_start(grocers, a);
    let from = row_start(usize::from(f.offers), a);
    zero_row(part, row, grocers);
    for i in 0..n {
        add_line(part, row, a, line_at(f, i, from, known));
    }
}
