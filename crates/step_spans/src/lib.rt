// Steps 4, 5 and 6 on packed tables of totals: each touches one span of words.
#![tactic(auto)]

ghost use Rattle.std.specs.Prelude.{◌≡◌, ◌+◌, ◌-◌, ◌*◌, ◌≤◌, ◌<◌, length, get_or, set, pos, nat_abs, ◌+ℤ◌};
ghost use Rattle.model.specs.Spans.{span_written, beside};
ghost use Rattle.step_spans.specs.Credit.{credit_span, PlaceIn, SpanIn};

use slices::amounts::raise_at;
use slices::index_at;

// Step 4: the totals of a message go from the working totals to those in transit, and become 0. It is one pass over both tables: a copy and a fill
// would be two.
pub fn move_span(from: usize, to: usize, working: &mut [i64], transit: &mut [i64])
    requires { (from ≤ to) × (to ≤ length working.old) × (to ≤ length transit.old) }
    ensures { (working.new ≡ span_written from to (λ i. pos 0) working.old) ×
        (transit.new ≡ span_written from to (λ i. get_or working.old i (pos 0)) transit.old) }
{
    for i in from..to {
        let v = working[i];
        transit[i] = v;
        working[i] = 0;
    }
}

// Adds word w of the totals to word g of the statements, and puts 0 in its place.
fn credit_word(w: usize, g: usize, source: &mut [i64], statement: &mut [i64])
    requires w_in_bounds { (w < length source.old) × (g < length statement.old) }
    requires pos_bound { (nat_abs (get_or source.old w (pos 0)) ≤ 1_000_000_000_000_000) ×
        (nat_abs (get_or statement.old g (pos 0)) ≤ 4_000_000_000_000_000_000) }
    ensures { (source.new ≡ set source.old w (pos 0)) × (statement.new ≡ set statement.old g
        (get_or statement.old g (pos 0) +ℤ get_or source.old w (pos 0))) }
{
    raise_at(statement, g, source[w]);
    source[w] = 0;
}

// Adds the totals of place i, one for each price list, to the statement of its grocer, and puts 0 in their places.
fn credit_place(i: usize, width: usize, grocers: &[u16], source: &mut [i64], statement: &mut [i64])
    requires { PlaceIn 3_000_000_000_000_000_000 i width grocers.now source.old statement.old }
    ensures { (source.new ≡ span_written (i * width) (i * width + width) (λ w. pos 0) source.old) × (statement.new
        ≡ credit_span width (i * width) (beside width grocers.now) source.old statement.old) }
{
    let w = i * width;
    let g = index_at(grocers, i) * width;
    for q in 0..width {
        credit_word(w + q, g + q, source, statement);
    }
}

// Steps 5 and 6: the totals of a span of places are added to the statements of their grocers, and become 0. A place has a word for each price list.
pub fn credit_span(
    from: usize,
    to: usize,
    width: usize,
    grocers: &[u16],
    source: &mut [i64],
    statement: &mut [i64],
)
    requires { SpanIn from to width grocers.now source.old statement.old }
    ensures { (source.new ≡ span_written (from * width) (to * width) (λ w. pos 0) source.old) × (statement.new
        ≡ credit_span (to * width - from * width) (from * width) (beside width grocers.now) source.old statement.old) }
{
    for i in from..to {
        credit_place(i, width, grocers, source, statement);
    }
}
