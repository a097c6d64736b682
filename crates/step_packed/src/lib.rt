// Packed totals: 20 and 21 on their tables, and whether statements stay in range once a span is added, told before anything is written.
#![tactic(auto)]

ghost use Rattle.std.specs.Prelude.{◌≡◌, [], ◌∷◌, not, ◌&&◌, ◌||◌, ◌*◌, ◌≤◌, ◌<◌, leb, ltb, length, get_or, pos, nat_abs, ◌+ℤ◌};
ghost use Rattle.laws.specs.Below.{all};
ghost use Rattle.laws.specs.Checks.{first_met};
ghost use Rattle.laws.specs.Limits.{max_amount};
ghost use Rattle.model.specs.Ranges.{around};
ghost use Rattle.model.specs.Spans.{beside};
ghost use Rattle.refusals.specs.Numbers.{number};
ghost use Rattle.step_spans.specs.Credit.{PlaceIn, SpanIn};
ghost use Rattle.step_packed.specs.Fits.{word_fits, span_fits, total_fits, TotalFitsIn};

use crate::in_range::{around64, is_amount};
use refusals::Refusal;
use slices::amounts::plus;
use slices::limits::MAX_SENT;
use slices::{i64_at, index_at, u32_at};
use tables::StateView;

pub mod in_range;

// The first of the conditions 20 and 21 that the tables of packed totals meet, of so many words. Words past them are not looked at.
pub fn packed_refusal(words: usize, working: &[i64], total_transit: &[i64]) -> Result<(), Refusal>
    ensures { number result ≡ first_met ((ltb (length working.now) words || ltb (length total_transit.now) words, 20)
        ∷ (not (around max_amount words working.now && around max_amount words total_transit.now), 21) ∷ []) }
{
    if (working.len() < words) | (total_transit.len() < words) {
        return Err(Refusal::LentShort);
    }
    if !(around64(working, words) & around64(total_transit, words)) {
        return Err(Refusal::OutOfRange);
    }
    Ok(())
}

// Whether word g of the statements stays within ±10^15 with word w of the totals.
fn word_fits(w: usize, g: usize, source: &[i64], statement: &[i64]) -> bool
    requires w_in_bounds { (w < length source.now) × (g < length statement.now) }
    requires pos_bound { (nat_abs (get_or source.now w (pos 0)) ≤ 1_000_000_000_000_000) × (nat_abs (get_or statement.now g (pos 0)) ≤ 1_000_000_000_000_000) }
    ensures { result ≡ leb (nat_abs (get_or statement.now g (pos 0) +ℤ get_or source.now w (pos 0))) max_amount }
{
    is_amount(plus(i64_at(statement, g), i64_at(source, w)))
}

// Whether the statement of the grocer of place i stays within ±10^15 with the totals there, one for each price list.
fn place_fits(i: usize, width: usize, grocers: &[u16], source: &[i64], statement: &[i64]) -> bool
    requires { PlaceIn 1_000_000_000_000_000 i width grocers.now source.now statement.now }
    ensures { result ≡ all width (word_fits (i * width) (beside width grocers.now) source.now statement.now) }
{
    let w = i * width;
    let g = index_at(grocers, i) * width;
    for q in 0..width {
        if !word_fits(w + q, g + q, source, statement) {
            return false;
        }
    }
    true
}

// Whether the statements stay within ±10^15 once the totals of a span of places are added. A place has a word for each price list.
pub fn span_fits(
    from: usize,
    to: usize,
    width: usize,
    grocers: &[u16],
    source: &[i64],
    statement: &[i64],
) -> bool
    requires { SpanIn from to width grocers.now source.now statement.now }
    ensures { result ≡ span_fits from to width grocers.now source.now statement.now }
{
    for i in from..to {
        if !place_fits(i, width, grocers, source, statement) {
            return false;
        }
    }
    true
}

// Kinds 4 to 6: whether what the step leaves is in range, on its span.
pub fn total_fits(
    kind: u16,
    from: usize,
    to: usize,
    width: usize,
    grocers: &[u16],
    state: &StateView,
) -> bool
    requires { TotalFitsIn from to width grocers.now state.now.working.now state.now.total_transit.now state.now.statement.now
        state.now.sent.now kind }
    ensures { result ≡ total_fits from to width grocers.now state.now.working.now state.now.total_transit.now
        state.now.statement.now state.now.sent.now kind }
{
    if kind == 4 {
        let more = ((to - from) * width) as u32;
        return u32_at(state.sent, 0) + more <= MAX_SENT;
    }
    if kind == 5 {
        return span_fits(from, to, width, grocers, state.working, state.statement);
    }
    span_fits(
        from,
        to,
        width,
        grocers,
        state.total_transit,
        state.statement,
    )
}
