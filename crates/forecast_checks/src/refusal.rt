// The refusal of a forecast's calls: the condition for every input.
ghost use Rattle.std.specs.Prelude.{◌≡◌, true, false, cond, ◌*◌, ◌≤◌, ◌<◌, length, get_or};
ghost use Rattle.laws.specs.Below.{count};
ghost use Rattle.laws.specs.Checks.{first_met};
ghost use Rattle.laws.specs.Limits.{max_sent};
ghost use Rattle.model.specs.Step.{asked};
ghost use Rattle.refusals.specs.Numbers.{number};
ghost use Rattle.step_places.specs.Message.{word_in};
ghost use Rattle.job_masks.specs.Masks.{Owned, by_owner};
ghost use Rattle.forecast_rules.specs.Lines.{bad_line};
ghost use Rattle.forecast_rules.specs.Steps.{kind_of};
ghost use Rattle.forecast_rules.specs.Tables.{from_marks, forecast_of, forecast_lengths, forecast_short};
ghost use Rattle.forecast_rules.specs.Ranges.{forecast_in_range};
ghost use Rattle.forecast_rules.specs.Step.{fresh_refusals};
ghost use Rattle.forecast_doubles.specs.Lent.{forecast_held, state_viewed};
ghost use Rattle.forecast_checks.specs.Rules.{rules_by};
ghost use Rattle.forecast_checks.specs.Decided.{lent_refusals, table_refusals, message_words, late_fits, words_of, Decided};

use crate::request::request_refusal;
use crate::tables::{forecast_in_range, forecast_short, state_in_range, state_short};
use forecast_doubles::checks::bad_lines;
use forecast_doubles::parts::sums_fit;
use forecast_doubles::tables::{Forecast, StateView};
use job_masks::masks::by_owner;
use refusals::Refusal;
use slices::limits::{GROCERS, OFFERS};
use slices::u16_at;
use step_places::Step;
use step_places::words::in_message;
use step_sent::sent_fits;

// The first that is met of 20 on all tables, and 21 on those of the forecast.
fn lent_refusal(f: &Forecast, s: &StateView) -> Result<(), Refusal>
    ensures { number result ≡ first_met (lent_refusals (forecast_held f.now) (state_viewed s.now)) }
{
    if forecast_short(f) | state_short(f, s) {
        return Err(Refusal::LentShort);
    }
    if !forecast_in_range(f) {
        return Err(Refusal::OutOfRange);
    }
    Ok(())
}

// 34, where the forecast's tables are lent whole and in range.
fn lines_refusal(f: &Forecast) -> Result<(), Refusal>
    requires long { forecast_short (forecast_held f.now) (forecast_lengths (forecast_held f.now)) ≡ false }
    requires in_range { forecast_in_range (forecast_held f.now) ≡ true }
    ensures { number result ≡ cond (bad_line (forecast_of (forecast_held f.now))) 34 0 }
{
    if bad_lines(
        usize::from(f.lines),
        f.line_offer,
        f.line_rate,
        f.line_value,
    ) {
        return Err(Refusal::BadLine);
    }
    Ok(())
}

// The first condition that is met by the call for a fresh state: 20 on all tables, 21 and 34 on those of the forecast.
pub fn fresh_refusal(f: &Forecast, s: &StateView) -> Result<(), Refusal>
    ensures { number result ≡ first_met (fresh_refusals (forecast_held f.now) (state_viewed s.now)) }
{
    lent_refusal(f, s)?;
    lines_refusal(f)
}

// The first of 20, 21 and 34 that is met by a step's tables: as for a fresh state, with 21 on the words of the state before 34.
fn table_refusal(f: &Forecast, s: &StateView) -> Result<(), Refusal>
    ensures { number result ≡ first_met (table_refusals (forecast_held f.now) (state_viewed s.now)) }
{
    lent_refusal(f, s)?;
    if !state_in_range(f, s) {
        return Err(Refusal::OutOfRange);
    }
    lines_refusal(f)
}

// The first of the conditions 22 to 26 that is met, with the need words and the sharer words.
fn asked_refusal(
    f: &Forecast,
    needs: &[u16; OFFERS],
    sharers: &[u16; GROCERS],
    done: &[u16],
    x: Step,
) -> Result<(), Refusal>
    requires owned { (Owned f.now.offers f.now.offer_owner.now needs.now) × (Owned f.now.grocers f.now.grocer_owner.now sharers.now) }
    requires boxes_bound { (f.now.boxes ≤ 16) × (6 * f.now.boxes * f.now.boxes ≤ length done.now) }
    ensures { number result ≡ first_met (rules_by f.now.boxes (by_owner f.now.offers f.now.offer_owner.now needs.now)
        (by_owner f.now.grocers f.now.grocer_owner.now sharers.now) (from_marks f.now.boxes done.now)
        (asked x.kind x.first x.second)) }
{
    let receivers = by_owner(f.offers, f.offer_owner, needs);
    let senders = by_owner(f.grocers, f.grocer_owner, sharers);
    request_refusal(
        f.boxes, x.kind, x.first, x.second, &receivers, &senders, done,
    )
}

// How many of n words stand in the message that box a, their owner, exchanges with box b.
fn words_in(n: u16, owner: &[u16], mask: &[u16], a: u16, b: u16) -> u32
    requires { (b < 16) × ((n ≤ 500) × ((n ≤ length owner.now) × (n ≤ length mask.now))) }
    ensures { result ≡ count n (word_in owner.now mask.now a b) }
{
    let mut words: u32 = 0;
    for i in 0..usize::from(n) {
        words += u32::from(in_message(u16_at(owner, i), u16_at(mask, i), a, b));
    }
    words
}

// The words of a step's message: of values for kind 1, of part sums for kind 4, and none for the others.
fn message_words(f: &Forecast, needs: &[u16; OFFERS], sharers: &[u16; GROCERS], x: Step) -> u32
    requires owned { (Owned f.now.offers f.now.offer_owner.now needs.now) × (Owned f.now.grocers f.now.grocer_owner.now sharers.now) }
    requires offers_bound { (f.now.offers ≤ 500) × ((f.now.grocers ≤ 255) × ((x.first < 16) × (x.second < 16))) }
    requires le_kind { (1 ≤ x.kind) × (x.kind ≤ 6) }
    ensures { result ≡ message_words f.now.offers f.now.grocers f.now.offer_owner.now f.now.grocer_owner.now needs.now
        sharers.now (kind_of x.kind) x.first x.second }
{
    match x.kind {
        1 => words_in(f.offers, f.offer_owner, needs, x.first, x.second),
        4 => words_in(f.grocers, f.grocer_owner, sharers, x.second, x.first),
        _ => 0,
    }
}

// The late 21: whether what an accepted step leaves is in range. Of step 6 these are the sums, and of the others the words sent.
fn late_fits(f: &Forecast, s: &StateView, sharers: &[u16; GROCERS], words: u32, x: Step) -> bool
    requires k_bound { (f.now.boxes ≤ 16) × ((f.now.grocers ≤ 255) × (f.now.grocers ≤ length f.now.grocer_owner.now)) }
    requires m_in_bounds { (f.now.boxes * f.now.grocers ≤ length s.now.part.now) × (f.now.boxes * f.now.grocers ≤ length s.now.held.now) }
    requires in_bounds { (1 ≤ length s.now.sent.now) × ((get_or s.now.sent.now 0 0 ≤ max_sent) × (words ≤ 4_000)) }
    ensures { result ≡ late_fits f.now.boxes f.now.grocers f.now.grocer_owner.now sharers.now s.now.part.now s.now.held.now s.now.sent.now words
        x.kind x.first }
{
    if x.kind == 6 {
        return sums_fit(
            f.boxes,
            usize::from(f.grocers),
            x.first,
            f.grocer_owner,
            sharers,
            s.part,
            s.held,
        );
    }
    sent_fits(s.sent, words)
}

// The first condition that a step meets, or the words of its message; then `needs` and `sharers` have the need words and the sharer words. (Both are
// lent, and not answered beside the words: so they are not copied.)
pub fn step_refusal(
    f: &Forecast,
    s: &StateView,
    needs: &mut [u16; OFFERS],
    sharers: &mut [u16; GROCERS],
    x: Step,
) -> Result<u32, Refusal>
    ensures { Decided (forecast_held f.now) (state_viewed s.now) (asked x.kind x.first x.second) needs.new sharers.new (number result)
        (words_of result) }
{
    table_refusal(f, s)?;
    *needs = job_masks::masks::needs(f.boxes, f.lines, f.line_box, f.line_offer);
    *sharers = job_masks::masks::sharers(f.boxes, f.lines, f.line_box, f.line_grocer);
    asked_refusal(f, needs, sharers, s.done, x)?;
    let words = message_words(f, needs, sharers, x);
    if !late_fits(f, s, sharers, words, x) {
        return Err(Refusal::OutOfRange);
    }
    Ok(words)
}
