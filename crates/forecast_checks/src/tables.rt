// Conditions 20 and 21 on the tables of a forecast and of its state.
ghost use Rattle.std.specs.Prelude.{◌≡◌, false};
ghost use Rattle.forecast_rules.specs.Tables.{forecast_lengths, state_lengths, forecast_short, state_short};
ghost use Rattle.forecast_rules.specs.Ranges.{forecast_in_range, state_in_range};
ghost use Rattle.forecast_doubles.specs.Lent.{forecast_held, state_viewed};
ghost use Rattle.forecast_checks.specs.Sizes.{LinesLong};

use forecast_doubles::tables::{Forecast, StateView};
use forecast_doubles::values::{all_sums, all_values, table_words};
use job_ranges::{under16, upto32};
use slices::bits::marks;
use slices::limits::{MAX_BOXES, MAX_GROCERS, MAX_OFFERS, MAX_SENT, MAX_TALLIES};

// 20: whether a table of the forecast is shorter than M, N and the number of lines as given need.
pub fn forecast_short(f: &Forecast) -> bool
    ensures { result ≡ forecast_short (forecast_held f.now) (forecast_lengths (forecast_held f.now)) }
{
    let m = usize::from(f.grocers);
    let n = usize::from(f.offers);
    let l = usize::from(f.lines);
    (f.offer_owner.len() < n)
        | (f.grocer_owner.len() < m)
        | (f.line_grocer.len() < l)
        | (f.line_offer.len() < l)
        | (f.line_box.len() < l)
        | (f.line_rate.len() < l)
        | (f.line_value.len() < l)
}

// 20: whether a table of the state is shorter than K, M and N as given need.
pub fn state_short(f: &Forecast, s: &StateView) -> bool
    ensures { result ≡ state_short (forecast_held f.now) (state_lengths (state_viewed s.now)) }
{
    let kn = table_words(f.boxes, f.offers);
    let km = table_words(f.boxes, f.grocers);
    (s.known.len() < kn)
        | (s.value_transit.len() < kn)
        | (s.part.len() < km)
        | (s.part_transit.len() < km)
        | (s.held.len() < km)
        | (s.forecast.len() < usize::from(f.grocers))
        | (s.done.len() < marks(f.boxes))
        | (s.sent.len() < 1)
}

// 21: whether K, M, N, the number of lines and every word of the forecast's tables of 16-bit words are in range. Rates and values fall under 34.
pub fn forecast_in_range(f: &Forecast) -> bool
    requires { LinesLong f.now.grocers f.now.offers f.now.lines f.now.offer_owner.now f.now.grocer_owner.now f.now.line_grocer.now
        f.now.line_offer.now f.now.line_box.now }
    ensures { result ≡ forecast_in_range (forecast_held f.now) }
{
    let m = usize::from(f.grocers);
    let n = usize::from(f.offers);
    let l = usize::from(f.lines);
    ((1 <= f.boxes) & (f.boxes <= MAX_BOXES))
        & ((1 <= f.grocers) & (f.grocers <= MAX_GROCERS))
        & ((1 <= f.offers) & (f.offers <= MAX_OFFERS))
        & (f.lines <= MAX_TALLIES)
        & under16(f.offer_owner, n, f.boxes)
        & under16(f.grocer_owner, m, f.boxes)
        & under16(f.line_grocer, l, f.grocers)
        & under16(f.line_offer, l, f.offers)
        & under16(f.line_box, l, f.boxes)
}

// 21: whether every word of the state's tables is in range: values, sums, marks and the words sent.
pub fn state_in_range(f: &Forecast, s: &StateView) -> bool
    requires { state_short (forecast_held f.now) (state_lengths (state_viewed s.now)) ≡ false }
    ensures { result ≡ state_in_range (forecast_held f.now) (state_viewed s.now) }
{
    let kn = table_words(f.boxes, f.offers);
    let km = table_words(f.boxes, f.grocers);
    all_values(s.known, kn)
        & all_values(s.value_transit, kn)
        & all_sums(s.part, km)
        & all_sums(s.part_transit, km)
        & all_sums(s.held, km)
        & all_sums(s.forecast, usize::from(f.grocers))
        & under16(s.done, marks(f.boxes), 2)
        & upto32(s.sent, 1, MAX_SENT)
}
