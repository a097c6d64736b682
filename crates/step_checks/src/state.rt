// Conditions 20 and 21 on the tables of a state, but for the packed totals.
ghost use Rattle.std.specs.Prelude.{◌≡◌, false, List, [], ℤ};
ghost use Rattle.model.specs.Tables.{state_tables, state_lengths, state_short};
ghost use Rattle.model.specs.Ranges.{state_in_range};
ghost use Rattle.job_checks.specs.Sizes.{sizes};

use job_ranges::{under16, upto32};
use slices::bits::marks;
use slices::limits::{MAX_PRICE, MAX_SENT};
use slices::lists::{box_words, list_words};
use slices::sizes::Sizes;
use step_packed::in_range::around64;
use tables::StateView;

// 20: whether a table of the state but the packed totals is shorter than K, M, N and the number of lists as given need.
pub fn state_short(z: Sizes, state: &StateView) -> bool
    ensures { (working totals : List ℤ) → result ≡ state_short (sizes z.boxes z.grocers z.offers z.lists)
        (state_lengths (state_tables state.now.known.now state.now.price_transit.now working totals state.now.statement.now
        state.now.done.now state.now.sent.now)) }
{
    let kn = box_words(z.boxes, z.lists, z.offers);
    let m = list_words(z.lists, z.grocers);
    let kk = marks(z.boxes);
    (state.known.len() < kn)
        | (state.price_transit.len() < kn)
        | (state.statement.len() < m)
        | (state.done.len() < kk)
        | (state.sent.len() < 1)
}

// 21: whether every word of the state's tables but the packed totals is in range.
pub fn state_in_range(z: Sizes, state: &StateView) -> bool
    requires { state_short (sizes z.boxes z.grocers z.offers z.lists)
        (state_lengths (state_tables state.now.known.now state.now.price_transit.now [] [] state.now.statement.now
        state.now.done.now state.now.sent.now)) ≡ false }
    ensures { (working totals : List ℤ) → result ≡ state_in_range (sizes z.boxes z.grocers z.offers z.lists)
        (state_tables state.now.known.now state.now.price_transit.now working totals state.now.statement.now state.now.done.now
        state.now.sent.now) }
{
    let kn = box_words(z.boxes, z.lists, z.offers);
    let m = list_words(z.lists, z.grocers);
    let kk = marks(z.boxes);
    upto32(state.known, kn, MAX_PRICE)
        & upto32(state.price_transit, kn, MAX_PRICE)
        & around64(state.statement, m)
        & under16(state.done, kk, 2)
        & upto32(state.sent, 1, MAX_SENT)
}
