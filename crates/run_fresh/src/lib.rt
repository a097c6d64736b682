// The tables of a fresh state, written into the lent ones.
#![tactic(auto)]

ghost use Rattle.std.specs.Prelude.{◌≡◌, cond, ℕ, suc, ◌+◌, ◌-◌, ◌*◌, ◌≤◌, ◌<◌, pos, length, get_or};
ghost use Rattle.laws.specs.Tables.{overwrite};
ghost use Rattle.model.specs.Spans.{in_span};
ghost use Rattle.run_fresh.specs.Fresh.{own_prices, FreshPrices, FreshTotals};

use slices::lists::{width_of, words_at};
use tables::Job;

// The place of a box's word for offer o.
fn place(n: usize, owner: u16, o: usize) -> usize
    requires { (n ≤ 500) × ((owner < 16) × (o < n)) }
    ensures { result ≡ owner * n + o }
{
    usize::from(owner) * n + o
}

// Writes the prices of offer o, one for each price list, side by side from a place on.
fn put_prices(known: &mut [u32], at: usize, price: &[u32], n: usize, o: usize, width: usize)
    requires n_bound { (n ≤ 500) × ((o < n) × (width ≤ 8)) }
    requires width_in_bounds { (at + width ≤ length known.old) × (width * n ≤ length price.now) }
    ensures { (k : ℕ) → get_or known.new k 0 ≡ cond (in_span at (at + width) k) (get_or price.now ((k - at) * n + o) 0)
        (get_or known.old k 0) }
{
    for q in 0..width {
        known[at + q] = slices::u32_at(price, q * n + o);
    }
}

// The price tables of a fresh state, whatever they held before: every owner knows the prices of its own offers, and none is in transit.
pub fn fresh_prices(job: &Job, known: &mut [u32], price_transit: &mut [u32])
    requires { FreshPrices job.now.sizes.boxes job.now.sizes.offers job.now.sizes.lists job.now.price.now
        job.now.offer_owner.now known.old price_transit.old }
    ensures { (known.new ≡ own_prices job.now.sizes.boxes job.now.sizes.offers job.now.sizes.lists job.now.price.now
        job.now.offer_owner.now known.old) × (price_transit.new ≡ overwrite (job.now.sizes.boxes *
        (job.now.sizes.offers * suc job.now.sizes.lists)) (λ i. 0) price_transit.old) }
{
    let z = job.sizes;
    let n = usize::from(z.offers);
    let width = width_of(z.lists);
    let words = usize::from(z.boxes) * words_at(n, width);
    price_transit[..words].fill(0);
    known[..words].fill(0);
    for o in 0..n {
        let at = words_at(place(n, slices::u16_at(job.offer_owner, o), o), width);
        put_prices(known, at, job.price, n, o, width);
    }
}

// The tables of totals of a fresh state, whatever they held before: the words of the packed tables and the statements are 0.
pub fn fresh_totals(
    words: usize,
    statements: usize,
    working: &mut [i64],
    total_transit: &mut [i64],
    statement: &mut [i64],
)
    requires { FreshTotals words statements working.old total_transit.old statement.old }
    ensures { (working.new ≡ overwrite words (λ i. pos 0) working.old) ×
        (total_transit.new ≡ overwrite words (λ i. pos 0) total_transit.old) ×
        (statement.new ≡ overwrite statements (λ i. pos 0) statement.old) }
{
    working[..words].fill(0);
    total_transit[..words].fill(0);
    statement[..statements].fill(0);
}
