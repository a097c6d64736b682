// Tallies multiplied into packed totals.
ghost use Rattle.std.specs.Prelude.{◌≡◌, List, ℕ, ◌+◌, ◌*◌, ◌≤◌, ◌<◌, length, get_or, pos, nat_abs, ◌*ℤ◌};
ghost use Rattle.step_links.specs.Links.{Some};
ghost use Rattle.step_totals.specs.Row.{ProductsIn, TallyIn, TalliesLinked, PlacedTallies, raised, product_at, brings, placed};

use crate::walk::{begin_pair, next_pair};
use slices::amounts::{amount, raise_at, row_start};
use slices::{i32_at, index_at, u32_at};
use step_links::TALLY_LINKS;
use tables::Job;

// Adds count × price to the words of place e, one for each price list, at the prices from a place on.
fn add_products(at: usize, e: usize, width: usize, count: i32, prices: &[u32], row: &mut [i64])
    requires { ProductsIn at e width count prices.now row.old }
    ensures { row.new ≡ raised width row.old e (λ q. count *ℤ pos (get_or prices.now (at + q) 0)) }
{
    let g = e * width;
    for q in 0..width {
        let x = amount(count, u32_at(prices, at + q));
        raise_at(row, g + q, x);
    }
}

// Adds count × price of tally i on each price list at the place of its total.
fn add_tally(
    job: &Job,
    at: usize,
    width: usize,
    i: usize,
    tally_place: &[u16],
    prices: &[u32],
    working: &mut [i64],
)
    requires tally_in { TallyIn width tally_place.now job.now.tally_offer.now job.now.tally_count.now prices.now at i }
    requires by_index { (q : ℕ) → q < width → (get_or tally_place.now i 0 * width + q < length working.old) ×
        (nat_abs (get_or working.old (get_or tally_place.now i 0 * width + q) (pos 0)) ≤ 2_000_000_000_000_000) }
    ensures { working.new ≡ raised width working.old (get_or tally_place.now i 0)
        (λ q. product_at job.now.tally_offer.now job.now.tally_count.now prices.now at width q i) }
{
    let p = at + index_at(job.tally_offer, i) * width;
    let e = index_at(tally_place, i);
    add_products(p, e, width, i32_at(job.tally_count, i), prices, working);
}

// Multiplies the tallies of box a whose offers box `from` owns into the packed working totals, each at the place of its total, on each price list.
// The walk goes by links, not by one index after the other: there is no range to count over.
pub fn add_placed(
    job: &Job,
    width: usize,
    a: u16,
    from: u16,
    links: &[u16; TALLY_LINKS],
    tally_place: &[u16],
    prices: &[u32],
    working: &mut [i64],
)
    requires placed_tallies { PlacedTallies job.now.sizes.offers width job.now.sizes.tallies a tally_place.now job.now.tally_offer.now
        job.now.tally_count.now prices.now working.old }
    requires from_bound { (from < 16) × Some (λ owner. Some (λ holder. TalliesLinked job.now.sizes.tallies owner holder
        job.now.tally_offer.now links.now)) }
    ensures { (owner holder : List ℕ) → TalliesLinked job.now.sizes.tallies owner holder job.now.tally_offer.now links.now →
        working.new ≡ placed job.now.sizes.tallies width tally_place.now (brings owner holder job.now.tally_offer.now
        job.now.tally_count.now prices.now a from (a * (job.now.sizes.offers * width)) width) working.old }
{
    let n = usize::from(job.sizes.offers);
    let t = usize::from(job.sizes.tallies);
    let at = row_start(n * width, a);
    let mut i = begin_pair(a, from, links);
    while i < t {
        add_tally(job, at, width, i, tally_place, prices, working);
        i = next_pair(i, links);
    }
}
