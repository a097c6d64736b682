// A box's own words of packed totals as multiplying would leave them, told before anything is written.
#![tactic(auto)]

ghost use Rattle.std.specs.Prelude.{◌≡◌, true, ◌+◌, ◌-◌, ◌*◌, ◌≤◌, ◌<◌, length, get_or, pos, nat_abs};
ghost use Rattle.step_totals.specs.Row.{TallyIn, is_taken, product_at, brings, placed};
ghost use Rattle.step_row.specs.Row.{row_of, rows_fit, raised_at, RowIn};

use slices::amounts::{amount, raise_at, row_start};
use slices::limits::GROCERS;
use slices::{i32_at, index_at, u16_at, u32_at};
use step_packed::in_range::around64;
use tables::Job;

// The words of a box on list q, so many from a place on, of so many words a place. One index tells the word's place in both tables.
fn row_at(start: usize, len: usize, width: usize, q: usize, working: &[i64]) -> [i64; GROCERS]
    requires { (len ≤ 255) × ((start + len) * width ≤ length working.now) × (q < width) }
    ensures { result ≡ row_of start len width q working.now }
{
    let mut row = [0i64; GROCERS];
    for g in 0..len {
        let i = (start + g) * width + q;
        row[g] = working[i];
    }
    row
}

// Whether box a holds tally i, and box `from` owns its offer.
fn is_taken(job: &Job, a: u16, from: u16, i: usize) -> bool
    requires { (i < length job.now.tally_box.now) × (i < length job.now.tally_offer.now) ×
        (get_or job.now.tally_offer.now i 0 < length job.now.offer_owner.now) }
    ensures { result ≡ is_taken job.now.offer_owner.now job.now.tally_box.now job.now.tally_offer.now a from i }
{
    let o = index_at(job.tally_offer, i);
    (u16_at(job.tally_box, i) == a) & (u16_at(job.offer_owner, o) == from)
}

// The words of a box on each price list: so many places from one on, of so many words a place.
#[derive(Clone, Copy)]
pub struct Part {
    pub start: usize,
    pub len: usize,
    pub width: usize,
}

// Adds count × price of tally i on list q to a row of the list's totals, whose first word has the place where the part starts.
fn add_one(
    job: &Job,
    part: Part,
    at: usize,
    q: usize,
    i: usize,
    tally_place: &[u16],
    prices: &[u32],
    row: &mut [i64],
)
    requires tally_in { TallyIn part.width tally_place.now job.now.tally_offer.now job.now.tally_count.now prices.now at i × (q < part.width) }
    requires start_bound { (part.start ≤ get_or tally_place.now i 0) × (get_or tally_place.now i 0 - part.start < length row.old) ×
        (nat_abs (get_or row.old (get_or tally_place.now i 0 - part.start) (pos 0)) ≤ 2_000_000_000_000_000) }
    ensures { row.new ≡ raised_at row.old (get_or tally_place.now i 0 - part.start)
        (product_at job.now.tally_offer.now job.now.tally_count.now prices.now at part.width q i) }
{
    let p = at + index_at(job.tally_offer, i) * part.width + q;
    let x = amount(i32_at(job.tally_count, i), u32_at(prices, p));
    let g = index_at(tally_place, i) - part.start;
    raise_at(row, g, x);
}

// Adds what tally i brings to the row of box a on list q, at the place of its total: count × price where the tally is taken, else nothing.
fn add_taken(
    job: &Job,
    part: Part,
    at: usize,
    q: usize,
    a: u16,
    from: u16,
    i: usize,
    tally_place: &[u16],
    prices: &[u32],
    row: &mut [i64],
)
    requires tally_in { TallyIn part.width tally_place.now job.now.tally_offer.now job.now.tally_count.now prices.now at i × (q < part.width) }
    requires i_in_bounds { (i < length job.now.tally_box.now) × (get_or job.now.tally_offer.now i 0 < length job.now.offer_owner.now) }
    requires start_bound { is_taken job.now.offer_owner.now job.now.tally_box.now job.now.tally_offer.now a from i ≡ true →
        (part.start ≤ get_or tally_place.now i 0) × (get_or tally_place.now i 0 - part.start < length row.old) ×
        (nat_abs (get_or row.old (get_or tally_place.now i 0 - part.start) (pos 0)) ≤ 2_000_000_000_000_000) }
    ensures { row.new ≡ raised_at row.old (get_or tally_place.now i 0 - part.start)
        (brings job.now.offer_owner.now job.now.tally_box.now job.now.tally_offer.now job.now.tally_count.now
        prices.now a from at part.width q i) }
{
    if is_taken(job, a, from, i) {
        add_one(job, part, at, q, i, tally_place, prices, row);
    }
}

// The words of box a on list q, after multiplying its tallies whose offers box `from` owns, at the prices of row a. `tally_place` has
// the places of these tallies' totals in the packed table; of other tallies it may have anything.
fn product_row(
    job: &Job,
    part: Part,
    q: usize,
    a: u16,
    from: u16,
    tally_place: &[u16],
    prices: &[u32],
    working: &[i64],
) -> [i64; GROCERS]
    requires { RowIn part.start part.len part.width job.now.sizes.offers job.now.sizes.tallies a from job.now.offer_owner.now
        tally_place.now job.now.tally_box.now job.now.tally_offer.now job.now.tally_count.now prices.now working.now × (q < part.width) }
    ensures { result ≡ row_of part.start part.len part.width q (placed job.now.sizes.tallies part.width tally_place.now
        (brings job.now.offer_owner.now job.now.tally_box.now job.now.tally_offer.now job.now.tally_count.now prices.now
        a from (a * (job.now.sizes.offers * part.width)) part.width) working.now) }
{
    let mut row = row_at(part.start, part.len, part.width, q, working);
    let n = usize::from(job.sizes.offers);
    let t = usize::from(job.sizes.tallies);
    let at = row_start(n * part.width, a);
    for i in 0..t {
        add_taken(job, part, at, q, a, from, i, tally_place, prices, &mut row);
    }
    row
}

// Steps 2 and 3: whether the working totals of box a, a part of the packed words, stay in range on each price list with its tallies of offers
// of box `from`.
pub fn products_fit(
    job: &Job,
    part: Part,
    a: u16,
    from: u16,
    tally_place: &[u16],
    prices: &[u32],
    working: &[i64],
) -> bool
    requires { RowIn part.start part.len part.width job.now.sizes.offers job.now.sizes.tallies a from job.now.offer_owner.now
        tally_place.now job.now.tally_box.now job.now.tally_offer.now job.now.tally_count.now prices.now working.now }
    ensures { result ≡ rows_fit part.start part.len part.width (placed job.now.sizes.tallies part.width tally_place.now
        (brings job.now.offer_owner.now job.now.tally_box.now job.now.tally_offer.now job.now.tally_count.now prices.now
        a from (a * (job.now.sizes.offers * part.width)) part.width) working.now) }
{
    for q in 0..part.width {
        let row = product_row(job, part, q, a, from, tally_place, prices, working);
        if !around64(&row, part.len) {
            return false;
        }
    }
    true
}
