// Known prices and prices in transit, as a finished run leaves them.
ghost use Rattle.std.specs.Prelude.{◌≡◌, cond, ◌&&◌, ◌||◌, suc, ◌+◌, ◌*◌, ◌≤◌, ◌<◌, eqb, get_or, length};
ghost use Rattle.laws.specs.Below.{all};
ghost use Rattle.laws.specs.Masks.{bit};
ghost use Rattle.late_finished.specs.Tests.{no_words, right_words, right_row, right_known, PricesLent};

use slices::amounts::row_start;
use slices::bits::has_bit;
use slices::limits::OFFERS;
use slices::lists::{box_words, width_of, words_at};
use slices::{u16_at, u32_at};
use tables::{Job, StateView};

// Whether the n words from a place on are 0. There is no branch in the loop, so that several words are tested at once.
fn no_words(s: &[u32], at: usize, n: usize) -> bool
    requires { at + n ≤ length s.now }
    ensures { result ≡ no_words at n s.now }
{
    let mut all = true;
    for i in 0..n {
        all = all & (s[at + i] == 0);
    }
    all
}

// Whether the words from a place on are the prices of offer o, one for each list. Prices are lent list after list.
fn same_prices(o: usize, n: usize, width: usize, at: usize, price: &[u32], known: &[u32]) -> bool
    requires o_lt_n { (o < n) × (n ≤ 500) × (width ≤ 8) }
    requires width_in_bounds { (n * width ≤ length price.now) × (at + width ≤ length known.now) }
    ensures { result ≡ all width (λ q. eqb (get_or known.now (at + q) 0) (get_or price.now (q * n + o) 0)) }
{
    let mut all = true;
    for q in 0..width {
        all = all & (u32_at(known, at + q) == u32_at(price, q * n + o));
    }
    all
}

// Whether these words are the prices where the box knows them, else 0.
fn right_words(
    knows: bool,
    o: usize,
    n: usize,
    width: usize,
    at: usize,
    price: &[u32],
    known: &[u32],
) -> bool
    requires o_lt_n { (o < n) × (n ≤ 500) × (width ≤ 8) }
    requires width_in_bounds { (n * width ≤ length price.now) × (at + width ≤ length known.now) }
    ensures { result ≡ right_words knows n width price.now known.now at o }
{
    if knows {
        return same_prices(o, n, width, at, price, known);
    }
    no_words(known, at, width)
}

// Whether box b knows an offer's price in the end, by its owner and its need word.
fn knows(b: u16, owner: u16, need: u16) -> bool
    requires { b < 16 }
    ensures { result ≡ (eqb owner b || bit b need) }
{
    (owner == b) | has_bit(need, b)
}

// Whether row b of the known prices, which begins at a place, is right.
fn right_row(
    b: u16,
    n: usize,
    width: usize,
    at: usize,
    price: &[u32],
    offer_owner: &[u16],
    needs: &[u16],
    known: &[u32],
) -> bool
    requires b_bound { (b < 16) × (n ≤ 500) × (width ≤ 8) × (n ≤ length offer_owner.now) × (n ≤ length needs.now) }
    requires width_in_bounds { (n * width ≤ length price.now) × (at ≡ b * (n * width)) × (at + n * width ≤ length known.now) }
    ensures { result ≡ right_row n width price.now offer_owner.now needs.now known.now b }
{
    let mut all = true;
    for o in 0..n {
        let k = knows(b, u16_at(offer_owner, o), u16_at(needs, o));
        all = all & right_words(k, o, n, width, at + words_at(o, width), price, known);
    }
    all
}

// Whether all rows are.
fn right_known(
    k: u16,
    n: usize,
    width: usize,
    price: &[u32],
    offer_owner: &[u16],
    needs: &[u16],
    known: &[u32],
) -> bool
    requires k_bound { (k ≤ 16) × (n ≤ 500) × (width ≤ 8) × (n ≤ length offer_owner.now) × (n ≤ length needs.now) }
    requires width_in_bounds { (n * width ≤ length price.now) × (k * (n * width) ≤ length known.now) }
    ensures { result ≡ right_known k n width price.now offer_owner.now needs.now known.now }
{
    let m = words_at(n, width);
    let mut all = true;
    for b in 0..k {
        let at = row_start(m, b);
        all = all & right_row(b, n, width, at, price, offer_owner, needs, known);
    }
    all
}

// Whether known prices and prices in transit are those of a finished run, of a job with these need words.
pub fn prices_finished(job: &Job, needs: &[u16; OFFERS], state: &StateView) -> bool
    requires { PricesLent job.now.sizes.boxes job.now.sizes.offers job.now.sizes.lists job.now.price.now job.now.offer_owner.now needs.now
        state.now.known.now state.now.price_transit.now }
    ensures { result ≡ (right_known job.now.sizes.boxes job.now.sizes.offers (suc job.now.sizes.lists) job.now.price.now job.now.offer_owner.now
        needs.now state.now.known.now
        && no_words 0 (job.now.sizes.boxes * (job.now.sizes.offers * suc job.now.sizes.lists)) state.now.price_transit.now) }
{
    let z = job.sizes;
    let n = usize::from(z.offers);
    let width = width_of(z.lists);
    let words = box_words(z.boxes, z.lists, z.offers);
    right_known(
        z.boxes,
        n,
        width,
        job.price,
        job.offer_owner,
        needs,
        state.known,
    ) & no_words(state.price_transit, 0, words)
}
