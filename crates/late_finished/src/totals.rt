// Packed totals and statements, as a finished run leaves them: the plain sum of every grocer, on each price list. The boxes of the job's tallies
// are those of the tallies that stand.
ghost use Rattle.std.specs.Prelude.{◌≡◌, cond, ◌&&◌, suc, ◌+◌, ◌*◌, ◌≤◌, ◌<◌, ltb, pos, nat_abs, ◌+ℤ◌, ◌*ℤ◌, get_or, length, set};
ghost use Rattle.laws.specs.Tables.{tabulate};
ghost use Rattle.late_finished.specs.Tests.{no_amounts, sum_by, right_amounts, right_statements, TallyLent, ListLent, SumsLent};

use slices::amounts::{amount, raise_at};
use slices::limits::GROCERS;
use slices::lists::width_of;
use slices::{i32_at, i64_at, index_at, u16_at, u32_at};
use tables::{Job, StateView};

// Whether the first n amounts are 0.
fn no_amounts(s: &[i64], n: usize) -> bool
    requires { n ≤ length s.now }
    ensures { result ≡ no_amounts n s.now }
{
    let mut all = true;
    for i in 0..n {
        all = all & (s[i] == 0);
    }
    all
}

// Adds count × price of tally i to the sum of its grocer, where a box below k holds it, at the prices from a place on.
fn take_tally(job: &Job, i: usize, at: usize, sums: &mut [i64])
    requires tally_lent { TallyLent job.now.tally_box.now job.now.tally_grocer.now job.now.tally_offer.now job.now.tally_count.now
        job.now.price.now at i }
    requires i_in_bounds { (get_or job.now.tally_grocer.now i 0 < length sums.old) ×
        (nat_abs (get_or sums.old (get_or job.now.tally_grocer.now i 0) (pos 0)) ≤ 2_000_000_000_000_000) }
    ensures { sums.new ≡ cond (ltb (get_or job.now.tally_box.now i 0) job.now.sizes.boxes) (set sums.old (get_or job.now.tally_grocer.now i 0)
        (get_or sums.old (get_or job.now.tally_grocer.now i 0) (pos 0) +ℤ (get_or job.now.tally_count.now i (pos 0) *ℤ
        pos (get_or job.now.price.now (at + get_or job.now.tally_offer.now i 0) 0)))) sums.old }
{
    if u16_at(job.tally_box, i) < job.sizes.boxes {
        let x = amount(
            i32_at(job.tally_count, i),
            u32_at(job.price, at + index_at(job.tally_offer, i)),
        );
        raise_at(sums, index_at(job.tally_grocer, i), x);
    }
}

// The plain sums of all grocers, at the prices from a place on: each tally that a box below K holds is looked at once.
fn plain_sums(job: &Job, at: usize) -> [i64; GROCERS]
    requires { ListLent job.now.sizes.tallies job.now.sizes.offers job.now.tally_box.now job.now.tally_grocer.now job.now.tally_offer.now
        job.now.tally_count.now job.now.price.now at }
    ensures { result ≡ tabulate 255 (sum_by job.now.sizes.boxes job.now.sizes.tallies job.now.tally_box.now job.now.tally_grocer.now
        job.now.tally_offer.now job.now.tally_count.now job.now.price.now at) }
{
    let mut sums = [0i64; GROCERS];
    for i in 0..usize::from(job.sizes.tallies) {
        take_tally(job, i, at, &mut sums);
    }
    sums
}

// Whether the statements on list q are these sums.
fn right_amounts(m: usize, width: usize, q: usize, statement: &[i64], sums: &[i64; GROCERS]) -> bool
    requires { (m ≤ 255) × (width ≤ 8) × (q < width) × (m * width ≤ length statement.now) }
    ensures { result ≡ right_amounts m width q statement.now (λ g. get_or sums.now g (pos 0)) }
{
    let mut all = true;
    for g in 0..m {
        all = all & (i64_at(statement, g * width + q) == i64_at(sums, g));
    }
    all
}

// Whether the statements on every list are the plain sums.
fn right_statements(job: &Job, statement: &[i64]) -> bool
    requires { SumsLent job.now.sizes.grocers job.now.sizes.offers job.now.sizes.tallies job.now.sizes.lists job.now.tally_box.now
        job.now.tally_grocer.now job.now.tally_offer.now job.now.tally_count.now job.now.price.now statement.now }
    ensures { result ≡ right_statements job.now.sizes.boxes job.now.sizes.grocers job.now.sizes.offers job.now.sizes.tallies
        (suc job.now.sizes.lists) job.now.tally_box.now job.now.tally_grocer.now job.now.tally_offer.now job.now.tally_count.now
        job.now.price.now statement.now }
{
    let width = width_of(job.sizes.lists);
    let m = usize::from(job.sizes.grocers);
    let n = usize::from(job.sizes.offers);
    let mut all = true;
    for q in 0..width {
        let sums = plain_sums(job, q * n);
        all = all & right_amounts(m, width, q, statement, &sums);
    }
    all
}

// Whether working totals, totals in transit and statements are those of a finished run, of the tallies that boxes below K hold. The packed tables
// have so many words.
pub fn totals_finished(job: &Job, words: usize, state: &StateView) -> bool
    requires sums_lent { SumsLent job.now.sizes.grocers job.now.sizes.offers job.now.sizes.tallies job.now.sizes.lists job.now.tally_box.now
        job.now.tally_grocer.now job.now.tally_offer.now job.now.tally_count.now job.now.price.now state.now.statement.now }
    requires words_in_bounds { (words ≤ length state.now.working.now) × (words ≤ length state.now.total_transit.now) }
    ensures { result ≡ (no_amounts words state.now.working.now && no_amounts words state.now.total_transit.now
        && right_statements job.now.sizes.boxes job.now.sizes.grocers job.now.sizes.offers job.now.sizes.tallies (suc job.now.sizes.lists)
        job.now.tally_box.now job.now.tally_grocer.now job.now.tally_offer.now job.now.tally_count.now job.now.price.now
        state.now.statement.now) }
{
    no_amounts(state.working, words)
        & no_amounts(state.total_transit, words)
        & right_statements(job, state.statement)
}
