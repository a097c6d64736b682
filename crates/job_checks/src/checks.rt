// Conditions 20, 21 and 9 on the tables of a job.
ghost use Rattle.std.specs.Prelude.{◌≡◌, false, ◌||◌, [], ◌≤◌, ltb, length, OnOk};
ghost use Rattle.laws.specs.Checks.{first_met};
ghost use Rattle.refusals.specs.Numbers.{number};
ghost use Rattle.model.specs.Tables.{job_tables, job_lengths, job_short, bags_short};
ghost use Rattle.model.specs.Ranges.{sizes_in_range, job_in_range};
ghost use Rattle.model.specs.Handed.{Standing};
ghost use Rattle.model.specs.Local.{job_refusals};
ghost use Rattle.tables.specs.Lent.{job_held};

use bag_standing::{Counts, standing_boxes};
use job_ranges::{around32, under16, upto32};
use refusals::Refusal;
use slices::limits::{MAX_BOXES, MAX_GROCERS, MAX_LISTS, MAX_OFFERS, MAX_PRICE, MAX_TALLIES};
use slices::lists::list_words;
use slices::sizes::Sizes;
use tables::Job;

// 20: whether a table of the job but bags and revisions is shorter than M, N, T and the number of lists as given need.
pub fn job_short(job: &Job) -> bool
    ensures { result ≡ job_short (job_held job.now) (job_lengths (job_held job.now)) }
{
    let z = job.sizes;
    let m = z.grocers as usize;
    let n = z.offers as usize;
    let t = z.tallies as usize;
    (job.price.len() < list_words(z.lists, z.offers))
        | (job.offer_owner.len() < n)
        | (job.grocer_owner.len() < m)
        | (job.tally_grocer.len() < t)
        | (job.tally_box.len() < t)
        | (job.tally_offer.len() < t)
        | (job.tally_count.len() < t)
}

// 20: whether the bags or the revisions are fewer than T as given.
pub fn bags_short(job: &Job) -> bool
    ensures { result ≡ bags_short (job_held job.now) (job_lengths (job_held job.now)) }
{
    let t = job.sizes.tallies as usize;
    (job.tally_bag.len() < t) | (job.tally_revision.len() < t)
}

// 21: whether K, M, N, T and the number of lists are in range.
pub fn sizes_in_range(z: Sizes) -> bool
    ensures { result ≡ sizes_in_range (job_tables z.boxes z.grocers z.offers z.tallies z.lists [] [] [] [] [] [] []) }
{
    (z.lists <= MAX_LISTS)
        & ((1 <= z.boxes) & (z.boxes <= MAX_BOXES))
        & ((1 <= z.grocers) & (z.grocers <= MAX_GROCERS))
        & ((1 <= z.offers) & (z.offers <= MAX_OFFERS))
        & (z.tallies <= MAX_TALLIES)
}

// 21: whether K, M, N, T, the number of lists and every word of the job's tables are in range.
pub fn job_in_range(job: &Job) -> bool
    requires { job_short (job_held job.now) (job_lengths (job_held job.now)) ≡ false }
    ensures { result ≡ job_in_range (job_held job.now) }
{
    let z = job.sizes;
    let m = z.grocers as usize;
    let n = z.offers as usize;
    let t = z.tallies as usize;
    sizes_in_range(z)
        & (upto32(job.price, list_words(z.lists, z.offers), MAX_PRICE)
            & under16(job.offer_owner, n, z.boxes)
            & under16(job.grocer_owner, m, z.boxes)
            & under16(job.tally_grocer, t, z.grocers)
            & under16(job.tally_box, t, z.boxes)
            & under16(job.tally_offer, t, z.offers)
            & around32(job.tally_count, t))
}

// Refuses the job under the first condition that its tables meet, 20, 21 or 9. Where none is met, `standing` has the box of each tally that stands,
// and 16 for the others.
pub fn job_refusal(job: &Job, standing: &mut [u16]) -> Result<(), Refusal>
    requires { 1000 ≤ length standing.old }
    ensures value { number result ≡ first_met (job_refusals (job_held job.now)) }
    ensures standing { OnOk result (Standing (job_held job.now) standing.new) }
{
    if job_short(job) | bags_short(job) {
        return Err(Refusal::LentShort);
    }
    if !job_in_range(job) {
        return Err(Refusal::OutOfRange);
    }
    let counts = Counts {
        count: job.sizes.tallies as usize,
        grocer: job.tally_grocer,
        offer: job.tally_offer,
        bag: job.tally_bag,
        revision: job.tally_revision,
    };
    if standing_boxes(&counts, job.tally_box, standing) {
        return Err(Refusal::CountedTwice);
    }
    Ok(())
}
