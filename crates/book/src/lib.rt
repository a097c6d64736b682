// The local matrix of a box: its offers, its grocers, and its tallies packed by offer.
#![tactic(auto)]

ghost use Rattle.std.specs.Prelude.{◌≡◌, ◌≤◌, length, OnOk};
ghost use Rattle.laws.specs.Checks.{first_met};
ghost use Rattle.refusals.specs.Numbers.{number};
ghost use Rattle.model.specs.Handed.{Standing};
ghost use Rattle.model.specs.Local.{BookLengths, book_short, book_refusals};
ghost use Rattle.tables.specs.Lent.{job_held};
ghost use Rattle.book.specs.Book.{book_before, book_after, lengths, book_sizes, said, given, booked};

mod lists;
mod pack;

use crate::lists::list;
use crate::pack::pack;
use book_order::BoxLists;
use job_checks::checks::job_refusal;
use refusals::Refusal;
use slices::limits::TALLIES;
use slices::sizes::Sizes;
use tables::Job;

// How many local offers, local grocers and tallies a box has.
#[derive(Clone, Copy)]
pub struct BookSizes {
    pub offers: u16,
    pub grocers: u16,
    pub tallies: u16,
}

// 20: whether a table of the book is shorter than M, N and T as given need.
fn book_short(
    z: Sizes,
    local_offers: usize,
    local_grocers: usize,
    starts: usize,
    packed_grocers: usize,
    packed_counts: usize,
) -> bool
    ensures { result ≡ book_short (book_sizes z.grocers z.offers z.tallies)
        (lengths local_offers local_grocers starts packed_grocers packed_counts) }
{
    let m = usize::from(z.grocers);
    let n = usize::from(z.offers);
    let t = usize::from(z.tallies);
    (local_offers < n)
        | (local_grocers < m)
        | (starts < n + 1)
        | (packed_grocers < t)
        | (packed_counts < t)
}

// The first condition that is met, 20, 21, 9 or 23, if one is: `short` says whether a table of the book is short. Where none is met, `standing` has
// the box of each tally that stands.
fn refusal(job: &Job, b: u16, short: bool, standing: &mut [u16]) -> Result<(), Refusal>
    requires { 1000 ≤ length standing.old }
    ensures value { (n : BookLengths) → short ≡ book_short (job_held job.now) n →
        number result ≡ first_met (book_refusals (job_held job.now) n b) }
    ensures standing { OnOk result (Standing (job_held job.now) standing.new) }
{
    if short {
        return Err(Refusal::LentShort);
    }
    job_refusal(job, standing)?;
    if b >= job.sizes.boxes {
        return Err(Refusal::NoSuchBoxes);
    }
    Ok(())
}

// The local book of box b, written into the five tables lent; or 20, 21, 9 or 23, and no lent word is changed. The five are no struct: the check
// covers no call that is lent one slice of a struct to write beside another to read.
pub fn book(
    job: &Job,
    b: u16,
    local_offers: &mut [u16],
    local_grocers: &mut [u16],
    starts: &mut [u16],
    packed_grocers: &mut [u16],
    packed_counts: &mut [i32],
) -> Result<BookSizes, Refusal>
    ensures { given (said result) (book_after local_offers local_grocers starts packed_grocers packed_counts) ≡ booked
        (job_held job.now) b (book_before local_offers local_grocers starts packed_grocers packed_counts) }
{
    let short = book_short(
        job.sizes,
        local_offers.len(),
        local_grocers.len(),
        starts.len(),
        packed_grocers.len(),
        packed_counts.len(),
    );
    let mut standing = [0u16; TALLIES];
    refusal(job, b, short, &mut standing)?;
    let held = Job {
        tally_box: &standing,
        tally_bag: &[],
        tally_revision: &[],
        ..*job
    };
    let z = job.sizes;
    let l = list(
        &held,
        job.offer_owner,
        z.offers,
        job.tally_offer,
        b,
        local_offers,
    );
    let g = list(
        &held,
        job.grocer_owner,
        z.grocers,
        job.tally_grocer,
        b,
        local_grocers,
    );
    let lists = BoxLists {
        b: b,
        local_offers: local_offers,
        l: l,
        local_grocers: local_grocers,
        g: g,
    };
    let n = pack(&held, &lists, starts, packed_grocers, packed_counts);
    Ok(BookSizes {
        offers: l,
        grocers: g,
        tallies: n,
    })
}
