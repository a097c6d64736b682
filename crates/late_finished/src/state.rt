// What the calls of late bags ask of the state once 20, 21 and 9 are not met on all else: 20 and 21 of the packed totals, and 30.
ghost use Rattle.std.specs.Prelude.{◌≡◌, List, ℕ, suc, ◌*◌, ◌≤◌};
ghost use Rattle.laws.specs.Checks.{first_met};
ghost use Rattle.refusals.specs.Numbers.{number};
ghost use Rattle.model.specs.Tables.{bag_tables};
ghost use Rattle.tables.specs.Lent.{state_viewed};
ghost use Rattle.step_links.specs.Links.{Some};
ghost use Rattle.book_places.specs.Spots.{CountIn, start_by};
ghost use Rattle.late_finished.specs.Present.{PresentState, packed_rules, state_rules};

use crate::marks::marks_finished;
use crate::prices::prices_finished;
use crate::totals::totals_finished;
use refusals::Refusal;
use slices::limits::{GROCERS, TALLIES};
use slices::lists::{width_of, words_at};
use slices::sizes::Sizes;
use step_packed::packed_refusal;
use tables::{Job, StateView};

// The packed length: a word for each box and grocer that have a total, on every list.
fn packed_length(z: Sizes, grocer_owner: &[u16], sharers: &[u16; GROCERS]) -> usize
    requires { CountIn z.grocers grocer_owner.now sharers.now × ((z.boxes ≤ 16) × (z.lists ≤ 7)) }
    ensures { result ≡ start_by z.grocers grocer_owner.now sharers.now z.boxes * suc z.lists }
{
    let m = usize::from(z.grocers);
    let places = book_places::box_start(m, grocer_owner, sharers, z.boxes);
    words_at(usize::from(places), width_of(z.lists))
}

// 20 by the longer of both packed lengths, the job's own and that of the edited job, and 21 within the job's own.
fn totals_refusal(
    own: usize,
    edited: usize,
    working: &[i64],
    total_transit: &[i64],
) -> Result<(), Refusal>
    ensures { number result ≡ first_met (packed_rules own edited working.now total_transit.now) }
{
    if (working.len() < edited) | (total_transit.len() < edited) {
        return Err(Refusal::LentShort);
    }
    packed_refusal(own, working, total_transit)
}

// The first of the conditions 20 and 21 of the packed tables, and 30, that is met. `standing` has the box of each tally that stands. The edited
// job needs so many words of each packed table, 0 where 31 or 32 is met.
pub fn state_refusal(
    job: &Job,
    standing: &[u16; TALLIES],
    edited: usize,
    state: &StateView,
) -> Result<(), Refusal>
    requires { Some (λ holder. Some (λ bag. Some (λ revision. PresentState (bag_tables job.now.sizes.boxes job.now.sizes.grocers job.now.sizes.offers
        job.now.sizes.tallies job.now.sizes.lists job.now.price.now job.now.offer_owner.now job.now.grocer_owner.now job.now.tally_grocer.now
        holder job.now.tally_offer.now job.now.tally_count.now bag revision) (state_viewed state.now) standing.now))) }
    ensures { (holder bag revision : List ℕ) → PresentState (bag_tables job.now.sizes.boxes job.now.sizes.grocers job.now.sizes.offers
        job.now.sizes.tallies job.now.sizes.lists job.now.price.now job.now.offer_owner.now job.now.grocer_owner.now job.now.tally_grocer.now
        holder job.now.tally_offer.now job.now.tally_count.now bag revision) (state_viewed state.now) standing.now →
        number result ≡ first_met (state_rules (bag_tables job.now.sizes.boxes job.now.sizes.grocers job.now.sizes.offers
        job.now.sizes.tallies job.now.sizes.lists job.now.price.now job.now.offer_owner.now job.now.grocer_owner.now job.now.tally_grocer.now
        holder job.now.tally_offer.now job.now.tally_count.now bag revision) edited (state_viewed state.now)) }
{
    let z = job.sizes;
    let sharers = job_masks::masks::sharers(z.boxes, z.tallies, standing, job.tally_grocer);
    let own = packed_length(z, job.grocer_owner, &sharers);
    totals_refusal(own, edited, state.working, state.total_transit)?;
    let needs = job_masks::masks::needs(z.boxes, z.tallies, standing, job.tally_offer);
    let held = Job {
        tally_box: standing,
        ..*job
    };
    let prices = prices_finished(job, &needs, state);
    let totals = totals_finished(&held, own, state);
    let marks = marks_finished(job, &needs, &sharers, state);
    if prices & totals & marks {
        return Ok(());
    }
    Err(Refusal::NotFinished)
}
