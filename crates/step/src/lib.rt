// The step: one request on the lent tables.
#![tactic(auto)]

ghost use Rattle.std.specs.Prelude.{◌≡◌, Bool, ℕ, suc, ◌≤◌};
ghost use Rattle.laws.specs.Listed.{Listed};
ghost use Rattle.model.specs.Step.{asked, outcome, stepped};
ghost use Rattle.tables.specs.Lent.{job_held, state_held, SameSlices};
ghost use Rattle.step_totals.specs.Row.{tallies};
ghost use Rattle.step_apply.specs.Apply.{PriceStepOut};
ghost use Rattle.step_apply.specs.Kept.{TotalsKept};
ghost use Rattle.step.specs.Answer.{answer_of};
ghost use Rattle.step.specs.Lent.{PricesLent};

use book_places::{Span, TOTALS};
use refusals::Refusal;
use slices::limits::{OFFERS, TALLIES};
use slices::lists::width_of;
use step_apply::{price_step, total_step};
use step_links::{TALLY_LINKS, link_pairs};
use step_places::Step;
use step_refusal::{price_refusal, total_refusal};
use step_rules::marks::mark;
use step_sent::raise;
use tables::{Job, State, view};

// A step of kind 1, 2 or 3, on the offers listed: tallies are linked by the box that counts them, which `job` has in place of theirs and is 16 for
// superseded ones, and the owner of their offer, and the step is applied. The words sent.
fn move_prices(
    job: &Job,
    span: Span,
    offers: &[u16],
    tally_place: &[u16; TALLIES],
    state: &mut State,
    x: Step,
) -> u32
    requires { PricesLent (tallies job.now.sizes.boxes job.now.sizes.offers job.now.sizes.tallies job.now.offer_owner.now tally_place.now
        job.now.tally_box.now job.now.tally_offer.now job.now.tally_count.now) (suc job.now.sizes.lists) span.from span.to offers.now
        state.old.known.now state.old.price_transit.now state.old.working.now x.kind x.first x.second }
    ensures moved { (passes : ℕ → Bool) → ((x.kind ≡ 2 → ⊥) → Listed job.now.sizes.offers passes span.from span.to offers.now) →
        PriceStepOut (tallies job.now.sizes.boxes job.now.sizes.offers job.now.sizes.tallies job.now.offer_owner.now tally_place.now
        job.now.tally_box.now job.now.tally_offer.now job.now.tally_count.now) (suc job.now.sizes.lists) span.from span.to passes
        state.old.known.now state.old.price_transit.now state.old.working.now x.kind x.first x.second
        state.new.known.now state.new.price_transit.now state.new.working.now result }
    ensures kept { TotalsKept state.old state.new }
    ensures same_slices { SameSlices state.old state.new }
{
    let mut links = [0u16; TALLY_LINKS];
    let t = usize::from(job.sizes.tallies);
    link_pairs(
        t,
        job.tally_box,
        job.tally_offer,
        job.offer_owner,
        &mut links,
    );
    // The links tell the box and the owner: the walk over them is lent neither list.
    let linked = Job {
        tally_box: &[],
        offer_owner: &[],
        ..*job
    };
    price_step(
        &linked,
        span.from,
        span.to,
        offers,
        tally_place,
        &links,
        state,
        x,
    )
}

// A request of kind 1, 2 or 3, on the side of prices.
fn step_of_prices(job: &Job, state: &mut State, x: Step) -> Result<(), Refusal>
    requires { x.kind ≤ 3 }
    ensures outcome { outcome (answer_of result) (state_held state.new) ≡
        stepped (job_held job.now) (state_held state.old) (asked x.kind x.first x.second) }
    ensures same_slices { SameSlices state.old state.new }
{
    let mut standing = [0u16; TALLIES];
    let mut offers = [0u16; OFFERS];
    let mut places = [0u16; TALLIES];
    let span = price_refusal(
        job,
        &view(state),
        &mut offers,
        &mut places,
        &mut standing,
        x,
    )?;
    mark(job.sizes.boxes, x.kind, x.first, x.second, state.done);
    let counted = Job {
        tally_box: &standing,
        tally_bag: &[],
        tally_revision: &[],
        ..*job
    };
    let more = move_prices(&counted, span, &offers, &places, state, x);
    raise(state.sent, more);
    Ok(())
}

// A request of another kind, on the side of totals.
fn step_of_totals(job: &Job, state: &mut State, x: Step) -> Result<(), Refusal>
    requires { 4 ≤ x.kind }
    ensures outcome { outcome (answer_of result) (state_held state.new) ≡
        stepped (job_held job.now) (state_held state.old) (asked x.kind x.first x.second) }
    ensures same_slices { SameSlices state.old state.new }
{
    let mut standing = [0u16; TALLIES];
    let mut grocers = [0u16; TOTALS];
    let span = total_refusal(job, &view(state), &mut grocers, &mut standing, x)?;
    mark(job.sizes.boxes, x.kind, x.first, x.second, state.done);
    let width = width_of(job.sizes.lists);
    let more = total_step(x.kind, span.from, span.to, width, &grocers, state);
    raise(state.sent, more);
    Ok(())
}

// One step request. The job's sizes and the three numbers of the request may be anything, and so may every lent word. The tables of the state are
// left as the step's line says, or, where it is refused, as they were.
pub fn step(job: &Job, state: &mut State, request: Step) -> Result<(), Refusal>
    ensures outcome { outcome (answer_of result) (state_held state.new) ≡
        stepped (job_held job.now) (state_held state.old) (asked request.kind request.first request.second) }
    ensures same_slices { SameSlices state.old state.new }
{
    if request.kind <= 3 {
        return step_of_prices(job, state, request);
    }
    step_of_totals(job, state, request)
}
