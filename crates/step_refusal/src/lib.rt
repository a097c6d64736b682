// The refusal of a step: the first condition that is met, for every input.
#![tactic(auto)]

ghost use Rattle.std.specs.Prelude.{◌≡◌, cond, List, [], ℤ, ◌*◌, ◌≤◌, ◌<◌, length, replicate, IfOk};
ghost use Rattle.laws.specs.Checks.{first_met};
ghost use Rattle.laws.specs.Listed.{Listed};
ghost use Rattle.model.specs.Tables.{state_tables, steps_done};
ghost use Rattle.model.specs.Step.{asked, step_refusal};
ghost use Rattle.refusals.specs.Numbers.{number};
ghost use Rattle.tables.specs.Lent.{job_held, state_viewed};
ghost use Rattle.job_masks.specs.Masks.{Owned, by_owner};
ghost use Rattle.step_waits.specs.Waits.{tally_lists, WaitsIn, wait_table};
ghost use Rattle.step_checks.specs.Request.{rules_by};
ghost use Rattle.step_places.specs.Message.{word_in};
ghost use Rattle.book_keys.specs.Keys.{TalliesIn};
ghost use Rattle.book_places.specs.Spots.{BoxIn};
ghost use Rattle.step_refusal.specs.Late.{Early, table_rules, Tested, Decided, OwnPlaces};

use bag_standing::{Counts, standing_boxes};
use book_places::{Span, box_places, box_span, box_start};
use job_checks::checks::{bags_short, job_in_range, job_short};
use job_masks::masks::{by_owner, needs, sharers};
use refusals::Refusal;
use slices::limits::{BOXES, GROCERS, OFFERS, TALLIES};
use slices::lists::{width_of, words_at};
use step_apply::{span_box, span_group};
use step_checks::finish::price_fits;
use step_checks::request::request_refusal;
use step_checks::state::{state_in_range, state_short};
use step_packed::{packed_refusal, total_fits};
use step_places::Step;
use step_prices::list::list_message;
use step_waits::waits;
use tables::{Job, StateView};

// The first of the conditions 20, 21 and 9 that is met on all else than the packed tables. Where none is, `standing` has the box of each
// tally that stands, and 16 for the others.
pub fn early_refusal(
    job: &Job,
    state: &StateView,
    standing: &mut [u16; TALLIES],
) -> Result<(), Refusal>
    ensures { (working totals : List ℤ) → Early (job_held job.now) (state_tables state.now.known.now state.now.price_transit.now
        working totals state.now.statement.now state.now.done.now state.now.sent.now) standing.new (number result) }
{
    if job_short(job) | bags_short(job) | state_short(job.sizes, state) {
        return Err(Refusal::LentShort);
    }
    if !(job_in_range(job) & state_in_range(job.sizes, state)) {
        return Err(Refusal::OutOfRange);
    }
    let counts = Counts {
        count: job.sizes.tallies as usize,
        grocer: job.tally_grocer,
        offer: job.tally_offer,
        bag: job.tally_bag,
        revision: job.tally_revision,
    };
    if standing_boxes(&counts, job.tally_box, standing) {
        return Err(Refusal::CountedTwice);
    }
    Ok(())
}

// The first of the conditions on the tables that is met: 20, 21 and 9, then 20 and 21 on the packed tables. Where none is, the sharer words, and
// `standing` has the box of each tally that stands, and 16 for the others.
fn tables_refusal(
    job: &Job,
    state: &StateView,
    standing: &mut [u16; TALLIES],
) -> Result<[u16; GROCERS], Refusal>
    ensures number_is { number result ≡ first_met (table_rules (job_held job.now) (state_viewed state.now)) }
    ensures tested { IfOk result (λ sharers. Tested (job_held job.now) (state_viewed state.now) standing.new sharers 0) }
{
    early_refusal(job, state, standing)?;
    let z = job.sizes;
    let sharing = sharers(z.boxes, z.tallies, standing, job.tally_grocer);
    let places = box_start(usize::from(z.grocers), job.grocer_owner, &sharing, z.boxes);
    let words = words_at(usize::from(places), width_of(z.lists));
    packed_refusal(words, state.working, state.total_transit)?;
    Ok(sharing)
}

// Kinds 1 to 3: the first of the conditions 22 to 26 that is met, with the need words.
fn prices_asked(job: &Job, needs: &[u16; OFFERS], done: &[u16], x: Step) -> Result<(), Refusal>
    requires owned { Owned job.now.sizes.offers job.now.offer_owner.now needs.now }
    requires boxes_bound { (job.now.sizes.boxes ≤ 16) × (6 * job.now.sizes.boxes * job.now.sizes.boxes ≤ length done.now) }
    ensures { number result ≡ first_met (rules_by job.now.sizes.boxes (by_owner job.now.sizes.offers job.now.offer_owner.now needs.now)
        (replicate 16 (replicate 16 0)) (steps_done job.now.sizes.boxes done.now) (asked x.kind x.first x.second)) }
{
    let to = by_owner(job.sizes.offers, job.offer_owner, needs);
    let row = [0u16; BOXES];
    let none = [row; BOXES];
    request_refusal(job.sizes.boxes, x, &to, &none, done)
}

// Kinds 4 to 6, likewise, with the words of waits.
fn totals_asked(job: &Job, done: &[u16], x: Step) -> Result<(), Refusal>
    requires waits_in { WaitsIn job.now.sizes.boxes job.now.sizes.tallies (tally_lists job.now.offer_owner.now job.now.grocer_owner.now
        job.now.tally_grocer.now job.now.tally_box.now job.now.tally_offer.now) }
    requires boxes_bound { (job.now.sizes.boxes ≤ 16) × (6 * job.now.sizes.boxes * job.now.sizes.boxes ≤ length done.now) }
    ensures { number result ≡ first_met (rules_by job.now.sizes.boxes (replicate 16 0) (wait_table job.now.sizes.boxes
        (tally_lists job.now.offer_owner.now job.now.grocer_owner.now job.now.tally_grocer.now job.now.tally_box.now
        job.now.tally_offer.now) job.now.sizes.tallies) (steps_done job.now.sizes.boxes done.now) (asked x.kind x.first x.second)) }
{
    let from = waits(job);
    let none = [0u16; BOXES];
    request_refusal(job.sizes.boxes, x, &none, &from, done)
}

// 21 where what the step leaves is not in range.
fn late(fits: bool) -> Result<(), Refusal>
    ensures { number result ≡ cond fits 0 21 }
{
    if fits {
        return Ok(());
    }
    Err(Refusal::OutOfRange)
}

// Kinds 2 and 3: puts the places of the totals of the first box's tallies, and answers the span of all its totals. Kind 1 needs none.
fn own_places(job: &Job, sharers: &[u16; GROCERS], places: &mut [u16; TALLIES], x: Step) -> Span
    requires box_in { BoxIn job.now.sizes.boxes job.now.sizes.grocers x.first job.now.grocer_owner.now sharers.now }
    requires tallies_in { TalliesIn job.now.tally_box.now job.now.tally_grocer.now job.now.sizes.tallies }
    ensures { 2 ≤ x.kind → OwnPlaces job.now.sizes.boxes job.now.sizes.grocers job.now.grocer_owner.now sharers.now x.first
        job.now.sizes.tallies job.now.tally_box.now job.now.tally_grocer.now places.old result.from result.to places.new }
{
    if x.kind < 2 {
        return Span { from: 0, to: 0 };
    }
    box_places(
        job.sizes.boxes,
        usize::from(job.sizes.grocers),
        job.grocer_owner,
        sharers,
        x.first,
        usize::from(job.sizes.tallies),
        job.tally_box,
        job.tally_grocer,
        places,
    )
}

// Kinds 1 and 3: lists the offers of the step's message. How many. Kind 2 needs none.
fn message_offers(job: &Job, needs: &[u16; OFFERS], offers: &mut [u16], x: Step) -> usize
    requires offers_bound { (job.now.sizes.offers ≤ 500) × ((job.now.sizes.offers ≤ length job.now.offer_owner.now)
        × (job.now.sizes.offers ≤ length offers.old)) }
    requires first_bound { (x.first < 16) × (x.second < 16) }
    ensures listed { x.kind ≡ 1 → Listed job.now.sizes.offers (word_in job.now.offer_owner.now needs.now x.first x.second) 0 result
        offers.new }
    ensures listed_2 { x.kind ≡ 3 → Listed job.now.sizes.offers (word_in job.now.offer_owner.now needs.now x.second x.first) 0 result
        offers.new }
    ensures upper_bound { result ≤ job.now.sizes.offers }
{
    let n = usize::from(job.sizes.offers);
    match x.kind {
        1 => list_message(n, job.offer_owner, needs, x.first, x.second, offers),
        3 => list_message(n, job.offer_owner, needs, x.second, x.first, offers),
        _ => 0,
    }
}

// Kinds 1 to 3: the first condition that is met. Where none is, the span of the step's offers in `offers`, for kinds 1 and 3 those of its message;
// `standing` has the boxes of the tallies that stand, with 16 for the others, and `places` the places of the first box's tallies for kinds 2 and 3.
pub fn price_refusal(
    job: &Job,
    state: &StateView,
    offers: &mut [u16],
    places: &mut [u16; TALLIES],
    standing: &mut [u16; TALLIES],
    x: Step,
) -> Result<Span, Refusal>
    requires { (x.kind ≤ 3) × (500 ≤ length offers.old) }
    ensures number_is { number result ≡ step_refusal (job_held job.now) (state_viewed state.now) (asked x.kind x.first x.second) }
    ensures decided { IfOk result (λ span. Decided (job_held job.now) (state_viewed state.now) (asked x.kind x.first x.second) places.new
        span.from span.to offers.new standing.new 0) }
{
    let sharing = tables_refusal(job, state, standing)?;
    let counted = Job {
        tally_box: standing,
        tally_bag: &[],
        tally_revision: &[],
        ..*job
    };
    let needing = needs(
        job.sizes.boxes,
        job.sizes.tallies,
        counted.tally_box,
        job.tally_offer,
    );
    prices_asked(&counted, &needing, state.done, x)?;
    let own = own_places(&counted, &sharing, places, x);
    let to = message_offers(&counted, &needing, offers, x);
    late(price_fits(&counted, own.from, own.to, to, places, state, x))?;
    Ok(Span { from: 0, to })
}

// Kinds 4 to 6, likewise: the step's span. `grocers` has the grocer of each place of it.
pub fn total_refusal(
    job: &Job,
    state: &StateView,
    grocers: &mut [u16],
    standing: &mut [u16; TALLIES],
    x: Step,
) -> Result<Span, Refusal>
    requires { (4 ≤ x.kind) × (1_255 ≤ length grocers.old) }
    ensures number_is { number result ≡ step_refusal (job_held job.now) (state_viewed state.now) (asked x.kind x.first x.second) }
    ensures decided { IfOk result (λ span. Decided (job_held job.now) (state_viewed state.now) (asked x.kind x.first x.second) []
        span.from span.to grocers.new standing.new 0) }
{
    let sharing = tables_refusal(job, state, standing)?;
    let counted = Job {
        tally_box: standing,
        tally_bag: &[],
        tally_revision: &[],
        ..*job
    };
    totals_asked(&counted, state.done, x)?;
    let z = job.sizes;
    let span = box_span(
        z.boxes,
        usize::from(z.grocers),
        job.grocer_owner,
        &sharing,
        span_box(x),
        span_group(x),
        grocers,
    );
    late(total_fits(
        x.kind,
        span.from,
        span.to,
        width_of(z.lists),
        grocers,
        state,
    ))?;
    Ok(span)
}
