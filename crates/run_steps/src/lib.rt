// The steps of an order, done one after the other on the tables of prices and totals.
#![tactic(auto)]

ghost use Rattle.std.specs.Prelude.{◌≡◌, Bool, List, ℕ, suc, ◌+◌, ◌*◌, ◌/◌, ◌%◌, ◌≤◌, ◌<◌, pos, get_or};
ghost use Rattle.laws.specs.Listed.{Listed};
ghost use Rattle.laws.specs.Lists.{list_words};
ghost use Rattle.laws.specs.Tables.{overwrite};
ghost use Rattle.model.specs.Steps.{kind_of};
ghost use Rattle.model.specs.Words.{messages_of};
ghost use Rattle.model.specs.Tables.{evening_of};
ghost use Rattle.tables.specs.Lent.{SameSlices};
ghost use Rattle.step_links.specs.Links.{Some};
ghost use Rattle.step_totals.specs.Row.{tallies, TalliesLinked};
ghost use Rattle.book_places.specs.Spots.{CountIn, start_by};
ghost use Rattle.run_fresh.specs.Fresh.{FreshTotals};
ghost use Rattle.run_steps.specs.All.{bare, standing_job, head_of, StepIn, StepOut, AllIn, AllOut};

use book_places::all::GROUP_STARTS;
use book_places::{CLASSES, TOTALS};
use slices::index_at;
use slices::limits::{GROCERS, OFFERS, TALLIES};
use slices::lists::{list_words, width_of, words_at};
use step_links::TALLY_LINKS;
use step_places::{PLACES, Step};
use tables::{Job, State};

// The most offers that all boxes have: an own one of each, and one for each tally.
const LISTED_OFFERS: usize = OFFERS + TALLIES;

// Words and messages sent, counted as steps are done.
#[derive(Clone, Copy)]
pub struct Sent {
    pub words: u32,
    pub messages: u32,
}

// The step of a place, of k boxes.
fn step_of(k: u16, place: u16) -> Step
    requires { (1 ≤ k) × (k ≤ 16) × (place < 6 * k * k) }
    ensures { (result.kind ≡ suc (place / k / k)) × (result.first ≡ place / k % k) × (result.second ≡ place % k) }
{
    let row = step_places::by_boxes(place, k);
    let rows = step_places::by_boxes(row, k);
    Step {
        kind: rows + 1,
        first: row - rows * k,
        second: place - row * k,
    }
}

// The step of turn i of an order, of k boxes.
fn step_at(k: u16, order: &[u16; PLACES], i: usize) -> Step
    requires { (i < 1536) × (1 ≤ k) × (k ≤ 16) × (get_or order.now i 0 < 6 * k * k) }
    ensures { (result.kind ≡ suc (get_or order.now i 0 / k / k)) × (result.first ≡ get_or order.now i 0 / k % k)
        × (result.second ≡ get_or order.now i 0 % k) }
{
    step_of(k, order[i])
}

// What is sent so far, and the words of a step of this kind and its message.
fn sent_more(sent: Sent, kind: u16, more: u32) -> Sent
    requires { (1 ≤ kind) × (kind ≤ 6) × (sent.words + more < 4_294_967_296) × (sent.messages < 4_294_967_295) }
    ensures { (result.words ≡ sent.words + more) × ((a b : ℕ) → result.messages ≡ sent.messages + messages_of (kind_of kind) a b) }
{
    Sent {
        words: sent.words + more,
        messages: sent.messages + step_places::sent_by(kind),
    }
}

// The word that tells where the list of a step begins.
fn head_of(x: Step) -> usize
    requires { head_of x.kind x.first x.second < 1_000 }
    ensures { result ≡ head_of x.kind x.first x.second }
{
    let b = usize::from(step_apply::span_box(x));
    b * CLASSES + step_apply::span_group(x)
}

// What steps look up beside the job's tables: where the lists of offers and the spans of totals begin, the offers listed, the grocer of each place, the
// place of each tally, and the links of tallies.
#[derive(Clone, Copy)]
struct Lookups<'a> {
    offer_heads: &'a [u16],
    offers: &'a [u16],
    heads: &'a [u16],
    grocers: &'a [u16],
    tally_place: &'a [u16],
    tally_links: &'a [u16; TALLY_LINKS],
}

// One step, on the side of prices or of totals. The words sent.
fn one_step(job: &Job, look: &Lookups, state: &mut State, x: Step) -> u32
    requires { Some (λ owner. Some (λ holder. StepIn (tallies job.now.sizes.boxes job.now.sizes.offers job.now.sizes.tallies owner
        look.now.tally_place.now holder job.now.tally_offer.now job.now.tally_count.now) job.now.sizes.lists look.now.tally_links.now
        look.now.offer_heads.now look.now.offers.now look.now.heads.now look.now.grocers.now state.old.known.now state.old.price_transit.now
        state.old.working.now state.old.total_transit.now state.old.statement.now x.kind x.first x.second)) }
    ensures moved { (owner holder : List ℕ) (passes : ℕ → Bool) → (x.kind ≤ 3 → TalliesLinked job.now.sizes.tallies owner holder
        job.now.tally_offer.now look.now.tally_links.now) → (x.kind ≤ 3 → (x.kind ≡ 2 → ⊥) → Listed job.now.sizes.offers passes
        (get_or look.now.offer_heads.now (head_of x.kind x.first x.second) 0)
        (get_or look.now.offer_heads.now (head_of x.kind x.first x.second + 1) 0) look.now.offers.now) →
        StepOut (tallies job.now.sizes.boxes job.now.sizes.offers job.now.sizes.tallies owner look.now.tally_place.now holder
        job.now.tally_offer.now job.now.tally_count.now) job.now.sizes.lists passes look.now.offer_heads.now look.now.heads.now
        look.now.grocers.now (bare state.old) (bare state.new) x.kind x.first x.second result }
    ensures marks_kept { (state.new.done.now ≡ state.old.done.now) × (state.new.sent.now ≡ state.old.sent.now) }
    ensures same_slices { SameSlices state.old state.new }
{
    let head = head_of(x);
    let next = head + 1;
    if x.kind <= 3 {
        let first = index_at(look.offer_heads, head);
        let last = index_at(look.offer_heads, next);
        return step_apply::price_step(
            job,
            first,
            last,
            look.offers,
            look.tally_place,
            look.tally_links,
            state,
            x,
        );
    }
    let from = index_at(look.heads, head);
    let to = index_at(look.heads, next);
    let width = width_of(job.sizes.lists);
    step_apply::total_step(x.kind, from, to, width, look.grocers, state)
}

// The tables of totals of a fresh state: so many words as all boxes have totals, on every list, and the statements.
fn clear_totals(
    job: &Job,
    sharers: &[u16; GROCERS],
    working: &mut [i64],
    total_transit: &mut [i64],
    statement: &mut [i64],
)
    requires count_in { CountIn job.now.sizes.grocers job.now.grocer_owner.now sharers.now × ((job.now.sizes.boxes ≤ 16) × (job.now.sizes.lists ≤ 7)) }
    requires fresh_totals { FreshTotals (start_by job.now.sizes.grocers job.now.grocer_owner.now sharers.now job.now.sizes.boxes
        * suc job.now.sizes.lists) (list_words job.now.sizes.lists job.now.sizes.grocers) working.old total_transit.old statement.old }
    ensures { let words = start_by job.now.sizes.grocers job.now.grocer_owner.now sharers.now job.now.sizes.boxes * suc job.now.sizes.lists in
        (working.new ≡ overwrite words (λ i. pos 0) working.old) × (total_transit.new ≡ overwrite words (λ i. pos 0) total_transit.old)
        × (statement.new ≡ overwrite (list_words job.now.sizes.lists job.now.sizes.grocers) (λ i. pos 0) statement.old) }
{
    let z = job.sizes;
    let m = usize::from(z.grocers);
    let places = usize::from(book_places::box_start(m, job.grocer_owner, sharers, z.boxes));
    let words = words_at(places, width_of(z.lists));
    let statements = list_words(z.lists, z.grocers);
    run_fresh::fresh_totals(words, statements, working, total_transit, statement);
}

// From a fresh state, whatever the tables held before, the first n steps of an order: offers and grocers are listed by boxes, places told, and tallies
// linked, once. The job's tally_box are the standing boxes. It is not put into its callers, whose checks would then run above its tables: a call has less
// than 32 KiB of stack (host/settlement.h).
#[inline(never)]
pub fn all_steps(
    job: &Job,
    needs: &[u16; OFFERS],
    sharers: &[u16; GROCERS],
    order: &[u16; PLACES],
    n: usize,
    state: &mut State,
) -> Sent
    requires { AllIn (standing_job job.now) (bare state.old) needs.now sharers.now order.now n }
    ensures done { AllOut (evening_of (standing_job job.now)) (bare state.old) (bare state.new) order.now n result.words result.messages }
    ensures marks_kept { (state.new.done.now ≡ state.old.done.now) × (state.new.sent.now ≡ state.old.sent.now) }
    ensures same_slices { SameSlices state.old state.new }
{
    let z = job.sizes;
    run_fresh::fresh_prices(job, state.known, state.price_transit);
    clear_totals(
        job,
        sharers,
        state.working,
        state.total_transit,
        state.statement,
    );
    let mut heads = [0u16; GROUP_STARTS];
    let mut grocers = [0u16; TOTALS];
    let mut places = [0u16; TALLIES];
    let m = usize::from(z.grocers);
    let t = usize::from(z.tallies);
    book_places::all::all_boxes(
        z.boxes,
        m,
        job.grocer_owner,
        sharers,
        t,
        job.tally_box,
        job.tally_grocer,
        &mut heads,
        &mut grocers,
        &mut places,
    );
    let mut offer_heads = [0u16; GROUP_STARTS];
    let mut offers = [0u16; LISTED_OFFERS];
    let n_offers = usize::from(z.offers);
    book_places::all::all_lists(
        z.boxes,
        n_offers,
        job.offer_owner,
        needs,
        &mut offer_heads,
        &mut offers,
    );
    let mut tally_links = [0u16; TALLY_LINKS];
    step_links::link_pairs(
        t,
        job.tally_box,
        job.tally_offer,
        job.offer_owner,
        &mut tally_links,
    );
    let look = Lookups {
        offer_heads: &offer_heads,
        offers: &offers,
        heads: &heads,
        grocers: &grocers,
        tally_place: &places,
        tally_links: &tally_links,
    };
    // The links tell the box and the owner: the walks over them are lent neither list.
    let linked = Job {
        tally_box: &[],
        offer_owner: &[],
        ..*job
    };
    let mut sent = Sent {
        words: 0,
        messages: 0,
    };
    for i in 0..n {
        let x = step_at(z.boxes, order, i);
        let more = one_step(&linked, &look, state, x);
        sent = sent_more(sent, x.kind, more);
    }
    sent
}
