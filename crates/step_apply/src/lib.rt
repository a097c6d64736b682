// One step applied to the lent tables: kinds 1 to 3 to prices and working totals, kinds 4 to 6 to totals and statements.
#![tactic(auto)]

ghost use Rattle.std.specs.Prelude.{Bool, List, ◌≡◌, ℕ, suc};
ghost use Rattle.laws.specs.Listed.{Listed};
ghost use Rattle.step_links.specs.Links.{Some};
ghost use Rattle.step_totals.specs.Row.{tallies, TalliesLinked};
ghost use Rattle.step_apply.specs.Kept.{TotalsKept, PricesKept};
ghost use Rattle.tables.specs.Lent.{SameSlices};
ghost use Rattle.step_apply.specs.Apply.{PriceStepIn, PriceStepOut, TotalStepIn, TotalStepOut, span_box, span_group};

use slices::lists::{span_words, width_of, words_at};
use step_links::TALLY_LINKS;
use step_places::Step;
use step_prices::receive::receive_prices;
use step_prices::send::send_prices;
use step_spans::{credit_span, move_span};
use step_totals::row::add_placed;
use tables::{Job, State};

// A step of kind 1, 2 or 3: prices sent, own tallies multiplied, or prices received and their tallies multiplied. `offers` has those of the message of
// kinds 1 and 3, from one place up to another: a run has the lists of all boxes in one table, and a part of it would still be told by two places.
// The words sent.
pub fn price_step(
    job: &Job,
    from: usize,
    to: usize,
    offers: &[u16],
    tally_place: &[u16],
    tally_links: &[u16; TALLY_LINKS],
    state: &mut State,
    x: Step,
) -> u32
    requires { Some (λ owner. Some (λ holder. PriceStepIn (tallies job.now.sizes.boxes job.now.sizes.offers job.now.sizes.tallies owner
        tally_place.now holder job.now.tally_offer.now job.now.tally_count.now) (suc job.now.sizes.lists) from to offers.now tally_links.now
        state.old.known.now state.old.price_transit.now state.old.working.now x.kind x.first x.second)) }
    ensures moved { (owner holder : List ℕ) (passes : ℕ → Bool) → TalliesLinked job.now.sizes.tallies owner holder job.now.tally_offer.now
        tally_links.now → ((x.kind ≡ 2 → ⊥) → Listed job.now.sizes.offers passes from to offers.now) →
        PriceStepOut (tallies job.now.sizes.boxes job.now.sizes.offers job.now.sizes.tallies owner tally_place.now holder
        job.now.tally_offer.now job.now.tally_count.now) (suc job.now.sizes.lists) from to passes state.old.known.now
        state.old.price_transit.now state.old.working.now x.kind x.first x.second
        state.new.known.now state.new.price_transit.now state.new.working.now result }
    ensures kept { TotalsKept state.old state.new }
    ensures same_slices { SameSlices state.old state.new }
{
    let n = usize::from(job.sizes.offers);
    let width = width_of(job.sizes.lists);
    let a = x.first;
    // A table that is only read is lent as the one beside it is: the borrow check does not cover a shared loan of one field beside another's.
    if x.kind == 1 {
        let known: &mut [u32] = state.known;
        send_prices(
            n,
            width,
            a,
            x.second,
            from,
            to,
            offers,
            known,
            state.price_transit,
        );
        return span_words(from, to, width);
    }
    if x.kind == 2 {
        let known: &mut [u32] = state.known;
        add_placed(
            job,
            width,
            a,
            a,
            tally_links,
            tally_place,
            known,
            state.working,
        );
        return 0;
    }
    let received: &mut [u32] = state.price_transit;
    add_placed(
        job,
        width,
        a,
        x.second,
        tally_links,
        tally_place,
        received,
        state.working,
    );
    receive_prices(
        n,
        width,
        a,
        from,
        to,
        offers,
        state.known,
        state.price_transit,
    );
    0
}

// A step of kind 4, 5 or 6, on the span of its totals, a word for each price list at each place: they are sent, or own totals or totals received added
// to statements. The words sent.
pub fn total_step(
    kind: u16,
    from: usize,
    to: usize,
    width: usize,
    grocers: &[u16],
    state: &mut State,
) -> u32
    requires { TotalStepIn from to width grocers.now state.old.working.now state.old.total_transit.now state.old.statement.now kind }
    ensures moved { TotalStepOut from to width grocers.now state.old.working.now state.old.total_transit.now state.old.statement.now kind
        state.new.working.now state.new.total_transit.now state.new.statement.now result }
    ensures kept { PricesKept state.old state.new }
    ensures same_slices { SameSlices state.old state.new }
{
    if kind == 4 {
        move_span(
            words_at(from, width),
            words_at(to, width),
            state.working,
            state.total_transit,
        );
        return span_words(from, to, width);
    }
    if kind == 5 {
        credit_span(from, to, width, grocers, state.working, state.statement);
        return 0;
    }
    credit_span(
        from,
        to,
        width,
        grocers,
        state.total_transit,
        state.statement,
    );
    0
}

// The box by whose list of offers or of totals a step goes: 1 sends what the second box needs, 6 receives what it has sent.
pub fn span_box(x: Step) -> u16
    ensures { result ≡ span_box x.kind x.first x.second }
{
    if (x.kind == 1) | (x.kind == 6) {
        return x.second;
    }
    x.first
}

// And the group of that list: the box's own for 2 and 5, else those of the other box.
pub fn span_group(x: Step) -> usize
    ensures { result ≡ span_group x.kind x.first x.second }
{
    if (x.kind == 1) | (x.kind == 6) {
        return usize::from(x.first) + 1;
    }
    if (x.kind == 2) | (x.kind == 5) {
        return 0;
    }
    usize::from(x.second) + 1
}
