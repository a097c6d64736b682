// The late 21 of kinds 1 to 3: whether what a step leaves is in range. One table or one count decides, by kind.
ghost use Rattle.std.specs.Prelude.{◌≡◌, suc};
ghost use Rattle.step_totals.specs.Row.{tallies};
ghost use Rattle.step_checks.specs.Fits.{price_fits, PriceFitsIn};

use slices::lists::{span_words, width_of};
use step_places::Step;
use step_row::{Part, products_fit};
use step_sent::sent_fits;
use tables::{Job, StateView};

// Kinds 1 to 3: whether what the step leaves is in range, with so many offers in its message. `job` has the boxes that count in place of the tallies'. The
// span of the first box's totals, and the places of its tallies, are looked at for kinds 2 and 3 alone.
pub fn price_fits(
    job: &Job,
    from: usize,
    to: usize,
    offers: usize,
    tally_place: &[u16],
    state: &StateView,
    x: Step,
) -> bool
    requires { PriceFitsIn (tallies job.now.sizes.boxes job.now.sizes.offers job.now.sizes.tallies job.now.offer_owner.now tally_place.now
        job.now.tally_box.now job.now.tally_offer.now job.now.tally_count.now) job.now.sizes.lists from to offers state.now.known.now
        state.now.price_transit.now state.now.working.now state.now.sent.now x.kind x.first x.second }
    ensures { result ≡ price_fits (tallies job.now.sizes.boxes job.now.sizes.offers job.now.sizes.tallies job.now.offer_owner.now
        tally_place.now job.now.tally_box.now job.now.tally_offer.now job.now.tally_count.now) (suc job.now.sizes.lists) from to offers
        state.now.known.now state.now.price_transit.now state.now.working.now state.now.sent.now x.kind x.first x.second }
{
    let width = width_of(job.sizes.lists);
    if x.kind == 1 {
        return sent_fits(state.sent, span_words(0, offers, width));
    }
    let own = Part {
        start: from,
        len: to - from,
        width,
    };
    if x.kind == 2 {
        return products_fit(
            job,
            own,
            x.first,
            x.first,
            tally_place,
            state.known,
            state.working,
        );
    }
    products_fit(
        job,
        own,
        x.first,
        x.second,
        tally_place,
        state.price_transit,
        state.working,
    )
}
