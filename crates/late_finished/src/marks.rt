// Done marks and words sent, as a finished run leaves them.
ghost use Rattle.std.specs.Prelude.{◌≡◌, ◌&&◌, suc, ◌+◌, ◌*◌, ◌≤◌, ◌<◌, eqb, get_or, length};
ghost use Rattle.laws.specs.Limits.{max_lists};
ghost use Rattle.job_masks.specs.Masks.{Owned, by_owner};
ghost use Rattle.message_tables.specs.Sums.{others_sum};
ghost use Rattle.late_finished.specs.Tests.{right_marks};

use job_masks::due::is_due;
use job_masks::masks::by_owner;
use message_tables::words::word_total;
use slices::limits::{BOXES, GROCERS, OFFERS};
use slices::lists::width_of;
use slices::{u16_at, u32_at};
use step_places::Step;
use tables::{Job, StateView};

// Whether the done marks are those of the steps that the words of receivers and senders tell.
fn right_marks(k: u16, receivers: &[u16; BOXES], senders: &[u16; BOXES], done: &[u16]) -> bool
    requires { (1 ≤ k) × (k ≤ 16) × (6 * k * k ≤ length done.now) }
    ensures { result ≡ right_marks k receivers.now senders.now done.now }
{
    let places = slices::bits::marks(k);
    let mut all = true;
    let mut p = Step {
        kind: 1,
        first: 0,
        second: 0,
    };
    for i in 0..places {
        let due = is_due(p.kind, p.first, p.second, receivers, senders);
        all = all & (u16_at(done, i) == due as u16);
        let q = step_places::next(k, p);
        p = q;
    }
    all
}

// Whether so many words were sent: those of one list, for each list.
fn all_sent(sent: u32, words: u32, width: usize) -> bool
    requires { width ≤ 8 }
    ensures { result ≡ eqb sent (words * width) }
{
    sent as usize == words as usize * width
}

// Whether done marks and words sent are those of a finished run, of a job with these need words and sharer words.
pub fn marks_finished(
    job: &Job,
    needs: &[u16; OFFERS],
    sharers: &[u16; GROCERS],
    state: &StateView,
) -> bool
    requires le_boxes { (1 ≤ job.now.sizes.boxes) × (job.now.sizes.boxes ≤ 16) × (job.now.sizes.lists ≤ max_lists) ×
        (6 * job.now.sizes.boxes * job.now.sizes.boxes ≤ length state.now.done.now) × (1 ≤ length state.now.sent.now) }
    requires owned { Owned job.now.sizes.offers job.now.offer_owner.now needs.now × Owned job.now.sizes.grocers job.now.grocer_owner.now sharers.now }
    ensures { result ≡ (right_marks job.now.sizes.boxes (by_owner job.now.sizes.offers job.now.offer_owner.now needs.now)
        (by_owner job.now.sizes.grocers job.now.grocer_owner.now sharers.now) state.now.done.now
        && eqb (get_or state.now.sent.now 0 0) ((others_sum job.now.sizes.offers job.now.offer_owner.now needs.now
        + others_sum job.now.sizes.grocers job.now.grocer_owner.now sharers.now) * suc job.now.sizes.lists)) }
{
    let z = job.sizes;
    let receivers = by_owner(z.offers, job.offer_owner, needs);
    let senders = by_owner(z.grocers, job.grocer_owner, sharers);
    let words = word_total(
        z.grocers,
        z.offers,
        job.offer_owner,
        job.grocer_owner,
        needs,
        sharers,
    );
    let width = width_of(z.lists);
    right_marks(z.boxes, &receivers, &senders, state.done)
        & all_sent(u32_at(state.sent, 0), words, width)
}
