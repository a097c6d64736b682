// The run without choices: all steps that a job has are done, by kind, first box, second box.
ghost use Rattle.std.specs.Prelude.{◌≡◌, ◌*◌, ◌≤◌, take, length};
ghost use Rattle.laws.specs.Below.{ascending};
ghost use Rattle.laws.specs.Lists.{list_words};
ghost use Rattle.model.specs.Tables.{evening_of};
ghost use Rattle.job_masks.specs.Masks.{Owned, by_owner};
ghost use Rattle.job_masks.specs.Due.{due_at};
ghost use Rattle.run_steps.specs.All.{standing_job};
ghost use Rattle.settle.specs.Due.{DueIn, DueOut};

use book_places::TOTALS;
use job_masks::due::is_due;
use slices::limits::{BOXES, GROCERS, MAX_LISTS, OFFERS};
use step_places::{PLACES, Step};
use tables::{Job, State};

// The most price lists: the first and the additional ones.
pub const WIDTH: usize = MAX_LISTS as usize + 1;

// The most words of prices in all boxes,
const BOX_PRICES: usize = BOXES * OFFERS * WIDTH;

// of totals in all boxes,
const BOX_TOTALS: usize = TOTALS * WIDTH;

// and of statements.
pub const STATEMENTS: usize = GROCERS * WIDTH;

// What a run reports: words sent, messages and steps.
#[derive(Clone, Copy)]
pub struct Report {
    pub words: u32,
    pub messages: u32,
    pub steps: u32,
}

// The places of the steps that the job has, ascending, are the first words of the order. How many. A place that has no step is written over.
fn put_due(k: u16, receivers: &[u16; 16], senders: &[u16; 16], order: &mut [u16; PLACES]) -> usize
    requires { (1 ≤ k) × (k ≤ 16) × (length order.old ≡ 1536) }
    ensures { (result ≤ 1536) × (length order.new ≡ 1536) × (take result order.new ≡ ascending (6 * k * k)
        (due_at k receivers.now senders.now)) }
{
    let places = slices::bits::marks(k);
    let mut words: usize = 0;
    let mut p = Step {
        kind: 1,
        first: 0,
        second: 0,
    };
    for i in 0..places {
        order[words] = i as u16;
        words += is_due(p.kind, p.first, p.second, receivers, senders) as usize;
        let q = step_places::next(k, p);
        p = q;
    }
    words
}

// The same by the need words and the sharer words of a job.
fn due_order(
    job: &Job,
    needs: &[u16; OFFERS],
    sharers: &[u16; GROCERS],
    order: &mut [u16; PLACES],
) -> usize
    requires le_boxes { (1 ≤ job.now.sizes.boxes) × (job.now.sizes.boxes ≤ 16) × (length order.old ≡ 1536) }
    requires owned { Owned job.now.sizes.offers job.now.offer_owner.now needs.now ×
        Owned job.now.sizes.grocers job.now.grocer_owner.now sharers.now }
    ensures { (result ≤ 1536) × (length order.new ≡ 1536) ×
        (take result order.new ≡ ascending (6 * job.now.sizes.boxes * job.now.sizes.boxes)
        (due_at job.now.sizes.boxes (by_owner job.now.sizes.offers job.now.offer_owner.now needs.now)
        (by_owner job.now.sizes.grocers job.now.grocer_owner.now sharers.now))) }
{
    let z = job.sizes;
    let receivers = job_masks::masks::by_owner(z.offers, job.offer_owner, needs);
    let senders = job_masks::masks::by_owner(z.grocers, job.grocer_owner, sharers);
    put_due(z.boxes, &receivers, &senders, order)
}

// The run without choices of a job in range, whose boxes of tallies are those of the tallies that stand: in tables of its own but for the statements.
pub fn due_run(job: &Job, statement: &mut [i64]) -> Report
    requires { DueIn (standing_job job.now) × (list_words job.now.sizes.lists job.now.sizes.grocers ≤ length statement.old) }
    ensures { DueOut (evening_of (standing_job job.now)) statement.old statement.new result.words result.messages result.steps }
{
    let z = job.sizes;
    let needs = job_masks::masks::needs(z.boxes, z.tallies, job.tally_box, job.tally_offer);
    let sharers = job_masks::masks::sharers(z.boxes, z.tallies, job.tally_box, job.tally_grocer);
    let mut order = [0u16; PLACES];
    let n = due_order(job, &needs, &sharers, &mut order);
    let mut state = State {
        known: &mut [0; BOX_PRICES],
        price_transit: &mut [0; BOX_PRICES],
        working: &mut [0; BOX_TOTALS],
        total_transit: &mut [0; BOX_TOTALS],
        statement,
        done: &mut [],
        sent: &mut [],
    };
    let all = run_steps::all_steps(job, &needs, &sharers, &order, n, &mut state);
    Report {
        words: all.words,
        messages: all.messages,
        steps: n as u32,
    }
}
