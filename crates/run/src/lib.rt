// The run: it starts fresh, picks steps until all are done, and reports the words sent, the messages and the steps.
#![tactic(auto)]

ghost use Rattle.std.specs.Prelude.{◌≡◌, ◌||◌, suc, ◌*◌, ◌≤◌, ltb, length};
ghost use Rattle.model.specs.Run.{ran};
ghost use Rattle.tables.specs.Lent.{job_held, state_held, SameSlices};
ghost use Rattle.job_masks.specs.Masks.{by_owner};
ghost use Rattle.book_places.specs.Spots.{CountIn, start_by};
ghost use Rattle.step_waits.specs.Waits.{wait_table};
ghost use Rattle.run_order.specs.Order.{MarksFrom, EveryJob, Ordered};
ghost use Rattle.run.specs.Run.{answer_of, given, lists_of, OrderIn};

use job_checks::checks::job_refusal;
use job_masks::masks;
use refusals::Refusal;
use run_ready::Rules;
use slices::limits::{GROCERS, OFFERS, TALLIES};
use slices::lists::{width_of, words_at};
use step_checks::state::state_short;
use step_places::PLACES;
use tables::{Job, State, StateView, view};

// What a run that has ended answers: words sent, messages and steps.
#[derive(Clone, Copy)]
pub struct Finished {
    pub words: u32,
    pub messages: u32,
    pub steps: u32,
}

// 20: whether a table of packed totals is shorter than all boxes have totals, on every list.
pub fn totals_short(job: &Job, sharers: &[u16; GROCERS], state: &StateView) -> bool
    requires { CountIn job.now.sizes.grocers job.now.grocer_owner.now sharers.now × ((job.now.sizes.boxes ≤ 16) × (job.now.sizes.lists ≤ 7)) }
    ensures { let words = start_by job.now.sizes.grocers job.now.grocer_owner.now sharers.now job.now.sizes.boxes * suc job.now.sizes.lists in
        result ≡ (ltb (length state.now.working.now) words || ltb (length state.now.total_transit.now) words) }
{
    let m = usize::from(job.sizes.grocers);
    let places = usize::from(book_places::box_start(m, job.grocer_owner, sharers, job.sizes.boxes));
    let words = words_at(places, width_of(job.sizes.lists));
    (state.working.len() < words) | (state.total_transit.len() < words)
}

// The order of a run by its choices, picked by the marks alone: its steps are told by their places, and marked. How many they are. The job's tally_box
// are the standing boxes.
fn pick_order(
    job: &Job,
    needs: &[u16; OFFERS],
    choices: &[u16],
    done: &mut [u16],
    order: &mut [u16; PLACES],
) -> usize
    requires { OrderIn job.now.sizes.boxes job.now.sizes.offers job.now.sizes.tallies (lists_of job.now) needs.now done.old × (length order.old ≡ 1536) }
    ensures marks_from { MarksFrom job.now.sizes.boxes done.old done.new }
    ensures every_job { EveryJob job.now.sizes.boxes (by_owner job.now.sizes.offers job.now.offer_owner.now needs.now)
        (wait_table job.now.sizes.boxes (lists_of job.now) job.now.sizes.tallies) (λ j. Ordered j choices.now done.new order.new result) }
{
    let receivers = masks::by_owner(job.sizes.offers, job.offer_owner, needs);
    let waits = step_waits::waits(job);
    let rules = Rules {
        boxes: job.sizes.boxes,
        receivers: &receivers,
        waits: &waits,
    };
    run_order::put_order(&rules, choices, done, order)
}

// The run of a job, from a fresh state: its steps are picked first, by the marks alone, and then done one after the other.
// The places of the steps picked lie in front of `picked`, as far as it reaches. The state's old words are not examined.
pub fn run(
    job: &Job,
    state: &mut State,
    choices: &[u16],
    picked: &mut [u16],
) -> Result<Finished, Refusal>
    ensures ran { given (answer_of result) (state_held state.new) picked.new ≡ ran (job_held job.now) (state_held state.old) choices.now picked.old }
    ensures same_slices { SameSlices state.old state.new }
{
    let z = job.sizes;
    let seen = view(state);
    if state_short(z, &seen) {
        return Err(Refusal::LentShort);
    }
    let mut standing = [0u16; TALLIES];
    job_refusal(job, &mut standing)?;
    let handed = Job {
        tally_box: &standing,
        tally_bag: &[],
        tally_revision: &[],
        ..*job
    };
    let sharers = masks::sharers(z.boxes, z.tallies, handed.tally_box, job.tally_grocer);
    if totals_short(&handed, &sharers, &seen) {
        return Err(Refusal::LentShort);
    }
    let needs = masks::needs(z.boxes, z.tallies, handed.tally_box, job.tally_offer);
    let mut order = [0u16; PLACES];
    let n = pick_order(&handed, &needs, choices, state.done, &mut order);
    run_order::lay_order(&order, n, picked);
    // The steps are done with no marks, and their words are counted apart.
    let mut tables = State {
        known: state.known,
        price_transit: state.price_transit,
        working: state.working,
        total_transit: state.total_transit,
        statement: state.statement,
        done: &mut [],
        sent: &mut [],
    };
    let all = run_steps::all_steps(&handed, &needs, &sharers, &order, n, &mut tables);
    state.sent[0] = all.words;
    Ok(Finished {
        words: all.words,
        messages: all.messages,
        steps: n as u32,
    })
}
