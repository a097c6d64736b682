// Trying the floor before moving boxes: the steps of an evening, from a fresh state, taken by rounds; it reports rounds and idle rounds.
#![tactic(auto)]

ghost use Rattle.std.specs.Prelude.{◌≡◌, ◌||◌, ltb, length};
ghost use Rattle.tables.specs.Lent.{job_held, state_held, SameSlices};
ghost use Rattle.trial_rules.specs.Trial.{trial_outcome, tried_on};
ghost use Rattle.job_masks.specs.Masks.{by_owner};
ghost use Rattle.step_waits.specs.Waits.{wait_table};
ghost use Rattle.run_order.specs.Order.{MarksFrom, EveryJob};
ghost use Rattle.run.specs.Run.{lists_of, OrderIn};
ghost use Rattle.trial_rounds.specs.Taken.{Liking, AllRounds};
ghost use Rattle.trial.specs.Trial.{answer_of};

use job_checks::checks::job_refusal;
use job_masks::masks;
use refusals::Refusal;
use run::totals_short;
use run_ready::Rules;
use slices::limits::{OFFERS, TALLIES};
use step_checks::state::state_short;
use step_places::{KINDS, PLACES};
use tables::{Job, State, view};
use trial_rounds::Rounds;

// 20: whether the preference list has fewer than six words, or the table of idle rounds fewer than K.
fn lists_short(boxes: u16, preferences: usize, idle: usize) -> bool
    ensures { result ≡ (ltb preferences 6 || ltb idle boxes) }
{
    (preferences < KINDS) | (idle < usize::from(boxes))
}

// The order of a trial by its preference list, told by the marks alone: its steps are told by their places, and marked. The job's tally_box are the
// standing boxes.
fn pick_rounds(
    job: &Job,
    needs: &[u16; OFFERS],
    preferences: &[u16],
    done: &mut [u16],
    order: &mut [u16; PLACES],
) -> Rounds
    requires { OrderIn job.now.sizes.boxes job.now.sizes.offers job.now.sizes.tallies (lists_of job.now) needs.now done.old
        × (length order.old ≡ 1536) × Liking job.now.sizes.boxes preferences.now }
    ensures marks_from { MarksFrom job.now.sizes.boxes done.old done.new }
    ensures every_job { EveryJob job.now.sizes.boxes (by_owner job.now.sizes.offers job.now.offer_owner.now needs.now)
        (wait_table job.now.sizes.boxes (lists_of job.now) job.now.sizes.tallies)
        (λ j. AllRounds j preferences.now done.new order.new result.steps result.rounds) }
{
    let receivers = masks::by_owner(job.sizes.offers, job.offer_owner, needs);
    let waits = step_waits::waits(job);
    let rules = Rules {
        boxes: job.sizes.boxes,
        receivers: &receivers,
        waits: &waits,
    };
    trial_rounds::put_rounds(&rules, preferences, done, order)
}

// The trial of a job, from a fresh state: its rounds are picked first, by the marks alone, and then their steps done one after the other. It answers
// its rounds. The state's old words are not examined. The places of the steps taken lie in front of `picked`, as far as it reaches.
pub fn trial(
    job: &Job,
    state: &mut State,
    preferences: &[u16],
    idle: &mut [u16],
    picked: &mut [u16],
) -> Result<u32, Refusal>
    ensures tried { trial_outcome (answer_of result) (state_held state.new) idle.new picked.new ≡
        tried_on (job_held job.now) (state_held state.old) preferences.now idle.old picked.old }
    ensures same_slices { SameSlices state.old state.new }
{
    let z = job.sizes;
    let seen = view(state);
    if state_short(z, &seen) | lists_short(z.boxes, preferences.len(), idle.len()) {
        return Err(Refusal::LentShort);
    }
    let mut standing = [0u16; TALLIES];
    job_refusal(job, &mut standing)?;
    let handed = Job {
        tally_box: &standing,
        tally_bag: &[],
        tally_revision: &[],
        ..*job
    };
    let sharers = masks::sharers(z.boxes, z.tallies, handed.tally_box, job.tally_grocer);
    if totals_short(&handed, &sharers, &seen) {
        return Err(Refusal::LentShort);
    }
    if !trial_rounds::is_preference(preferences) {
        return Err(Refusal::NoPreference);
    }
    let needs = masks::needs(z.boxes, z.tallies, handed.tally_box, job.tally_offer);
    let mut order = [0u16; PLACES];
    let taken = pick_rounds(&handed, &needs, preferences, state.done, &mut order);
    run_order::lay_order(&order, taken.steps, picked);
    trial_rounds::idle_rounds(z.boxes, &order, taken.steps, taken.rounds, idle);
    // The steps are done with no marks, and their words are counted apart.
    let mut tables = State {
        known: state.known,
        price_transit: state.price_transit,
        working: state.working,
        total_transit: state.total_transit,
        statement: state.statement,
        done: &mut [],
        sent: &mut [],
    };
    let all = run_steps::all_steps(&handed, &needs, &sharers, &order, taken.steps, &mut tables);
    state.sent[0] = all.words;
    Ok(u32::from(taken.rounds))
}
