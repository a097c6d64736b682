// The order of a run: the steps that it picks by its choices, and when choices end the first ready step. Each is told by its place.
#![tactic(auto)]

ghost use Rattle.std.specs.Prelude.{◌≡◌, [], ◌+◌, ◌*◌, ◌≤◌, ◌<◌, length, take, drop, set};
ghost use Rattle.laws.specs.Below.{count};
ghost use Rattle.laws.specs.Tables.{overwrite, lay_over};
ghost use Rattle.model.specs.Steps.{kind_of};
ghost use Rattle.model.specs.Tables.{steps_done};
ghost use Rattle.model.specs.Run.{run};
ghost use Rattle.step_places.specs.Marks.{marked};
ghost use Rattle.step_places.specs.Places.{PlaceIn, here};
ghost use Rattle.run_ready.specs.Walk.{listed_of, WalkIn};
ghost use Rattle.run_ready.specs.Rows.{IsRows};
ghost use Rattle.step_places.specs.Order.{NoneBefore};
ghost use Rattle.run_order.specs.Order.{SomeJob, MarksFrom, Picked, Kept, Ended, Passed, EveryJobOf, MayWalk, Ordered};

use run_ready::{ReadyRows, Rules};
use slices::bits::marks;
use step_places::{PLACES, Step};
use step_rules::ready::permitted;

// The step of a place is word n of the order, and it is marked as done.
pub fn put_step(k: u16, p: Step, n: usize, done: &mut [u16], order: &mut [u16; PLACES])
    requires { PlaceIn k p.kind p.first p.second × MarksFrom k done.old done.old × (n < 1536) }
    ensures { (done.new ≡ marked k (kind_of p.kind) p.first p.second done.old) ×
        (order.new ≡ set order.old n (here k p.kind p.first p.second)) × MarksFrom k done.old done.new }
{
    let at = step_rules::marks::place(k, p.kind, p.first, p.second);
    order[n] = at as u16;
    step_rules::marks::mark(k, p.kind, p.first, p.second, done);
}

// Choice i picks a step, one of `ready` steps: it is word i of the order, and the rows that it can change are made anew.
fn choose(
    rules: &Rules,
    choices: &[u16],
    i: usize,
    ready: u16,
    done: &mut [u16],
    rows: &mut ReadyRows,
    order: &mut [u16; PLACES],
)
    requires walk_in { MayWalk rules.now done.old }
    requires rows { IsRows rules.now.boxes (listed_of rules.now done.old) rows.old }
    requires i_in_bounds { let k = rules.now.boxes in (i < length choices.now) × (1 ≤ ready)
        × (ready ≡ count (6 * k * k) (listed_of rules.now done.old)) }
    requires every_job { EveryJobOf rules.now (λ j. Picked j done.old order.old i (drop i choices.now)) }
    ensures marks_from { MarksFrom rules.now.boxes done.old done.new × IsRows rules.now.boxes (listed_of rules.now done.new) rows.new }
    ensures every_job_2 { EveryJobOf rules.now (λ j. Kept j done.old order.old i
        (drop i choices.now) done.new order.new (i + 1) (drop (i + 1) choices.now)) }
{
    let c = choices[i] % ready;
    let p = run_ready_rows::find_in(rules.boxes, c, rows);
    put_step(rules.boxes, p, i, done, order);
    run_ready_renew::renew(rules, p, done, rows);
}

// While choices are left and some step is ready, each choice picks a step. How many are picked.
fn chosen(rules: &Rules, choices: &[u16], done: &mut [u16], order: &mut [u16; PLACES]) -> usize
    requires walk_in { MayWalk rules.now done.old }
    requires every_job { EveryJobOf rules.now (λ j. Picked j done.old order.old 0 choices.now) }
    ensures marks_from { MarksFrom rules.now.boxes done.old done.new }
    ensures every_job_2 { EveryJobOf rules.now (λ j. Kept j done.old order.old 0
        choices.now done.new order.new result []) }
{
    let n = choices.len();
    let mut rows = run_ready_rows::rows_for(n, rules, done);
    for i in 0..n {
        let ready = run_ready::ready_steps(rules.boxes, &rows);
        if ready == 0 {
            return i;
        }
        choose(rules, choices, i, ready, done, &mut rows, order);
    }
    n
}

// The step of a place is word n of the order where it is ready. How many words the order has then.
fn turn(rules: &Rules, p: Step, n: usize, done: &mut [u16], order: &mut [u16; PLACES]) -> usize
    requires place_in { PlaceIn rules.now.boxes p.kind p.first p.second }
    requires walk_in { MayWalk rules.now done.old }
    requires every_job { EveryJobOf rules.now (λ j. Picked j done.old order.old n []) }
    requires every_job_2 { EveryJobOf rules.now (λ j. NoneBefore j (steps_done j.boxes done.old) (here rules.now.boxes p.kind p.first p.second)) }
    ensures marks_from { MarksFrom rules.now.boxes done.old done.new }
    ensures every_job_3 { EveryJobOf rules.now (λ j. Passed j done.old order.old n
        (here rules.now.boxes p.kind p.first p.second) done.new order.new result) }
{
    let k = rules.boxes;
    if !permitted(
        k,
        p.kind,
        p.first,
        p.second,
        rules.receivers,
        rules.waits,
        done,
    ) {
        return n;
    }
    put_step(k, p, n, done, order);
    n + 1
}

// The first ready step, as long as there is one: a step done makes no earlier place ready, so one walk over all places does.
// The order has n words before; how many it has in all.
fn rest(rules: &Rules, n: usize, done: &mut [u16], order: &mut [u16; PLACES]) -> usize
    requires walk_in { MayWalk rules.now done.old }
    requires every_job { EveryJobOf rules.now (λ j. Picked j done.old order.old n []) }
    ensures marks_from { MarksFrom rules.now.boxes done.old done.new }
    ensures every_job_2 { EveryJobOf rules.now (λ j. Ended j done.old order.old n [] done.new
        order.new result) }
{
    let places = marks(rules.boxes);
    let mut words = n;
    let mut p = Step {
        kind: 1,
        first: 0,
        second: 0,
    };
    for i in 0..places {
        words = turn(rules, p, words, done, order);
        p = step_places::next(rules.boxes, p);
    }
    words
}

// The order of the run with these choices: its steps, the first words of `order`, and all of them marked, whatever was marked before. How many.
pub fn put_order(
    rules: &Rules,
    choices: &[u16],
    done: &mut [u16],
    order: &mut [u16; PLACES],
) -> usize
    requires walk_in { WalkIn rules.now.boxes done.old × SomeJob rules.now.boxes rules.now.receivers.now rules.now.waits.now × (length order.old ≡ 1536) }
    requires every_job { EveryJobOf rules.now (λ j. length (run j choices.now) ≤ 1536) }
    ensures marks_from { MarksFrom rules.now.boxes done.old done.new }
    ensures every_job_2 { EveryJobOf rules.now (λ j. Ordered j choices.now done.new
        order.new result) }
{
    done[..marks(rules.boxes)].fill(0);
    let n = chosen(rules, choices, done, order);
    rest(rules, n, done, order)
}

// The first n words of an order are laid over a lent buffer, as far as it reaches.
pub fn lay_order(order: &[u16; PLACES], n: usize, picked: &mut [u16])
    requires { (n ≤ 1536) × (length order.now ≡ 1536) }
    ensures { picked.new ≡ lay_over (take n order.now) picked.old }
{
    let words = n.min(picked.len());
    picked[..words].copy_from_slice(&order[..words]);
}
