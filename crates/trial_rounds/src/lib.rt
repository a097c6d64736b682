// The rounds of a trial: in each, every box takes the step that it likes best of those that it had ready when the round began.
#![tactic(auto)]

ghost use Rattle.std.specs.Prelude.{◌≡◌, Bool, true, ℕ, ◌+◌, ◌-◌, ◌*◌, ◌/◌, ◌%◌, ◌≤◌, ◌<◌, eqb, length, get_or};
ghost use Rattle.laws.specs.Below.{count};
ghost use Rattle.laws.specs.Tables.{overwrite};
ghost use Rattle.step_places.specs.Order.{steps_in};
ghost use Rattle.run_ready.specs.Walk.{listed_of, WalkIn};
ghost use Rattle.run_ready.specs.Rows.{IsRows};
ghost use Rattle.run_order.specs.Order.{SomeJob, MarksFrom, EveryJobOf, SoFar};
ghost use Rattle.trial_rules.specs.Rounds.{is_preference, of_box};
ghost use Rattle.trial_rounds.specs.Taken.{Liking, Best, ActIn, Acted, RoundPart, AllRounds};

use run_ready::{ReadyRows, Rules};
use step_places::{KINDS, PLACES, Step};

// How many of the first six words of a list are this kind.
fn times(list: &[u16], kind: u16) -> usize
    requires { 6 ≤ length list.now }
    ensures { result ≡ count 6 (λ i. eqb (get_or list.now i 0) kind) }
{
    list[..KINDS].iter().filter(|x| **x == kind).count()
}

// 33: whether the first six words of a list are each of 1 to 6 once.
pub fn is_preference(list: &[u16]) -> bool
    requires { 6 ≤ length list.now }
    ensures { result ≡ is_preference list.now }
{
    (1u16..7).all(|kind| times(list, kind) == 1)
}

// The step that box a likes best of those that the rows have: the first by preference and then by second box.
fn best(k: u16, a: u16, list: &[u16], rows: &ReadyRows) -> Option<Step>
    requires { Liking k list.now × (a < k) }
    ensures { (f : ℕ → Bool) → IsRows k f rows.now → Best k list.now f a result }
{
    for kind in &list[..KINDS] {
        let r = run_ready_rows::row_at(k, *kind, a);
        let word = rows.words[r];
        if word != 0 {
            return Some(Step {
                kind: *kind,
                first: a,
                second: run_ready_rows::bit_at(k, 0, word),
            });
        }
    }
    None
}

// A step is taken, where there is one: it is word n of the order, and the rows that it can change are made anew.
// How many words the order has then.
fn act(
    rules: &Rules,
    s: Option<Step>,
    n: usize,
    done: &mut [u16],
    rows: &mut ReadyRows,
    order: &mut [u16; PLACES],
) -> usize
    requires { ActIn rules.now.boxes s rules.now.receivers.now rules.now.waits.now n done.old rows.old }
    ensures { Acted rules.now.boxes s rules.now.receivers.now rules.now.waits.now n done.old order.old done.new rows.new order.new result }
{
    let Some(p) = s else {
        return n;
    };
    run_order::put_step(rules.boxes, p, n, done, order);
    run_ready_renew::renew(rules, p, done, rows);
    n + 1
}

// A round: boxes in ascending number, each takes the step that it likes best of those ready when the round began, which are the rows `then`.
// How many words the order has then.
fn one_round(
    rules: &Rules,
    list: &[u16],
    then: &ReadyRows,
    n: usize,
    done: &mut [u16],
    rows: &mut ReadyRows,
    order: &mut [u16; PLACES],
) -> usize
    requires liking { Liking rules.now.boxes list.now × MarksFrom rules.now.boxes done.old done.old
        × SomeJob rules.now.boxes rules.now.receivers.now rules.now.waits.now }
    requires rows { IsRows rules.now.boxes (listed_of rules.now done.old) then.now }
    requires rows_2 { IsRows rules.now.boxes (listed_of rules.now done.old) rows.old }
    requires every_job { EveryJobOf rules.now (λ j. SoFar j done.old order.old n) }
    ensures marks_from { MarksFrom rules.now.boxes done.old done.new × IsRows rules.now.boxes (listed_of rules.now done.new) rows.new }
    ensures every_job_2 { EveryJobOf rules.now (λ j. RoundPart j list.now done.old order.old n rules.now.boxes done.new order.new result) }
{
    let mut words = n;
    for a in 0..rules.boxes {
        let s = best(rules.boxes, a, list, then);
        words = act(rules, s, words, done, rows, order);
    }
    words
}

// What a trial's rounds come to: how many steps the order has, and in how many rounds they are taken.
#[derive(Clone, Copy)]
pub struct Rounds {
    pub steps: usize,
    pub rounds: u16,
}

// The order of a trial with this preference list: its steps, round by round, the first words of `order`, and all of them marked, whatever was
// marked before.
pub fn put_rounds(
    rules: &Rules,
    list: &[u16],
    done: &mut [u16],
    order: &mut [u16; PLACES],
) -> Rounds
    requires { Liking rules.now.boxes list.now × WalkIn rules.now.boxes done.old
        × SomeJob rules.now.boxes rules.now.receivers.now rules.now.waits.now × (length order.old ≡ 1536) }
    ensures marks_from { MarksFrom rules.now.boxes done.old done.new }
    ensures every_job { EveryJobOf rules.now (λ j. AllRounds j list.now done.new order.new result.steps result.rounds) }
{
    done[..slices::bits::marks(rules.boxes)].fill(0);
    let mut rows = run_ready_rows::all_rows(rules, done);
    let mut steps: usize = 0;
    let mut rounds: u16 = 0;
    let mut ready = run_ready::ready_steps(rules.boxes, &rows);
    while ready != 0 {
        let then = rows;
        steps = one_round(rules, list, &then, steps, done, &mut rows, order);
        rounds += 1;
        ready = run_ready::ready_steps(rules.boxes, &rows);
    }
    Rounds { steps, rounds }
}

// The first box of the step of a place.
fn first_of(k: u16, place: u16) -> usize
    requires { 1 ≤ k }
    ensures { (result ≡ place / k % k) × (result < k) }
{
    usize::from(place / k % k)
}

// The idle rounds of each box: all but those in which it took a step, of which an order of n steps tells. A box that has finished is idle.
pub fn idle_rounds(k: u16, order: &[u16; PLACES], n: usize, rounds: u16, idle: &mut [u16])
    requires le_k { (1 ≤ k) × (k ≤ length idle.old) × (n ≤ 1536) × (length order.now ≡ 1536) }
    requires by_index { (b : ℕ) → of_box b (steps_in k n order.now) ≤ rounds }
    ensures { idle.new ≡ overwrite k (λ b. rounds - of_box b (steps_in k n order.now)) idle.old }
{
    idle[..usize::from(k)].fill(rounds);
    for place in &order[..n] {
        let b = first_of(k, *place);
        idle[b] -= 1;
    }
}
