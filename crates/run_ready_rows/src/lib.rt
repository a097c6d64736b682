// The ready steps by rows. Row (kind - 1) * k + a has the places of one kind and of first box a: a word with one bit for each second box, and their number.
#![tactic(auto)]

ghost use Rattle.std.specs.Prelude.{◌≡◌, Bool, true, ℕ, ◌+◌, ◌*◌, ◌≤◌, ◌<◌, List, length};
ghost use Rattle.laws.specs.Below.{count, nth};
ghost use Rattle.laws.specs.Masks.{bit, mask_of};
ghost use Rattle.model.specs.Steps.{kind_of, send_totals, add_own};
ghost use Rattle.model.specs.Tables.{steps_done};
ghost use Rattle.step_rules.specs.Rules.{has_got, permitted_by, BoxIn};
ghost use Rattle.step_places.specs.Places.{Found};
ghost use Rattle.run_ready.specs.Walk.{listed_of, WalkIn};
ghost use Rattle.run_ready.specs.Rows.{row_of, IsLong, RowIn, IsRows, rows_total, FewRows, Renewed};

use run_ready::{ROWS, ReadyRows, Rules, places_in};
use slices::bits::has_bit;
use step_places::Step;
use step_rules::marks::is_done;
use step_rules::ready::{covers, got, permitted, with_bit, word_at};

// The row of a kind and a first box.
pub fn row_at(k: u16, kind: u16, a: u16) -> usize
    requires { (1 ≤ kind) × (kind ≤ 6) × (k ≤ 16) × (a < k) }
    ensures { (result ≡ row_of k kind a) × (result < 96) }
{
    usize::from((kind - 1) * k + a)
}

// Row r gets this word and this number.
pub fn put_row(r: usize, word: u16, number: u16, rows: &mut ReadyRows)
    requires { (r < 96) × (IsLong rows.old) }
    ensures { (k : ℕ) (f : ℕ → Bool) → word ≡ mask_of k f → number ≡ count k f → Renewed k f r rows.old rows.new }
{
    rows.words[r] = word;
    rows.counts[r] = number;
}

// Row r gets this word, and the number of its bits.
fn put_word(r: usize, word: u16, rows: &mut ReadyRows)
    requires { (r < 96) × (IsLong rows.old) }
    ensures { (k : ℕ) (f : ℕ → Bool) → word ≡ mask_of k f → Renewed k f r rows.old rows.new }
{
    let number = u16::count_ones(word) as u16;
    put_row(r, word, number, rows);
}

// Whether the totals of box a for box b can be sent, where a has the prices of the boxes in `got`.
fn can_send(rules: &Rules, a: u16, b: u16, got: u16, done: &[u16]) -> bool
    requires { let k = rules.now.boxes in BoxIn k a done.now × (b < k) × (got ≡ mask_of 16 (has_got (steps_done k done.now) a)) }
    ensures { (receivers : List ℕ) → result ≡ permitted_by receivers rules.now.waits.now (steps_done rules.now.boxes done.now) send_totals a b }
{
    let word = word_at(rules.waits, a, b);
    let marked = is_done(rules.boxes, 4, a, b, done);
    ((a != b) & (word != 0)) & (!marked & covers(got, word))
}

// The boxes that box a can send its totals to, one bit each.
fn send_word(rules: &Rules, a: u16, got: u16, done: &[u16]) -> u16
    requires { let k = rules.now.boxes in BoxIn k a done.now × (got ≡ mask_of 16 (has_got (steps_done k done.now) a)) }
    ensures { let k = rules.now.boxes in (receivers : List ℕ) →
        result ≡ mask_of k (permitted_by receivers rules.now.waits.now (steps_done k done.now) send_totals a) }
{
    let mut word: u16 = 0;
    for b in 0..rules.boxes {
        word = with_bit(word, b, can_send(rules, a, b, got, done));
    }
    word
}

// Row 4 of box a is made anew.
pub fn renew_sends(rules: &Rules, a: u16, got: u16, done: &[u16], rows: &mut ReadyRows)
    requires box_in { let k = rules.now.boxes in BoxIn k a done.now × (got ≡ mask_of 16 (has_got (steps_done k done.now) a)) }
    requires rows_len { IsLong rows.old }
    ensures { let k = rules.now.boxes in (receivers : List ℕ) →
        Renewed k (permitted_by receivers rules.now.waits.now (steps_done k done.now) send_totals a) (row_of k 4 a) rows.old rows.new }
{
    let word = send_word(rules, a, got, done);
    let r = row_at(rules.boxes, 4, a);
    put_word(r, word, rows);
}

// Row 5 of box a is made anew: it has one place.
pub fn renew_own(rules: &Rules, a: u16, got: u16, done: &[u16], rows: &mut ReadyRows)
    requires box_in { let k = rules.now.boxes in BoxIn k a done.now × (got ≡ mask_of 16 (has_got (steps_done k done.now) a)) }
    requires rows_len { IsLong rows.old }
    ensures { let k = rules.now.boxes in (receivers : List ℕ) →
        Renewed k (permitted_by receivers rules.now.waits.now (steps_done k done.now) add_own a) (row_of k 5 a) rows.old rows.new }
{
    let marked = is_done(rules.boxes, 5, a, a, done);
    let ready = !marked & covers(got, word_at(rules.waits, a, a));
    let word = with_bit(0, a, ready);
    let r = row_at(rules.boxes, 5, a);
    put_row(r, word, u16::from(ready), rows);
}

// The second boxes of the ready steps of one kind and first box, one bit each.
// Its loop stands beside send_word's: each asks another question of a box, and a closure would have to carry what both promise.
fn row_word(rules: &Rules, kind: u16, a: u16, done: &[u16]) -> u16
    requires { RowIn rules.now.boxes kind a done.now }
    ensures { let k = rules.now.boxes in
        result ≡ mask_of k (permitted_by rules.now.receivers.now rules.now.waits.now (steps_done k done.now) (kind_of kind) a) }
{
    let k = rules.boxes;
    if kind == 4 {
        return send_word(rules, a, got(k, a, done), done);
    }
    let mut word: u16 = 0;
    for b in 0..k {
        word = with_bit(
            word,
            b,
            permitted(k, kind, a, b, rules.receivers, rules.waits, done),
        );
    }
    word
}

// Rows without a place.
fn no_rows() -> ReadyRows
    ensures { IsLong result }
{
    ReadyRows {
        words: [0; ROWS],
        counts: [0; ROWS],
    }
}

// All rows are made.
pub fn all_rows(rules: &Rules, done: &[u16]) -> ReadyRows
    requires { WalkIn rules.now.boxes done.now }
    ensures { IsRows rules.now.boxes (listed_of rules.now done.now) result }
{
    let mut rows = no_rows();
    let k = rules.boxes;
    for r in 0..6 * k {
        let word = row_word(rules, r / k + 1, r % k, done);
        put_word(usize::from(r), word, &mut rows);
    }
    rows
}

// All rows are made, where there are choices to use them.
pub fn rows_for(choices: usize, rules: &Rules, done: &[u16]) -> ReadyRows
    requires { WalkIn rules.now.boxes done.now }
    ensures { 1 ≤ choices → IsRows rules.now.boxes (listed_of rules.now done.now) result }
{
    if choices == 0 {
        return no_rows();
    }
    all_rows(rules, done)
}

// The bit of a word that has c bits before it, of its first k, where it has more than c.
pub fn bit_at(k: u16, c: u16, word: u16) -> u16
    requires { k ≤ 16 }
    ensures { c < count k (λ b. bit b word) → (result < k) × (bit result word ≡ true) × (count result (λ b. bit b word) ≡ c) }
{
    let mut left = c;
    for b in 0..k {
        let set = has_bit(word, b);
        if set & (left == 0) {
            return b;
        }
        let less = u16::from(set);
        left -= less;
    }
    0
}

// The place that has c places before it, of k rows from row `first` on, where they have more than c.
// Any step is the answer where they have not: no caller asks then, and an Option would only have to be taken apart again.
fn find_row(k: u16, first: u16, c: u16, rows: &ReadyRows) -> Step
    requires { (1 ≤ k) × (k ≤ 16) × (first + k ≤ 6 * k) }
    ensures { (f : ℕ → Bool) → IsRows k f rows.now → c + rows_total rows.now first < rows_total rows.now (first + k) →
        Found k (nth (6 * k * k) f (c + rows_total rows.now first)) result.kind result.first result.second }
{
    let mut left = c;
    for i in 0..k {
        let r = first + i;
        let at = r as usize;
        let found = rows.counts[at];
        if left < found {
            return Step {
                kind: r / k + 1,
                first: r % k,
                second: bit_at(k, left, rows.words[at]),
            };
        }
        left -= found;
    }
    Step {
        kind: 1,
        first: 0,
        second: 0,
    }
}

// The place that has c places before it, of those that the rows have, or any step: kinds are passed, then rows, and then bits of one row's word.
pub fn find_in(k: u16, c: u16, rows: &ReadyRows) -> Step
    requires { (1 ≤ k) × FewRows k rows.now }
    ensures { (f : ℕ → Bool) → IsRows k f rows.now → c < count (6 * k * k) f →
        Found k (nth (6 * k * k) f c) result.kind result.first result.second }
{
    let mut left = c;
    for q in 0u16..6 {
        let found = places_in(k, q * k, k, rows);
        if left < found {
            return find_row(k, q * k, left, rows);
        }
        left -= found;
    }
    Step {
        kind: 1,
        first: 0,
        second: 0,
    }
}
