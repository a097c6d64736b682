// The rows after a step is marked: those that it can change are right again.
#![tactic(auto)]

ghost use Rattle.std.specs.Prelude.{◌≡◌, Bool, true, false, ◌&&◌, ◌||◌, not, ℕ, eqb};
ghost use Rattle.step_places.specs.Marks.{MarksIn};
ghost use Rattle.run_ready.specs.Walk.{listed_of};
ghost use Rattle.run_ready.specs.Rows.{row_of, HasRow, IsRows, Renewed, PlaceOf, RowsBefore};

use run_ready::{ReadyRows, Rules};
use run_ready_rows::{put_row, row_at};
use step_places::Step;

// A row loses a place that it has.
fn one_less(k: u16, kind: u16, a: u16, b: u16, rows: &mut ReadyRows)
    requires { PlaceOf k kind a b 1 rows.old }
    ensures { (f : ℕ → Bool) → HasRow k f (row_of k kind a) rows.old → f b ≡ true →
        Renewed k (λ i. f i && not (eqb b i)) (row_of k kind a) rows.old rows.new }
{
    let r = row_at(k, kind, a);
    let word = slices::bits::clear_bit(rows.words[r], b);
    let number = rows.counts[r] - 1;
    put_row(r, word, number, rows);
}

// A row gets a place that it lacks, where the test holds.
fn one_more(k: u16, kind: u16, a: u16, b: u16, test: bool, rows: &mut ReadyRows)
    requires { PlaceOf k kind a b 0 rows.old }
    ensures { (f : ℕ → Bool) → HasRow k f (row_of k kind a) rows.old → f b ≡ false →
        Renewed k (λ i. f i || (test && eqb b i)) (row_of k kind a) rows.old rows.new }
{
    let r = row_at(k, kind, a);
    let word = step_rules::ready::with_bit(rows.words[r], b, test);
    let number = rows.counts[r] + u16::from(test);
    put_row(r, word, number, rows);
}

// After a step is marked: its own row has one ready step less; where it sent a message, the receiver's has one more;
// and where it multiplied prices, the rows of its box's totals are made anew.
pub fn renew(rules: &Rules, p: Step, done: &[u16], rows: &mut ReadyRows)
    requires marks_in { MarksIn rules.now.boxes p.kind p.first p.second done.now }
    requires rows_before { RowsBefore rules.now.boxes p.kind p.first p.second rules.now.receivers.now rules.now.waits.now done.now rows.old }
    ensures { IsRows rules.now.boxes (listed_of rules.now done.now) rows.new }
{
    let k = rules.boxes;
    let kind = p.kind;
    let a = p.first;
    let b = p.second;
    one_less(k, kind, a, b, rows);
    if (kind == 1) | (kind == 4) {
        let ready = step_rules::ready::permitted(
            k,
            kind + 2,
            b,
            a,
            rules.receivers,
            rules.waits,
            done,
        );
        one_more(k, kind + 2, b, a, ready, rows);
        return;
    }
    if (kind != 2) & (kind != 3) {
        return;
    }
    let got = step_rules::ready::got(k, a, done);
    run_ready_rows::renew_sends(rules, a, got, done, rows);
    run_ready_rows::renew_own(rules, a, got, done, rows);
}
