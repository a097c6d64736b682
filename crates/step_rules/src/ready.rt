// The conditions 22 to 26 of a step, from the words of receivers and waits and the marks of steps done.
ghost use Rattle.std.specs.Prelude.{◌≡◌, Bool, ◌&&◌, ◌||◌, not, ℕ, ◌*◌, ◌≤◌, ◌<◌, eqb, length};
ghost use Rattle.laws.specs.Below.{all};
ghost use Rattle.laws.specs.Checks.{first_met};
ghost use Rattle.laws.specs.Masks.{bit, mask_of};
ghost use Rattle.model.specs.Steps.{kind_of, one_box};
ghost use Rattle.model.specs.Step.{asked, is_kind};
ghost use Rattle.model.specs.Tables.{steps_done};
ghost use Rattle.step_places.specs.Marks.{MarksIn};
ghost use Rattle.step_rules.specs.Rules.{word_at, totals_due_by, fits_by, has_got, all_got, ready_by, permitted_by, BoxIn};

use crate::marks::is_done;
use step_places::words::reaches;

// The word of boxes a and b.
pub fn word_at(waits: &[[u16; 16]; 16], a: u16, b: u16) -> u16
    requires { (a < 16) × (b < 16) }
    ensures { result ≡ word_at waits.now a b }
{
    waits[usize::from(a)][usize::from(b)]
}

// Whether totals go from box a to box b.
fn totals_due(waits: &[[u16; 16]; 16], a: u16, b: u16) -> bool
    requires { (a < 16) × (b < 16) }
    ensures { result ≡ totals_due_by waits.now a b }
{
    (a != b) & (word_at(waits, a, b) != 0)
}

// Whether the job has the step: for a message, that it has words.
pub fn fits(kind: u16, a: u16, b: u16, receivers: &[u16; 16], waits: &[[u16; 16]; 16]) -> bool
    requires { (1 ≤ kind) × (kind ≤ 6) × (a < 16) × (b < 16) }
    ensures { result ≡ fits_by receivers.now waits.now (kind_of kind) a b }
{
    match kind {
        1 => reaches(receivers, a, b),
        3 => reaches(receivers, b, a),
        4 => totals_due(waits, a, b),
        6 => totals_due(waits, b, a),
        _ => a == b,
    }
}

// Whether box a has the prices of box o and has added its tallies of them.
fn has_got(k: u16, a: u16, o: u16, done: &[u16]) -> bool
    requires box_in { BoxIn k a done.now }
    requires o_lt_k { o < k }
    ensures { result ≡ has_got (steps_done k done.now) a o }
{
    if o == a {
        return is_done(k, 2, a, a, done);
    }
    is_done(k, 3, a, o, done)
}

// The word with bit b set where the test holds. There is no branch, since none could be foreseen.
pub fn with_bit(word: u16, b: u16, test: bool) -> u16
    requires { b < 16 }
    ensures { (f : ℕ → Bool) → word ≡ mask_of 16 f → result ≡ mask_of 16 (λ o. f o || (test && eqb b o)) }
{
    word | (u16::from(test) << b)
}

// The boxes whose prices box a has, one bit each.
pub fn got(k: u16, a: u16, done: &[u16]) -> u16
    requires { BoxIn k a done.now }
    ensures { result ≡ mask_of 16 (has_got (steps_done k done.now) a) }
{
    let mut word: u16 = 0;
    for o in 0..k {
        word = with_bit(word, o, has_got(k, a, o, done));
    }
    word
}

// Whether every bit of the word is set in `got` too.
pub fn covers(got: u16, word: u16) -> bool
    ensures { result ≡ all 16 (λ o. not (bit o word) || bit o got) }
{
    word & !got == 0
}

// Whether box a has got all that its totals of box b's grocers wait for.
fn has_all(k: u16, a: u16, b: u16, waits: &[[u16; 16]; 16], done: &[u16]) -> bool
    requires box_in { BoxIn k a done.now }
    requires b_bound { b < 16 }
    ensures { result ≡ all_got waits.now (steps_done k done.now) a b }
{
    covers(got(k, a, done), word_at(waits, a, b))
}

// Whether the steps done make a step ready.
pub fn is_ready(k: u16, kind: u16, a: u16, b: u16, waits: &[[u16; 16]; 16], done: &[u16]) -> bool
    requires { MarksIn k kind a b done.now }
    ensures { result ≡ ready_by waits.now (steps_done k done.now) (kind_of kind) a b }
{
    match kind {
        3 => is_done(k, 1, b, a, done),
        4 => has_all(k, a, b, waits, done),
        5 => has_all(k, a, a, waits, done),
        6 => is_done(k, 4, b, a, done),
        _ => true,
    }
}

// Whether a step is permitted: the job has it, it is not done, and the steps done make it ready.
pub fn permitted(
    k: u16,
    kind: u16,
    a: u16,
    b: u16,
    receivers: &[u16; 16],
    waits: &[[u16; 16]; 16],
    done: &[u16],
) -> bool
    requires { MarksIn k kind a b done.now }
    ensures { result ≡ permitted_by receivers.now waits.now (steps_done k done.now) (kind_of kind) a b }
{
    if !fits(kind, a, b, receivers, waits) {
        return false;
    }
    if is_done(k, kind, a, b, done) {
        return false;
    }
    is_ready(k, kind, a, b, waits, done)
}
