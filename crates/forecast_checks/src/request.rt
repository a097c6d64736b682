// The conditions 22 to 26 of a request for a forecast's step, from the words of receivers and senders and the marks of steps done. (Kinds stay numbers:
// a request may ask for any, and marks have their places by them.)
ghost use Rattle.std.specs.Prelude.{◌≡◌, ◌&&◌, ◌*◌, ◌≤◌, ◌<◌, ltb, length};
ghost use Rattle.laws.specs.Checks.{first_met};
ghost use Rattle.model.specs.Step.{asked, is_kind};
ghost use Rattle.refusals.specs.Numbers.{number};
ghost use Rattle.step_places.specs.Marks.{MarksIn};
ghost use Rattle.forecast_rules.specs.Steps.{kind_of};
ghost use Rattle.forecast_rules.specs.Tables.{from_marks};
ghost use Rattle.forecast_checks.specs.Rules.{boxes_asked, fits_by, due_done, all_due_by, ready_by, rules_by};

use refusals::Refusal;
use slices::limits::BOXES;
use step_places::words::reaches;
use step_rules::marks::is_done;

// Whether the kind is 1 to 6.
fn is_kind(kind: u16) -> bool
    ensures { result ≡ is_kind kind }
{
    (1 <= kind) & (kind <= 6)
}

// Whether both boxes are below k, and equal for kinds 3 and 6 and not for the others.
fn boxes_fit(k: u16, kind: u16, a: u16, b: u16) -> bool
    requires { (1 ≤ kind) × (kind ≤ 6) }
    ensures { result ≡ (ltb a k && (ltb b k && boxes_asked (kind_of kind) a b)) }
{
    let one = (kind == 3) | (kind == 6);
    (a < k) & ((b < k) & ((one & (a == b)) | (!one & (a != b))))
}

// Whether the forecast has the step: for a message, that it has words.
fn fits(kind: u16, a: u16, b: u16, receivers: &[u16; BOXES], senders: &[u16; BOXES]) -> bool
    requires { (1 ≤ kind) × ((kind ≤ 6) × ((a < 16) × (b < 16))) }
    ensures { result ≡ fits_by receivers.now senders.now (kind_of kind) a b }
{
    match kind {
        1 => reaches(receivers, a, b),
        2 => reaches(receivers, b, a),
        4 => reaches(senders, b, a),
        5 => reaches(senders, a, b),
        _ => a == b,
    }
}

// Whether a step that the forecast has is done, for the second box c.
fn due_done(
    k: u16,
    kind: u16,
    a: u16,
    c: u16,
    receivers: &[u16; BOXES],
    senders: &[u16; BOXES],
    done: &[u16],
) -> bool
    requires { MarksIn k kind a c done.now }
    ensures { result ≡ due_done receivers.now senders.now (from_marks k done.now) (kind_of kind) a c }
{
    !fits(kind, a, c, receivers, senders) | is_done(k, kind, a, c, done)
}

// Whether every due step of this kind of box a is done.
fn all_due(
    k: u16,
    kind: u16,
    a: u16,
    receivers: &[u16; BOXES],
    senders: &[u16; BOXES],
    done: &[u16],
) -> bool
    requires { MarksIn k kind a a done.now }
    ensures { result ≡ all_due_by k receivers.now senders.now (from_marks k done.now) (kind_of kind) a }
{
    let mut all = true;
    for c in 0..k {
        let one = due_done(k, kind, a, c, receivers, senders, done);
        all = all & one;
    }
    all
}

// Whether the steps done make a step ready.
fn is_ready(
    k: u16,
    kind: u16,
    a: u16,
    b: u16,
    receivers: &[u16; BOXES],
    senders: &[u16; BOXES],
    done: &[u16],
) -> bool
    requires { MarksIn k kind a b done.now }
    ensures { result ≡ ready_by k receivers.now senders.now (from_marks k done.now) (kind_of kind) a b }
{
    match kind {
        2 => is_done(k, 1, b, a, done),
        3 => all_due(k, 2, a, receivers, senders, done),
        4 => is_done(k, 3, a, a, done),
        5 => is_done(k, 4, b, a, done),
        6 => is_done(k, 3, a, a, done) & all_due(k, 5, a, receivers, senders, done),
        _ => true,
    }
}

// The first of the conditions 22 to 26 that is met. Words and marks are looked at only where both boxes are below k.
pub fn request_refusal(
    k: u16,
    kind: u16,
    a: u16,
    b: u16,
    receivers: &[u16; BOXES],
    senders: &[u16; BOXES],
    done: &[u16],
) -> Result<(), Refusal>
    requires { (k ≤ 16) × (6 * k * k ≤ length done.now) }
    ensures { number result ≡ first_met (rules_by k receivers.now senders.now (from_marks k done.now) (asked kind a b)) }
{
    if !is_kind(kind) {
        return Err(Refusal::NoSuchKind);
    }
    if !boxes_fit(k, kind, a, b) {
        return Err(Refusal::NoSuchBoxes);
    }
    if !fits(kind, a, b, receivers, senders) {
        return Err(Refusal::NoSuchStep);
    }
    if is_done(k, kind, a, b, done) {
        return Err(Refusal::AlreadyDone);
    }
    if !is_ready(k, kind, a, b, receivers, senders, done) {
        return Err(Refusal::NotReady);
    }
    Ok(())
}
