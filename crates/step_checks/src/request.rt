// The conditions 22 to 26 of a request, from the words of receivers and waits and the marks of steps done.
ghost use Rattle.std.specs.Prelude.{◌≡◌, ◌*◌, ◌≤◌, length};
ghost use Rattle.laws.specs.Checks.{first_met};
ghost use Rattle.refusals.specs.Numbers.{number};
ghost use Rattle.model.specs.Steps.{kind_of, one_box};
ghost use Rattle.model.specs.Step.{asked, is_kind};
ghost use Rattle.model.specs.Tables.{steps_done};
ghost use Rattle.step_checks.specs.Request.{boxes_fit_by, rules_by};

use refusals::Refusal;
use slices::limits::BOXES;
use step_places::Step;
use step_rules::marks::is_done;
use step_rules::ready::{fits, is_ready};

// Whether the kind is 1 to 6.
fn is_kind(kind: u16) -> bool
    ensures { result ≡ is_kind kind }
{
    (1 <= kind) & (kind <= 6)
}

// Whether the kind, 1 to 6, is one whose second box equals its first.
fn one_box(kind: u16) -> bool
    requires { (1 ≤ kind) × (kind ≤ 6) }
    ensures { result ≡ one_box (kind_of kind) }
{
    (kind == 2) | (kind == 5)
}

// Whether both boxes are below k, and equal or not as the kind asks.
fn boxes_fit(k: u16, x: Step) -> bool
    requires { (1 ≤ x.kind) × (x.kind ≤ 6) }
    ensures { result ≡ boxes_fit_by k (kind_of x.kind) x.first x.second }
{
    let one = one_box(x.kind);
    let same = x.first == x.second;
    (x.first < k) & ((x.second < k) & ((one & same) | (!one & !same)))
}

// The first of the conditions 22 to 26 that is met. Tables and marks are looked at only where both boxes are below k.
pub fn request_refusal(
    k: u16,
    x: Step,
    receivers: &[u16; BOXES],
    waits: &[[u16; BOXES]; BOXES],
    done: &[u16],
) -> Result<(), Refusal>
    requires { (k ≤ 16) × (6 * k * k ≤ length done.now) }
    ensures { number result ≡ first_met (rules_by k receivers.now waits.now (steps_done k done.now) (asked x.kind x.first x.second)) }
{
    if !is_kind(x.kind) {
        return Err(Refusal::NoSuchKind);
    }
    if !boxes_fit(k, x) {
        return Err(Refusal::NoSuchBoxes);
    }
    if !fits(x.kind, x.first, x.second, receivers, waits) {
        return Err(Refusal::NoSuchStep);
    }
    if is_done(k, x.kind, x.first, x.second, done) {
        return Err(Refusal::AlreadyDone);
    }
    if !is_ready(k, x.kind, x.first, x.second, waits, done) {
        return Err(Refusal::NotReady);
    }
    Ok(())
}
