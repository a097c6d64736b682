// The marks of steps done.
ghost use Rattle.std.specs.Prelude.{◌≡◌, true, ◌*◌, ◌≤◌, ◌<◌, set};
ghost use Rattle.model.specs.Steps.{kind_of, step_place};
ghost use Rattle.model.specs.Ranges.{up_to};
ghost use Rattle.model.specs.Tables.{steps_done};
ghost use Rattle.step_places.specs.Marks.{MarksIn, marked};

// The place of a step among the marks of k boxes. Kind and boxes are three numbers here and in `ready`, since callers go over them one by one and have no
// `Step` at hand.
pub fn place(k: u16, kind: u16, a: u16, b: u16) -> usize
    requires { (1 ≤ kind) × ((kind ≤ 6) × ((k ≤ 16) × ((a < k) × (b < k)))) }
    ensures { result ≡ step_place k kind a b }
{
    let row = (kind - 1) * k + a;
    usize::from(row * k + b)
}

// Marks a step as done.
pub fn mark(k: u16, kind: u16, a: u16, b: u16, done: &mut [u16])
    requires marks_in { MarksIn k kind a b done.old }
    requires done_value { up_to 1 (6 * k * k) done.old ≡ true }
    ensures { (done.new ≡ marked k (kind_of kind) a b done.old) ×
        (done.new ≡ set done.old (step_place k kind a b) 1) }
{
    let i = place(k, kind, a, b);
    done[i] = 1;
}

// Whether a step is marked as done.
pub fn is_done(k: u16, kind: u16, a: u16, b: u16, done: &[u16]) -> bool
    requires { MarksIn k kind a b done.now }
    ensures { result ≡ steps_done k done.now (kind_of kind) a b }
{
    let i = place(k, kind, a, b);
    done[i] == 1
}
