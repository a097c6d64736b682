// The steps that a job has, told from words of one bit for each box.
ghost use Rattle.std.specs.Prelude.{◌≡◌, ◌≤◌, ◌<◌};
ghost use Rattle.model.specs.Steps.{kind_of};
ghost use Rattle.job_masks.specs.Due.{due_by};

use step_places::words::reaches;

// Whether the job has a step. Its kind is a number, 1 to 6, as the place of a step tells it: an enum would be made of it for this call alone.
pub fn is_due(kind: u16, a: u16, b: u16, receivers: &[u16; 16], senders: &[u16; 16]) -> bool
    requires { (1 ≤ kind) × (kind ≤ 6) × (a < 16) × (b < 16) }
    ensures { result ≡ due_by receivers.now senders.now (kind_of kind) a b }
{
    match kind {
        1 => reaches(receivers, a, b),
        3 => reaches(receivers, b, a),
        4 => reaches(senders, b, a),
        6 => reaches(senders, a, b),
        _ => a == b,
    }
}
