// The list of ready steps, kept as rows of words and counts: how many steps are ready.
#![tactic(auto)]

ghost use Rattle.std.specs.Prelude.{◌≡◌, ◌+◌, ◌*◌, ◌≤◌, ◌<◌, sum};
ghost use Rattle.run_ready.specs.Rows.{rows_total, FewRows};

use slices::limits::BOXES;
use step_places::KINDS;

// The rows among the most boxes, one for each kind and first box: 96.
pub const ROWS: usize = KINDS * BOXES;

// The list of ready steps by rows: the word of each row, with one bit for each second box, and the number of its bits.
#[derive(Clone, Copy)]
pub struct ReadyRows {
    pub words: [u16; ROWS],
    pub counts: [u16; ROWS],
}

// Which steps a job has, and which of them wait for which: its boxes, the words of receivers, and the words of waits.
#[derive(Clone, Copy)]
pub struct Rules<'a> {
    pub boxes: u16,
    pub receivers: &'a [u16; BOXES],
    pub waits: &'a [[u16; BOXES]; BOXES],
}

// The sum of counts that is known to fit.
fn total(counts: &[u16]) -> u16
    requires { sum counts.now < 65536 }
    ensures { result ≡ sum counts.now }
{
    counts.iter().sum()
}

// The number of places of n rows, from row `first` on.
pub fn places_in(k: u16, first: u16, n: u16, rows: &ReadyRows) -> u16
    requires { FewRows k rows.now × (first + n ≤ 6 * k) }
    ensures { result + rows_total rows.now first ≡ rows_total rows.now (first + n) }
{
    prove!(first + n <= 6 * k);
    let from = usize::from(first);
    total(&rows.counts[from..from + usize::from(n)])
}

// The number of ready steps: the rows together.
pub fn ready_steps(k: u16, rows: &ReadyRows) -> u16
    requires { FewRows k rows.now }
    ensures { result ≡ rows_total rows.now (6 * k) }
{
    places_in(k, 0, 6 * k, rows)
}
