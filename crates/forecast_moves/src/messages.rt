// Values and part sums sent and received: steps 1, 2, 4 and 5.
ghost use Rattle.std.specs.Prelude.{◌≡◌, ◌≤◌};
ghost use Rattle.forecast_moves.specs.Steps.{MessageIn, ValuesMoved, PartsMoved};

use forecast_doubles::moves::{copy_words, take_words};
use slices::amounts::row_start;
use step_places::Step;

// Step 1: the first box's values that the second needs are copied into its row of transit. Step 2: the words of the first box's row of transit
// that come from the second are taken and stand among the values that it knows.
pub fn move_values(
    n: usize,
    x: Step,
    owner: &[u16],
    needs: &[u16],
    known: &mut [f64],
    value_transit: &mut [f64],
)
    requires n_bound { (n ≤ 500) × ((x.kind ≡ 1 → ⊥) → x.kind ≡ 2) }
    requires message_in { MessageIn n x.first x.second owner.now needs.now known.old value_transit.old }
    ensures { ValuesMoved n x.kind x.first x.second owner.now needs.now known.old
        value_transit.old known.new value_transit.new }
{
    let a = x.first;
    let b = x.second;
    let row = row_start(n, a);
    if x.kind == 1 {
        copy_words(
            n,
            row,
            row_start(n, b),
            a,
            b,
            owner,
            needs,
            known,
            value_transit,
        );
        return;
    }
    take_words(n, row, b, a, owner, needs, value_transit, known);
}

// Step 4: the first box's part sums of the second's grocers are taken into transit. Step 5: those of the second box in transit to the first are
// held, in the row of the sender.
pub fn move_parts(
    m: usize,
    x: Step,
    owner: &[u16],
    sharers: &[u16],
    part: &mut [f64],
    part_transit: &mut [f64],
    held: &mut [f64],
)
    requires m_bound { (m ≤ 255) × ((x.kind ≡ 4 → ⊥) → x.kind ≡ 5) }
    requires message_in { MessageIn m x.first x.second owner.now sharers.now part.old part_transit.old }
    requires message_in_2 { MessageIn m x.first x.second owner.now sharers.now held.old part_transit.old }
    ensures { PartsMoved m x.kind x.first x.second owner.now sharers.now part.old
        part_transit.old held.old part.new part_transit.new held.new }
{
    let a = x.first;
    let b = x.second;
    if x.kind == 4 {
        take_words(m, row_start(m, a), b, a, owner, sharers, part, part_transit);
        return;
    }
    take_words(m, row_start(m, b), a, b, owner, sharers, part_transit, held);
}
