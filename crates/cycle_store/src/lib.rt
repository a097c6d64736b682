// The store of the latest thirteen cycles' amounts, and each grocer's sum over them.
#![tactic(auto)]

ghost use Rattle.std.specs.Prelude.{◌≡◌};
ghost use Rattle.cycle_history.specs.Store.{store, given, stored, store_outcome};
ghost use Rattle.cycle_store.specs.Answer.{answer_of};

pub mod conditions;
pub mod limits;
pub mod rows;
pub mod sums;

use crate::conditions::{Store, refusal};
use crate::sums::{Change, gap};
use refusals::Refusal;

// Stores a cycle's amounts, one for each of the store's grocers, and keeps each grocer's sum over this cycle and the twelve numbers before it.
// M, the cycle and every lent word may be anything. Where it is refused, the store is left as it was. The three tables that are written are no
// struct: the check covers no call that is lent one slice of a struct to write beside another to read.
pub fn store_cycle(
    grocers: u16,
    cycle: u16,
    amounts: &[i64],
    next: &mut [u32],
    held: &mut [i64],
    sums: &mut [i64],
) -> Result<(), Refusal>
    ensures { store_outcome (answer_of result) (store next.new held.new sums.new)
        ≡ stored grocers (store next.old held.old sums.old) (given cycle amounts.now) }
{
    let store = Store {
        next: next,
        held: held,
        sums: sums,
    };
    refusal(grocers, cycle, amounts, &store)?;
    let m = usize::from(grocers);
    let k = gap(slices::u32_at(next, 0), cycle);
    let change = Change {
        m: m,
        k: k,
        amounts: amounts,
        held: held,
    };
    change.keep_sums(sums);
    rows::move_rows(m, k, amounts, held);
    next[0] = u32::from(cycle) + 1;
    Ok(())
}
