// What refuses a cycle, in order: 20, 21, 35, 36 and the late 21.
ghost use Rattle.std.specs.Prelude.{◌≡◌, ℕ, ◌*◌, ◌≤◌, length};
ghost use Rattle.cycle_history.specs.Store.{cycles, given, store_short, store_in_range, store_refusal};
ghost use Rattle.refusals.specs.Numbers.{number};
ghost use Rattle.cycle_store.specs.Lent.{store_held};

use crate::limits::{CYCLES, MAX_HELD, MAX_KEPT, MAX_NEXT, MIN_HELD, MIN_KEPT, all_within};
use crate::sums::{Change, gap};
use refusals::Refusal;
use slices::limits::MAX_GROCERS;
use slices::u32_at;

// A store, as it is lent to be read: one more than the last stored cycle, thirteen rows of amounts, and each grocer's sum.
#[derive(Clone, Copy)]
pub struct Store<'a> {
    pub next: &'a [u32],
    pub held: &'a [i64],
    pub sums: &'a [i64],
}

// 20: whether the amounts or a table of the store are shorter than M as given needs.
fn store_short(m: u16, amounts: &[i64], store: &Store) -> bool
    ensures { (cycle : ℕ) → result ≡ store_short m (store_held store.now) (given cycle amounts.now) }
{
    let n = usize::from(m);
    (store.next.len() < 1)
        | (store.held.len() < CYCLES * n)
        | (store.sums.len() < n)
        | (amounts.len() < n)
}

// 21: whether M and every word of the store are in range.
fn store_in_range(m: u16, store: &Store) -> bool
    requires { (1 ≤ length store.now.next.now) × ((cycles * m ≤ length store.now.held.now) × (m ≤ length store.now.sums.now)) }
    ensures { result ≡ store_in_range m (store_held store.now) }
{
    let n = usize::from(m);
    let next = u32_at(store.next, 0);
    let amounts = all_within(store.held, CYCLES * n, MIN_HELD, MAX_HELD);
    let totals = all_within(store.sums, n, MIN_KEPT, MAX_KEPT);
    ((1 <= m) & (m <= MAX_GROCERS)) & (next <= MAX_NEXT) & amounts & totals
}

// The first condition that is met, if one is.
pub fn refusal(grocers: u16, cycle: u16, amounts: &[i64], store: &Store) -> Result<(), Refusal>
    ensures { number result ≡ store_refusal grocers (store_held store.now) (given cycle amounts.now) }
{
    if store_short(grocers, amounts, store) {
        return Err(Refusal::LentShort);
    }
    if !store_in_range(grocers, store) {
        return Err(Refusal::OutOfRange);
    }
    let last = u32_at(store.next, 0);
    if u32::from(cycle) < last {
        return Err(Refusal::CyclePast);
    }
    let m = usize::from(grocers);
    if !all_within(amounts, m, MIN_HELD, MAX_HELD) {
        return Err(Refusal::AmountTooLarge);
    }
    let change = Change {
        m: m,
        k: gap(last, cycle),
        amounts: amounts,
        held: store.held,
    };
    if !change.sums_fit(store.sums) {
        return Err(Refusal::OutOfRange);
    }
    Ok(())
}
