// The sums of a store, kept up to date: what leaves, and what comes.
ghost use Rattle.std.specs.Prelude.{◌≡◌, true, ◌+◌, ◌*◌, ◌-◌, ◌≤◌, ◌<◌, min, leb, pos, nat_abs, ◌+ℤ◌, ◌-ℤ◌, length, get_or};
ghost use Rattle.std.specs.Int.{w64};
ghost use Rattle.std.proofs.Common.{SFits};
ghost use Rattle.laws.specs.Below.{all};
ghost use Rattle.laws.specs.Tables.{overwrite};
ghost use Rattle.model.specs.Ranges.{around};
ghost use Rattle.cycle_history.specs.Store.{cycles, max_kept};
ghost use Rattle.cycle_store.specs.Moved.{SumsIn, KeptIn, rows_leaving, sum_next};

use crate::limits::{CYCLES, MAX_KEPT, MIN_KEPT, is_within};
use slices::amounts::plus;
use slices::i64_at;

// As many numbers on, all rows leave.
const FAR: u32 = CYCLES as u32;

// How many numbers on a cycle is, at most thirteen: so many rows leave.
pub fn gap(next: u32, cycle: u16) -> usize
    requires { next ≤ cycle }
    ensures { (result ≡ min cycles (1 + cycle - next)) × ((1 ≤ result) × (result ≤ 13)) }
{
    let far = u32::from(cycle) + 1 - next;
    if far < FAR {
        return far as usize;
    }
    CYCLES
}

// The place of a grocer's word in row i.
fn place(m: usize, i: usize, g: usize) -> usize
    requires { (m ≤ 255) × ((i < 13) × (g < m)) }
    ensures { result ≡ i * m + g }
{
    i * m + g
}

// The difference of two amounts that is known to fit.
fn less(x: i64, y: i64) -> i64
    requires { SFits w64 (x -ℤ y) }
    ensures { result ≡ x -ℤ y }
{
    x - y
}

// A change of the sums of m grocers: the amounts given come, and of those held the last k rows leave.
#[derive(Clone, Copy)]
pub struct Change<'a> {
    pub m: usize,
    pub k: usize,
    pub amounts: &'a [i64],
    pub held: &'a [i64],
    ghost rows_in: { SumsIn m k held.now },
}

impl<'a> Change<'a> {
    // What leaves a grocer's sum: the words of its last k rows.
    fn leaving(&self, g: usize) -> i64
        requires { g < self.now.m }
        ensures { result ≡ rows_leaving self.now.m self.now.k self.now.held.now g }
    {
        let mut sum: i64 = 0;
        for i in 0..self.k {
            let x = i64_at(self.held, place(self.m, CYCLES - self.k + i, g));
            sum = plus(sum, x);
        }
        sum
    }

    // A grocer's sum afterwards: what leaves is taken off, and the amount given is added.
    fn next_sum(&self, g: usize, sums: &[i64]) -> i64
        requires sums_in { KeptIn self.now.m self.now.amounts.now sums.now }
        requires g_lt_m { (g < self.now.m) × (nat_abs (get_or sums.now g (pos 0)) ≤ max_kept) }
        ensures { result ≡ sum_next self.now.m self.now.k self.now.amounts.now self.now.held.now sums.now g }
    {
        let rest = less(i64_at(sums, g), self.leaving(g));
        plus(rest, i64_at(self.amounts, g))
    }

    // Whether the sums afterwards are in range: the late 21.
    pub fn sums_fit(&self, sums: &[i64]) -> bool
        requires sums_in { KeptIn self.now.m self.now.amounts.now sums.now }
        requires sums_value { around max_kept self.now.m sums.now ≡ true }
        ensures { result ≡ all self.now.m (λ g. leb (nat_abs (sum_next self.now.m self.now.k self.now.amounts.now
            self.now.held.now sums.now g)) max_kept) }
    {
        for g in 0..self.m {
            if !is_within(self.next_sum(g, sums), MIN_KEPT, MAX_KEPT) {
                return false;
            }
        }
        true
    }

    // The sums, kept up to date.
    pub fn keep_sums(&self, sums: &mut [i64])
        requires sums_in { KeptIn self.now.m self.now.amounts.now sums.old }
        requires sums_value { around max_kept self.now.m sums.old ≡ true }
        ensures { sums.new ≡ overwrite self.now.m (sum_next self.now.m self.now.k self.now.amounts.now self.now.held.now
            sums.old) sums.old }
    {
        for g in 0..self.m {
            sums[g] = self.next_sum(g, sums);
        }
    }
}
