// The rows of a store, moved on.
ghost use Rattle.std.specs.Prelude.{◌≡◌, ◌*◌, ◌≤◌, ◌<◌, length};
ghost use Rattle.laws.specs.Tables.{overwrite};
ghost use Rattle.cycle_store.specs.Moved.{word_moved};

use crate::limits::CYCLES;
use slices::i64_at;

// Word p of the rows afterwards: an amount given, 0, or what stands `back` words before.
fn moved_word(m: usize, back: usize, p: usize, amounts: &[i64], held: &[i64]) -> i64
    requires { (m ≤ length amounts.now) × (p < length held.now) }
    ensures { result ≡ word_moved m back amounts.now held.now p }
{
    if p < m {
        return i64_at(amounts, p);
    }
    if p < back {
        return 0;
    }
    i64_at(held, p - back)
}

// The thirteen rows of m words moved on by k: the amounts given come first, and rows that were never stored are 0. One pass, from the last word on,
// so that a word is read before it is written.
pub fn move_rows(m: usize, k: usize, amounts: &[i64], held: &mut [i64])
    requires le_m { ((1 ≤ m) × (m ≤ 255)) × ((1 ≤ k) × (k ≤ 13)) }
    requires m_in_bounds { (m ≤ length amounts.now) × (13 * m ≤ length held.old) }
    ensures { held.new ≡ overwrite (13 * m) (word_moved m (k * m) amounts.now held.old) held.old }
{
    let back = k * m;
    for p in (0..CYCLES * m).rev() {
        held[p] = moved_word(m, back, p, amounts, held);
    }
}
