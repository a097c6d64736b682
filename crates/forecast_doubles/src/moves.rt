// Words of a message, moved from one table to another: steps 2, 4 and 5. (Its three loops differ in the tables that they write, and not in a type: one
// with a closure would be no plainer.)
ghost use Rattle.std.specs.Prelude.{◌≡◌, cond, ◌+◌, ◌≤◌, ◌<◌, length, get_or, set};
ghost use Rattle.step_places.specs.Message.{word_in};
ghost use Rattle.forecast_rules.specs.Doubles.{zero+};
ghost use Rattle.forecast_doubles.specs.Moves.{Moved, Copied, Zeroed, summed_in};

use crate::values::f64_at;
use slices::bits::has_bit;
use slices::u16_at;
use step_places::words::in_message;

// Where it is due, the word at place p is taken from one table and stands in the other; what was taken becomes +0.0.
fn take_one(from: &mut [f64], to: &mut [f64], p: usize, due: bool)
    requires { (p < length from.old) × (p < length to.old) }
    ensures { (from.new ≡ cond due (set from.old p zero+) from.old) ×
        (to.new ≡ cond due (set to.old p (get_or from.old p zero+)) to.old) }
{
    if due {
        to[p] = f64_at(from, p);
        from[p] = 0.0;
    }
}

// The words of the message that box a, their owner, exchanges with box b are taken from one table and stand in the other, in the row of n words that
// begins at `row`: values received (2), part sums sent (4) and received (5). One pass over the row.
pub fn take_words(
    n: usize,
    row: usize,
    a: u16,
    b: u16,
    owner: &[u16],
    mask: &[u16],
    from: &mut [f64],
    to: &mut [f64],
)
    requires b_bound { (b < 16) × ((n ≤ 500) × ((row ≤ 8000) × ((n ≤ length owner.now) × (n ≤ length mask.now)))) }
    requires n_in_bounds { (row + n ≤ length from.old) × (row + n ≤ length to.old) }
    ensures { Moved row n (word_in owner.now mask.now a b)
        from.old to.old from.new to.new }
{
    for i in 0..n {
        let due = in_message(u16_at(owner, i), u16_at(mask, i), a, b);
        take_one(from, to, row + i, due);
    }
}

// Where it is due, word q of one table is copied to place p of another.
fn copy_one(from: &[f64], to: &mut [f64], q: usize, p: usize, due: bool)
    requires { (q < length from.now) × (p < length to.old) }
    ensures { to.new ≡ cond due (set to.old p (get_or from.now q zero+)) to.old }
{
    if due {
        to[p] = f64_at(from, q);
    }
}

// The words of the message from box a, their owner, to box b are copied from the row of n words that begins at `at` to the row of another table that
// begins at `row`: values sent (1). One pass over the row.
pub fn copy_words(
    n: usize,
    at: usize,
    row: usize,
    a: u16,
    b: u16,
    owner: &[u16],
    mask: &[u16],
    from: &[f64],
    to: &mut [f64],
)
    requires b_bound { (b < 16) × ((n ≤ 500) × ((at ≤ 8000) × ((row ≤ 8000) × ((n ≤ length owner.now) × (n ≤ length mask.now))))) }
    requires n_in_bounds { (at + n ≤ length from.now) × (row + n ≤ length to.old) }
    ensures { Copied at row n (word_in owner.now mask.now a b) from.now to.old to.new }
{
    for i in 0..n {
        let due = in_message(u16_at(owner, i), u16_at(mask, i), a, b);
        copy_one(from, to, at + i, row + i, due);
    }
}

// Where it is due, the word at place p becomes +0.0.
fn zero_one(l: &mut [f64], p: usize, due: bool)
    requires { p < length l.old }
    ensures { l.new ≡ cond due (set l.old p zero+) l.old }
{
    if due {
        l[p] = 0.0;
    }
}

// The part sums of box c that step 6 of box a has summed become +0.0, in the row of n words that begins at `row`: those of the grocers that a owns and
// whose mask has c.
pub fn zero_words(n: usize, row: usize, a: u16, c: u16, owner: &[u16], mask: &[u16], l: &mut [f64])
    requires c_bound { (c < 16) × ((n ≤ 500) × ((row ≤ 8000) × ((n ≤ length owner.now) × (n ≤ length mask.now)))) }
    requires n_in_bounds { row + n ≤ length l.old }
    ensures { Zeroed row n (summed_in owner.now mask.now a c) l.old l.new }
{
    for i in 0..n {
        let due = (u16_at(owner, i) == a) & has_bit(u16_at(mask, i), c);
        zero_one(l, row + i, due);
    }
}
