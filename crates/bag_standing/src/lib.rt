// Tables of tallies: whether they have one bag and revision twice, and the boxes of the tallies that stand.
#![tactic(auto)]

ghost use Rattle.std.specs.Prelude.{◌≡◌, false, ◌≤◌, length};
ghost use Rattle.recount.specs.Recount.{counted_twice};
ghost use Rattle.index.specs.Bags.{KeysOf, Struck};
ghost use Rattle.bag_standing.specs.Columns.{any_bag, InColumns, counted};

use bag_keys::count_key;
use index::bags::{counted_twice, strike_from};
use index::sort::copy;
use slices::limits::TALLIES;

// How many tallies there are, and the columns of their table that tell which of them stand.
#[derive(Clone, Copy)]
pub struct Counts<'a> {
    pub count: usize,
    pub grocer: &'a [u16],
    pub offer: &'a [u16],
    pub bag: &'a [u16],
    pub revision: &'a [u16],
}

// Whether some of the first n bags is not 0. They are all looked at, with no branch: by `any` a thousand bags of 0, as most are,
// take 0.5 µs in place of 0.06.
fn any_bag(bags: &[u16], n: usize) -> bool
    requires { n ≤ length bags.now }
    ensures { result ≡ any_bag bags.now n }
{
    let mut found = false;
    for bag in &bags[..n] {
        found = found | (*bag != 0);
    }
    found
}

// Puts the key of each tally into `keys`.
fn fill_keys(counts: &Counts, keys: &mut [u64])
    requires columns { InColumns counts.now }
    requires n_in_bounds { counts.now.count ≤ length keys.old }
    ensures { KeysOf (counted counts.now) keys.new counts.now.count }
{
    for t in 0..counts.count {
        keys[t] = count_key(
            counts.grocer[t],
            counts.offer[t],
            counts.bag[t],
            counts.revision[t],
        );
    }
}

// 9 in tables of tallies, by their keys; where it is not so, `boxes` has the box of each tally that stands, and 16 for the others.
fn strike_columns(counts: &Counts, tally_box: &[u16], boxes: &mut [u16]) -> bool
    requires columns { InColumns counts.now }
    requires n_in_bounds { (counts.now.count ≤ length tally_box.now) × (counts.now.count ≤ length boxes.old) }
    ensures value { result ≡ counted_twice (counted counts.now) }
    ensures struck { result ≡ false → Struck (counted counts.now) counts.now.count tally_box.now boxes.new }
{
    let mut keys = [0u64; TALLIES];
    fill_keys(counts, &mut keys);
    strike_from(&keys, counts.count, tally_box, boxes)
}

// 9 in tables of tallies; where it is not so, `boxes` has the box of each tally that stands, and 16 for the others.
pub fn standing_boxes(counts: &Counts, tally_box: &[u16], boxes: &mut [u16]) -> bool
    requires columns { InColumns counts.now }
    requires n_in_bounds { (counts.now.count ≤ length tally_box.now) × (counts.now.count ≤ length boxes.old) }
    ensures value { result ≡ counted_twice (counted counts.now) }
    ensures struck { result ≡ false → Struck (counted counts.now) counts.now.count tally_box.now boxes.new }
{
    if any_bag(counts.bag, counts.count) {
        return strike_columns(counts, tally_box, boxes);
    }
    copy(tally_box, boxes, counts.count);
    false
}

// 9 in tables of tallies, by their keys.
fn keys_twice(counts: &Counts) -> bool
    requires { InColumns counts.now }
    ensures { result ≡ counted_twice (counted counts.now) }
{
    let mut keys = [0u64; TALLIES];
    fill_keys(counts, &mut keys);
    counted_twice(&keys, counts.count)
}

// 9 in tables of tallies. Where every bag is 0 nothing is sorted.
pub fn columns_twice(counts: &Counts) -> bool
    requires { InColumns counts.now }
    ensures { result ≡ counted_twice (counted counts.now) }
{
    if any_bag(counts.bag, counts.count) {
        return keys_twice(counts);
    }
    false
}
