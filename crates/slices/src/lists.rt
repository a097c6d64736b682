// The words of an entry, one for each price list, side by side.
ghost use Rattle.std.specs.Prelude.{◌≡◌, suc, ◌+◌, ◌-◌, ◌*◌, ◌≤◌};
ghost use Rattle.laws.specs.Limits.{max_lists};
ghost use Rattle.laws.specs.Lists.{list_words};

use crate::casts::index_of;

// How many words an entry has: one for the first price list, and one for each additional one.
pub fn width_of(lists: u16) -> usize
    requires { lists ≤ max_lists }
    ensures { (result ≡ suc lists) × (result ≤ 8) }
{
    index_of(lists) + 1
}

// Where the words of entry e begin, of so many words each.
pub fn words_at(e: usize, width: usize) -> usize
    requires { (e ≤ 8_000) × (width ≤ 8) }
    ensures { (result ≡ e * width) × (result ≤ 64_000) }
{
    e * width
}

// The words of n entries, with so many additional lists as given, whether or not in range.
pub fn list_words(lists: u16, n: u16) -> usize
    ensures { (result ≡ list_words lists n) × (result ≤ 4_294_901_760) }
{
    index_of(n) * (index_of(lists) + 1)
}

// The words of n entries in a table of a row for each box, with the number of boxes and of additional lists as given.
pub fn box_words(boxes: u16, lists: u16, n: u16) -> usize
    ensures { result ≡ boxes * list_words lists n }
{
    index_of(boxes) * list_words(lists, n)
}

// The words of the entries of a span, from one place up to another: those of a message.
pub fn span_words(from: usize, to: usize, width: usize) -> u32
    requires { (from ≤ to) × ((to ≤ from + 500) × (width ≤ 8)) }
    ensures { (result ≡ (to - from) * width) × (result ≤ 4_000) }
{
    let n = to - from;
    (n * width) as u32
}
