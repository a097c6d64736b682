// Entries linked by key.
#![tactic(auto)]

ghost use Rattle.std.specs.Prelude.{◌≡◌, ℕ, ◌+◌, ◌≤◌, ◌<◌, length, get_or, set};
ghost use Rattle.step_links.specs.Links.{pair_key, PairsKeyed, LinkedPairs};

use slices::limits::{BOXES, TALLIES};

// Keys are pairs, 0 to 271: one of 17 numbers, 16 for no box, and one of the 16 boxes. Their first places stand in front of the links.
pub const PAIR_HEADS: usize = (BOXES + 1) * BOXES;

// The words of the links of tallies: first places of pairs, and one link for each of the most tallies, 1272.
pub const TALLY_LINKS: usize = PAIR_HEADS + TALLIES;

// No key has a place yet: each first place is the end.
fn no_places(heads: usize, end: u16, links: &mut [u16])
    requires { heads ≤ length links.old }
    ensures { (v : ℕ) → v < heads → get_or links.new v 0 ≡ end }
{
    links[..heads].fill(end);
}

// Entry i goes in front of those of its key v.
fn put_first(heads: usize, v: usize, i: usize, links: &mut [u16])
    requires { (v < heads) × (heads ≤ 272) × (i < 1_000) × (heads + i < length links.old) }
    ensures { links.new ≡ set (set links.old (heads + i) (get_or links.old v 0)) v i }
{
    let j = links[v];
    links[heads + i] = j;
    links[v] = i as u16;
}

// The key of a pair of boxes.
pub fn pair(a: u16, b: u16) -> usize
    requires { (a ≤ 16) × (b < 16) }
    ensures { result ≡ pair_key a b }
{
    usize::from(a) * BOXES + usize::from(b)
}

// Links n entries, the last one first: each goes in front of those of its key, the box of the entry and the owner at its place.
pub fn link_pairs(n: usize, boxes: &[u16], places: &[u16], owners: &[u16], links: &mut [u16])
    requires { PairsKeyed n boxes.now places.now owners.now links.old }
    ensures { LinkedPairs n boxes.now places.now owners.now links.new }
{
    no_places(PAIR_HEADS, n as u16, links);
    for i in (0..n).rev() {
        let o = slices::index_at(places, i);
        put_first(
            PAIR_HEADS,
            pair(slices::u16_at(boxes, i), slices::u16_at(owners, o)),
            i,
            links,
        );
    }
}
