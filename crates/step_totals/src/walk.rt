// Walks over the entries of one pair of boxes, by their links.
ghost use Rattle.std.specs.Prelude.{◌≡◌, ◌+◌, ◌<◌, get_or};
ghost use Rattle.step_links.specs.Links.{pair_key};

use step_links::{PAIR_HEADS, TALLY_LINKS, pair};

// The first of the places of a pair of boxes, by the links.
pub fn begin_pair(a: u16, b: u16, links: &[u16; TALLY_LINKS]) -> usize
    requires { (a < 16) × (b < 16) }
    ensures { result ≡ get_or links.now (pair_key a b) 0 }
{
    let v = pair(a, b);
    usize::from(links[v])
}

// The link of place i: the next place of its pair.
pub fn next_pair(i: usize, links: &[u16; TALLY_LINKS]) -> usize
    requires { i < 1_000 }
    ensures { result ≡ get_or links.now (272 + i) 0 }
{
    usize::from(links[PAIR_HEADS + i])
}
