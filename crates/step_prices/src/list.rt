// The offers of a message of prices.
ghost use Rattle.std.specs.Prelude.{◌≡◌, ◌≤◌, ◌<◌, length};
ghost use Rattle.laws.specs.Listed.{Listed};
ghost use Rattle.step_places.specs.Message.{word_in};

use slices::casts::word_of;
use slices::u16_at;
use step_places::words::in_message;

// The offers below n of the message from box a, their owner, to box b are the first words of the list, ascending. How many. An offer that is not in it
// is written over: there is no branch in the loop, since none could be foreseen. There is no heap, so the list lies in the caller's table.
pub fn list_message(
    n: usize,
    owners: &[u16],
    masks: &[u16],
    a: u16,
    b: u16,
    offers: &mut [u16],
) -> usize
    requires n_bound { (n ≤ 500) × ((n ≤ length owners.now) × (n ≤ length masks.now)) }
    requires b_bound { (b < 16) × (n ≤ length offers.old) }
    ensures listed { Listed n (word_in owners.now masks.now a b) 0 result offers.new }
    ensures upper_bound { result ≤ n }
{
    let mut l: usize = 0;
    for o in 0..n {
        offers[l] = word_of(o);
        l += usize::from(in_message(u16_at(owners, o), u16_at(masks, o), a, b));
    }
    l
}
