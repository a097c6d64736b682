// Need words and sharer words, one bit for each box, and these together for each owner.
ghost use Rattle.std.specs.Prelude.{◌≡◌, ℕ, ◌≤◌, ◌<◌, length, get_or};
ghost use Rattle.laws.specs.Tables.{tabulate};
ghost use Rattle.job_masks.specs.Masks.{marked, holder_word, Placed, Owned, by_owner};

use slices::bits::set_bit;
use slices::limits::{BOXES, GROCERS, OFFERS};
use slices::{index_at, u16_at};

// One tally: bit b of the word at its place, where box b is below k.
fn mark(masks: &mut [u16], k: u16, b: u16, place: u16)
    requires { (k ≤ 16) × (place < length masks.old) }
    ensures { masks.new ≡ marked k b place masks.old }
{
    if b < k {
        let p = usize::from(place);
        masks[p] = set_bit(masks[p], b);
    }
}

// The boxes that hold a tally of each of so many places, offers or grocers, in one pass over the tallies.
fn holders<const SIZE: usize>(
    boxes: u16,
    tallies: u16,
    tally_box: &[u16],
    places: &[u16],
) -> [u16; SIZE]
    requires { Placed boxes tallies SIZE tally_box.now places.now }
    ensures { result ≡ tabulate SIZE (holder_word boxes tallies tally_box.now places.now) }
{
    let mut masks = [0u16; SIZE];
    for t in 0..usize::from(tallies) {
        mark(&mut masks, boxes, u16_at(tally_box, t), u16_at(places, t));
    }
    masks
}

// The need words of the offers: the boxes that hold a tally of each.
pub fn needs(boxes: u16, tallies: u16, tally_box: &[u16], tally_offer: &[u16]) -> [u16; OFFERS]
    requires { Placed boxes tallies 500 tally_box.now tally_offer.now }
    ensures { result ≡ tabulate 500 (holder_word boxes tallies tally_box.now tally_offer.now) }
{
    holders(boxes, tallies, tally_box, tally_offer)
}

// The sharer words of the grocers, likewise.
pub fn sharers(boxes: u16, tallies: u16, tally_box: &[u16], tally_grocer: &[u16]) -> [u16; GROCERS]
    requires { Placed boxes tallies 255 tally_box.now tally_grocer.now }
    ensures { result ≡ tabulate 255 (holder_word boxes tallies tally_box.now tally_grocer.now) }
{
    holders(boxes, tallies, tally_box, tally_grocer)
}

// For each box the words of all that it owns together, of n offers or grocers: the boxes that need one of them, or hold a tally of one.
pub fn by_owner(n: u16, owners: &[u16], masks: &[u16]) -> [u16; BOXES]
    requires { Owned n owners.now masks.now }
    ensures { result ≡ by_owner n owners.now masks.now }
{
    let mut words = [0u16; BOXES];
    for i in 0..usize::from(n) {
        words[index_at(owners, i)] |= u16_at(masks, i);
    }
    words
}
