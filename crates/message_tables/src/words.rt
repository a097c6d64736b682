// The words of a job by its owner tables.
ghost use Rattle.std.specs.Prelude.{◌≡◌, ◌+◌, ◌*◌, ◌≤◌, ◌<◌};
ghost use Rattle.std.specs.Int.Count.{ones};
ghost use Rattle.laws.specs.Masks.{without};
ghost use Rattle.job_masks.specs.Masks.{Owned};
ghost use Rattle.message_tables.specs.Sums.{others_sum};

use slices::bits::clear_bit;
use slices::limits::{GROCERS, OFFERS};
use slices::u16_at;

// How many boxes the word means, its owner left out.
pub fn others(word: u16, owner: u16) -> u32
    requires { owner < 16 }
    ensures { result ≡ ones (without owner word) }
{
    clear_bit(word, owner).count_ones()
}

// The ones in the first n words, each without its owner's bit.
fn others_sum(n: u16, owners: &[u16], masks: &[u16]) -> u32
    requires { Owned n owners.now masks.now }
    ensures { (result ≡ others_sum n owners.now masks.now) × (result ≤ 16 * n) }
{
    let mut sum = 0;
    for i in 0..usize::from(n) {
        sum += others(u16_at(masks, i), u16_at(owners, i));
    }
    sum
}

// The words of a whole job by the owner tables: the ones in the need words and the sharer words, the owner's bit left out.
pub fn word_total(
    grocers: u16,
    offers: u16,
    offer_owner: &[u16],
    grocer_owner: &[u16],
    needs: &[u16; OFFERS],
    sharers: &[u16; GROCERS],
) -> u32
    requires owned { Owned offers offer_owner.now needs.now }
    requires owned_2 { Owned grocers grocer_owner.now sharers.now }
    ensures { result ≡ others_sum offers offer_owner.now needs.now
        + others_sum grocers grocer_owner.now sharers.now }
{
    others_sum(offers, offer_owner, needs) + others_sum(grocers, grocer_owner, sharers)
}
