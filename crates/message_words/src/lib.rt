// The tables of messages: the words from each box to each other box.
#![tactic(auto)]

ghost use Rattle.std.specs.Prelude.{◌≡◌, false, true, ◌+◌, ◌<◌};
ghost use Rattle.laws.specs.Below.{naturals, only};
ghost use Rattle.laws.specs.Masks.{bit};
ghost use Rattle.job_masks.specs.Masks.{Owned};
ghost use Rattle.message_words.specs.Messages.{sent_table};

use slices::bits::{clear_bit, has_bit};
use slices::limits::{BOXES, GROCERS, OFFERS};
use slices::u16_at;

// 1 where bit b of the word is set, else 0.
#[tactic(auto, unfolding(laws::specs::Below::only, laws::specs::Below::naturals))]
fn bit_word(word: u16, b: usize) -> u16
    requires { b < 16 }
    ensures { result ≡ only naturals (bit b word) 1 }
{
    u16::from(has_bit(word, b as u16))
}

// One owner more: a word between it and each other box that its word means.
fn add_owner(table: &mut [[u16; BOXES]; BOXES], back: bool, n: usize, owners: &[u16], masks: &[u16])
    requires owned { Owned (n + 1) owners.now masks.now }
    requires n_bound { n < 65535 }
    requires table_value { table.old ≡ sent_table back n owners.now masks.now }
    ensures { table.new ≡ sent_table back (n + 1) owners.now masks.now }
{
    let owner = u16_at(owners, n);
    let others = clear_bit(u16_at(masks, n), owner);
    let o = usize::from(owner);
    for b in 0..BOXES {
        let (from, to) = if back { (b, o) } else { (o, b) };
        table[from][to] += bit_word(others, b);
    }
}

// The words between the boxes for the first n owners and words: from the owner, or where `back` to it.
fn sent_table(back: bool, n: u16, owners: &[u16], masks: &[u16]) -> [[u16; BOXES]; BOXES]
    requires { Owned n owners.now masks.now }
    ensures { result ≡ sent_table back n owners.now masks.now }
{
    let mut table = [[0; BOXES]; BOXES];
    for i in 0..usize::from(n) {
        add_owner(&mut table, back, i, owners, masks);
    }
    table
}

// The tables of prices and of totals stay two functions: each has one length of its words and one direction, and its name says which.
// The table of prices, from the need words and the owners of the offers.
pub fn price_table(offers: u16, offer_owner: &[u16], needs: &[u16; OFFERS]) -> [[u16; BOXES]; BOXES]
    requires { Owned offers offer_owner.now needs.now }
    ensures { result ≡ sent_table false offers offer_owner.now needs.now }
{
    sent_table(false, offers, offer_owner, needs)
}

// The table of totals, from the sharer words and the owners of the grocers.
pub fn total_table(
    grocers: u16,
    grocer_owner: &[u16],
    sharers: &[u16; GROCERS],
) -> [[u16; BOXES]; BOXES]
    requires { Owned grocers grocer_owner.now sharers.now }
    ensures { result ≡ sent_table true grocers grocer_owner.now sharers.now }
{
    sent_table(true, grocers, grocer_owner, sharers)
}
