// The tables of a run, filled from an accepted file: one way for the reader, whose caller lends them, and for `settle`, which has its own.
ghost use Rattle.std.specs.Prelude.{◌≡◌, suc, ◌≤◌, length};
ghost use Rattle.laws.specs.Lists.{list_words};
ghost use Rattle.laws.specs.Tables.{overwrite, recell};
ghost use Rattle.format.specs.Job.{price_on, place_of};
ghost use Rattle.file_blocks.specs.Fills.{Placed};
ghost use Rattle.file_blocks.specs.Said.{said};

use crate::fill::{fill_bytes, fill_counts, fill_lists, fill_owners, fill_words};
use crate::job_file::JobFile;
use crate::plan::tallies_at;

// Prices, list after list, and owners of the offers, and owners of the grocers.
pub fn fill_offers(
    file: &JobFile,
    price: &mut [u32],
    offer_owner: &mut [u16],
    grocer_owner: &mut [u16],
)
    requires { (list_words file.now.head.sizes.lists file.now.head.sizes.offers ≤ length price.old) ×
        (file.now.head.sizes.offers ≤ length offer_owner.old) ×
        (file.now.head.sizes.grocers ≤ length grocer_owner.old) }
    ensures price_after { price.new ≡ recell (suc file.now.head.sizes.lists) file.now.head.sizes.offers
        (price_on (said file.now).offer (said file.now).list_price) price.old }
    ensures offer_owner_after { offer_owner.new ≡ overwrite file.now.head.sizes.offers (λ i. ((said file.now).offer i).owner) offer_owner.old }
    ensures grocer_owner_after { grocer_owner.new ≡ overwrite file.now.head.sizes.grocers (said file.now).grocer_owner grocer_owner.old }
{
    let n = usize::from(file.head.sizes.offers);
    fill_lists(file, price);
    fill_bytes(file.bytes, 1, n, 4, offer_owner);
    fill_owners(file, grocer_owner);
}

// Grocer, place and count of the tallies; their places are kept.
pub fn fill_tallies(
    file: &JobFile,
    places: &[u16],
    tally_grocer: &mut [u16],
    tally_offer: &mut [u16],
    tally_count: &mut [i32],
)
    requires placed { Placed (said file.now) places.now file.now.head.sizes.tallies × (file.now.head.sizes.tallies ≤ length places.now) }
    requires tallies_in_bounds { (file.now.head.sizes.tallies ≤ length tally_grocer.old) × (file.now.head.sizes.tallies ≤ length tally_offer.old) ×
        (file.now.head.sizes.tallies ≤ length tally_count.old) }
    ensures tally_grocer_after { tally_grocer.new ≡ overwrite file.now.head.sizes.tallies (λ i. ((said file.now).tally i).grocer)
        tally_grocer.old }
    ensures tally_offer_after { tally_offer.new ≡ overwrite file.now.head.sizes.tallies (place_of (said file.now)) tally_offer.old }
    ensures tally_count_after { tally_count.new ≡ overwrite file.now.head.sizes.tallies (λ i. ((said file.now).tally i).count)
        tally_count.old }
{
    let t = usize::from(file.head.sizes.tallies);
    let first = tallies_at(file.head);
    fill_words(file.bytes, first, t, 0, tally_grocer);
    tally_offer[..t].copy_from_slice(&places[..t]);
    fill_counts(file.bytes, first, t, tally_count);
}
