// The offers that the tallies name: refusals 7 and 8, and the place of each tally's offer.
ghost use Rattle.std.specs.Prelude.{◌≡◌, cond, ◌≤◌, ◌<◌, length, OnOk, MatchOption};
ghost use Rattle.format.specs.Job.{place_of, unnamed};
ghost use Rattle.format.specs.Blocks.{tallies_at};
ghost use Rattle.refusals.specs.Numbers.{number};
ghost use Rattle.file_blocks.specs.Due.{as_head};
ghost use Rattle.file_blocks.specs.Fills.{Placed};
ghost use Rattle.file_blocks.specs.Said.{said};
ghost use Rattle.file_blocks.specs.Sound.{Sound, Indexed, Ready, names_refusal};

use crate::fill::fill_names;
use crate::job_file::JobFile;
use crate::place::record_at;
use crate::plan::tallies_at;
use file_bytes::word16;
use file_digits::name_at;
use index::look::TopDigits;
use refusals::Refusal;
use slices::casts::word_of;
use slices::limits::OFFERS;

// Makes the index of the offers.
fn index_offers(file: &JobFile, keys: &mut [u64], order: &mut [u16])
    requires sound { Sound file.now.bytes.now (as_head file.now.head) }
    requires offers_in_bounds { (file.now.head.sizes.offers ≤ length keys.old) × (file.now.head.sizes.offers ≤ length order.old) }
    ensures { Indexed file.now.bytes.now keys.new order.new (as_head file.now.head) }
{
    let n = usize::from(file.head.sizes.offers);
    let mut numbers = [0u64; OFFERS];
    fill_names(file, &mut numbers);
    let mut spare = [0u16; OFFERS];
    index::build::build(&numbers, keys, order, &mut spare, n);
}

// The index of a file's offers: the numbers of their names in order, the place of each number's offer, and their top digits.
#[derive(Clone, Copy)]
pub struct OfferIndex<'a> {
    pub keys: &'a [u64],
    pub order: &'a [u16],
    pub tops: TopDigits,
}

// The place of the offer that tally i names, if it names one.
fn find_place(file: &JobFile, offers: &OfferIndex, first: usize, i: usize) -> Option<usize>
    requires ready { Ready file.now.bytes.now offers.now (as_head file.now.head) }
    requires first_value { (first ≡ tallies_at (as_head file.now.head)) × (i < file.now.head.sizes.tallies) }
    ensures { let offers = file.now.head.sizes.offers in
        MatchOption result (place_of (said file.now) i ≡ offers) (λ p. (place_of (said file.now) i ≡ p) × (p < offers)) }
{
    let at = record_at(first, i);
    let number = name_at(file.bytes, at + 3, word16(file.bytes, at + 18));
    let n = usize::from(file.head.sizes.offers);
    index::look::place(offers.keys, offers.order, &offers.tops, n, number)
}

// Looks each tally up, once, and keeps its place; 8 where a tally names no offer. (A loop by place, and not `fill_by`, since it ends there.)
fn find_places(file: &JobFile, offers: &OfferIndex, places: &mut [u16]) -> Result<(), Refusal>
    requires { Ready file.now.bytes.now offers.now (as_head file.now.head) × (file.now.head.sizes.tallies ≤ length places.old) }
    ensures value { number result ≡ cond (unnamed (said file.now)) 8 0 }
    ensures placed { OnOk result (Placed (said file.now) places.new file.now.head.sizes.tallies) }
{
    let first = tallies_at(file.head);
    for i in 0..usize::from(file.head.sizes.tallies) {
        match find_place(file, offers, first, i) {
            Some(p) => places[i] = word_of(p),
            None => return Err(Refusal::UnknownOffer),
        }
    }
    Ok(())
}

// 7 or 8 by the index of the offers, and, where neither is met, the place of each tally's offer.
fn indexed_refusal(
    file: &JobFile,
    keys: &[u64],
    order: &[u16],
    places: &mut [u16],
) -> Result<(), Refusal>
    requires sound { Sound file.now.bytes.now (as_head file.now.head) × (file.now.head.sizes.tallies ≤ length places.old) }
    requires offers_in_bounds { (file.now.head.sizes.offers ≤ length keys.now) × (file.now.head.sizes.offers ≤ length order.now) ×
        Indexed file.now.bytes.now keys.now order.now (as_head file.now.head) }
    ensures value { number result ≡ names_refusal (said file.now) }
    ensures placed { OnOk result (Placed (said file.now) places.new file.now.head.sizes.tallies) }
{
    let n = usize::from(file.head.sizes.offers);
    if index::look::shared(keys, n) {
        return Err(Refusal::SharedNumber);
    }
    let tops = index::tops::tops(keys, n);
    find_places(file, &OfferIndex { keys, order, tops }, places)
}

// 7 or 8 of a file of which nothing before them is refused, and, where neither is met, the place of each tally's offer.
pub fn names_refusal(file: &JobFile, places: &mut [u16]) -> Result<(), Refusal>
    requires { Sound file.now.bytes.now (as_head file.now.head) × (file.now.head.sizes.tallies ≤ length places.old) }
    ensures value { number result ≡ names_refusal (said file.now) }
    ensures placed { OnOk result (Placed (said file.now) places.new file.now.head.sizes.tallies) }
{
    let mut keys = [0u64; OFFERS];
    let mut order = [0u16; OFFERS];
    index_offers(file, &mut keys, &mut order);
    indexed_refusal(file, &keys, &order, places)
}
