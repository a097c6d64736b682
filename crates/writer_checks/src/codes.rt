// 7, 8 and 9: the numbers of the names, and the tallies' bags.
ghost use Rattle.std.specs.Prelude.{◌≡◌, true, cond, [], ◌∷◌, ◌+◌, ◌*◌, ◌≤◌, ◌<◌, length, OnOk, MatchOption};
ghost use Rattle.refusals.specs.Numbers.{number};
ghost use Rattle.laws.specs.Checks.{first_met};
ghost use Rattle.recount.specs.Recount.{counted_twice};
ghost use Rattle.format.specs.Codes.{is_code};
ghost use Rattle.format.specs.Job.{FileJob, place_of, shared, unnamed, counted_tallies};
ghost use Rattle.format.specs.Tables.{code_of};
ghost use Rattle.file_blocks.specs.Fills.{Placed};
ghost use Rattle.index_lookup.specs.Digits.{TopsOf};
ghost use Rattle.writer_checks.specs.Held.{job_held, NamesHeld, KeyedBy, FindsBy, HasNamesOf, HasBagsOf};
ghost use Rattle.writer_checks.specs.Rows.{Codes, Indexed};

use crate::Tables;
use bag_standing::{Counts, columns_twice};
use file_blocks::by_place::fill_by;
use index::build::build;
use index::look::{TopDigits, place};
use refusals::Refusal;
use slices::limits::{OFFERS, TALLIES};
use writer_names::number_of;

// Makes the index of the first n names.
fn index_names(code: &[u8], issuer: &[u16], n: usize, keys: &mut [u64], order: &mut [u16])
    requires n_bound { (n ≤ 500) × (n * 11 ≤ length code.now) × (n ≤ length issuer.now) × Codes code.now n }
    requires n_in_bounds { (n ≤ length keys.old) × (n ≤ length order.old) }
    ensures { Indexed code.now issuer.now keys.new order.new n }
{
    let mut numbers = [0u64; OFFERS];
    fill_by(&mut numbers, n, |i| number_of(code, issuer, i));
    let mut spare = [0u16; OFFERS];
    build(&numbers, keys, order, &mut spare, n);
}

// The place of the offer that tally i names, or none where it names none of the offers.
fn find_place(
    tables: &Tables,
    keys: &[u64],
    order: &[u16],
    tops: &TopDigits,
    i: usize,
) -> Option<usize>
    requires n_bound { (tables.now.head.sizes.offers ≤ 500) × ((tables.now.head.sizes.offers ≤ length keys.now) ×
        (tables.now.head.sizes.offers ≤ length order.now)) }
    requires tops { TopsOf tops.now keys.now tables.now.head.sizes.offers }
    requires i_in_bounds { (i * 11 + 11 ≤ length tables.now.tally_code.now) × (i < length tables.now.tally_issuer.now) ×
        (is_code (code_of tables.now.tally_code.now i) ≡ true) }
    ensures { (j : FileJob) → FindsBy j tables.now keys.now order.now →
        MatchOption result (place_of j i ≡ tables.now.head.sizes.offers) (λ p. (place_of j i ≡ p) × (p < tables.now.head.sizes.offers)) }
{
    let n = usize::from(tables.head.sizes.offers);
    let number = number_of(tables.tally_code, tables.tally_issuer, i);
    place(keys, order, tops, n, number)
}

// Looks each tally up, once, and keeps the place of its offer; 8 where a tally names no offer.
fn find_places(
    tables: &Tables,
    keys: &[u64],
    order: &[u16],
    tops: &TopDigits,
    places: &mut [u16],
) -> Result<(), Refusal>
    requires n_bound { (tables.now.head.sizes.offers ≤ 500) × ((tables.now.head.sizes.offers ≤ length keys.now) ×
        (tables.now.head.sizes.offers ≤ length order.now)) }
    requires finds { FindsBy (job_held tables.now) tables.now keys.now order.now }
    requires tops { TopsOf tops.now keys.now tables.now.head.sizes.offers }
    requires t_in_bounds { (tables.now.head.sizes.tallies * 11 ≤ length tables.now.tally_code.now) ×
        (tables.now.head.sizes.tallies ≤ length tables.now.tally_issuer.now) × Codes tables.now.tally_code.now tables.now.head.sizes.tallies }
    requires t_in_bounds_2 { tables.now.head.sizes.tallies ≤ length places.old }
    ensures value { (j : FileJob) → FindsBy j tables.now keys.now order.now → j.head.tallies ≡ tables.now.head.sizes.tallies →
        number result ≡ cond (unnamed j) 8 0 }
    ensures placed { (j : FileJob) → FindsBy j tables.now keys.now order.now → OnOk result (Placed j places.new tables.now.head.sizes.tallies) }
{
    for i in 0..usize::from(tables.head.sizes.tallies) {
        match find_place(tables, keys, order, tops, i) {
            Some(p) => places[i] = p as u16,
            None => return Err(Refusal::UnknownOffer),
        }
    }
    Ok(())
}

// 7, 8 or no refusal, by the index of the offers; where it is none, the place of each tally's offer is kept.
fn look_refusal(
    tables: &Tables,
    keys: &[u64],
    order: &[u16],
    places: &mut [u16],
) -> Result<(), Refusal>
    requires n_bound { (tables.now.head.sizes.offers ≤ 500) × ((tables.now.head.sizes.offers ≤ length keys.now) ×
        (tables.now.head.sizes.offers ≤ length order.now)) }
    requires keyed { KeyedBy (job_held tables.now) tables.now keys.now order.now }
    requires t_in_bounds { (tables.now.head.sizes.tallies * 11 ≤ length tables.now.tally_code.now) ×
        (tables.now.head.sizes.tallies ≤ length tables.now.tally_issuer.now) × Codes tables.now.tally_code.now tables.now.head.sizes.tallies }
    requires t_in_bounds_2 { tables.now.head.sizes.tallies ≤ length places.old }
    ensures value { (j : FileJob) → KeyedBy j tables.now keys.now order.now → number result ≡ first_met ((shared j, 7) ∷ (unnamed j, 8) ∷ []) }
    ensures placed { (j : FileJob) → KeyedBy j tables.now keys.now order.now → OnOk result (Placed j places.new tables.now.head.sizes.tallies) }
{
    let n = usize::from(tables.head.sizes.offers);
    if index::look::shared(keys, n) {
        return Err(Refusal::SharedNumber);
    }
    let tops = index::tops::tops(keys, n);
    find_places(tables, keys, order, &tops, places)
}

// The same by the names of the offers and of the tallies.
fn names_refusal(tables: &Tables, places: &mut [u16]) -> Result<(), Refusal>
    requires names_in { NamesHeld tables.now }
    requires tallies_in_bounds { tables.now.head.sizes.tallies ≤ length places.old }
    ensures value { (j : FileJob) → HasNamesOf j tables.now → number result ≡ first_met ((shared j, 7) ∷ (unnamed j, 8) ∷ []) }
    ensures placed { (j : FileJob) → HasNamesOf j tables.now → OnOk result (Placed j places.new tables.now.head.sizes.tallies) }
{
    let n = usize::from(tables.head.sizes.offers);
    let mut keys = [0u64; OFFERS];
    let mut order = [0u16; OFFERS];
    index_names(
        tables.offer_code,
        tables.offer_issuer,
        n,
        &mut keys,
        &mut order,
    );
    look_refusal(tables, &keys, &order, places)
}

// 7, 8, 9 or no refusal, by the names of the offers and by the tallies.
pub fn last_refusal(tables: &Tables) -> Result<(), Refusal>
    requires names_in { NamesHeld tables.now }
    requires tallies_in_bounds { (tables.now.head.sizes.tallies ≤ length tables.now.tally_grocer.now) ×
        (tables.now.head.sizes.tallies ≤ length tables.now.tally_bag.now) × (tables.now.head.sizes.tallies ≤ length tables.now.tally_revision.now) }
    ensures { (j : FileJob) → HasNamesOf j tables.now → HasBagsOf j tables.now →
        number result ≡ first_met ((shared j, 7) ∷ (unnamed j, 8) ∷ (counted_twice (counted_tallies j), 9) ∷ []) }
{
    let mut places = [0u16; TALLIES];
    names_refusal(tables, &mut places)?;
    let counts = Counts {
        count: usize::from(tables.head.sizes.tallies),
        grocer: tables.tally_grocer,
        offer: &places,
        bag: tables.tally_bag,
        revision: tables.tally_revision,
    };
    if columns_twice(&counts) {
        return Err(Refusal::CountedTwice);
    }
    Ok(())
}
