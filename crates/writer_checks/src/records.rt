// 6: each record of the tables.
ghost use Rattle.std.specs.Prelude.{◌≡◌, List, ℕ, suc, ◌+◌, ◌*◌, ◌≤◌, ◌<◌, length, get_or};
ghost use Rattle.laws.specs.Below.{any};
ghost use Rattle.laws.specs.Lists.{list_words};
ghost use Rattle.format.specs.Job.{bad_offer, bad_owner, bad_price, bad_tally, bad_records};
ghost use Rattle.format.specs.Tables.{offer_tables, tally_tables, file_tables, offer_of, tally_of, file_job_of};
ghost use Rattle.file_blocks.specs.Due.{as_head};

use crate::Tables;
use file_blocks::by_place::any_by;
use file_blocks::codes::{CODE_BYTES, is_code};
use file_blocks::records::bad_count;
use slices::limits::MAX_PRICE;

// Whether a field of offer i is outside its range; its issuer has all 16 bits.
#[tactic(auto, unfolding(format::specs::Job::bad_offer))]
fn bad_offer(tables: &Tables, i: usize) -> bool
    requires { (i < length tables.now.price.now) × ((i < length tables.now.offer_owner.now) × (i * 11 + 11 ≤ length tables.now.offer_code.now)) }
    ensures { (s : List ℕ) → result ≡ bad_offer (as_head tables.now.head)
        (offer_of (offer_tables tables.now.price.now tables.now.offer_owner.now tables.now.offer_code.now s) i) }
{
    (MAX_PRICE < tables.price[i])
        | (tables.head.sizes.boxes <= tables.offer_owner[i])
        | !is_code(tables.offer_code, i * CODE_BYTES)
}

// Whether a field of tally i is outside its range, likewise.
#[tactic(auto, unfolding(format::specs::Job::bad_tally))]
fn bad_tally(tables: &Tables, i: usize) -> bool
    requires i_in_bounds { (i < length tables.now.tally_grocer.now) × (i < length tables.now.tally_box.now) }
    requires i_in_bounds_2 { (i * 11 + 11 ≤ length tables.now.tally_code.now) × (i < length tables.now.tally_count.now) }
    ensures { (s b v : List ℕ) → result ≡ bad_tally (as_head tables.now.head)
        (tally_of (tally_tables tables.now.tally_grocer.now tables.now.tally_box.now tables.now.tally_code.now tables.now.tally_count.now s b v) i) }
{
    (tables.head.sizes.grocers <= tables.tally_grocer[i])
        | (tables.head.sizes.boxes <= tables.tally_box[i])
        | !is_code(tables.tally_code, i * CODE_BYTES)
        | bad_count(tables.tally_count[i])
}

// Whether one of the prices of an additional list is outside its range.
fn bad_list(tables: &Tables, q: usize) -> bool
    requires prices_in_bounds { list_words tables.now.head.sizes.lists tables.now.head.sizes.offers ≤ length tables.now.price.now }
    requires q_bound { q < tables.now.head.sizes.lists }
    ensures { result ≡ any tables.now.head.sizes.offers (λ i. bad_price (get_or tables.now.price.now (suc q * tables.now.head.sizes.offers + i) 0)) }
{
    let n = usize::from(tables.head.sizes.offers);
    let from = (q + 1) * n;
    any_by(n, |i| MAX_PRICE < tables.price[from + i])
}

// 6: whether a record of the job is outside its range: an offer, a grocer's owner, a price of an additional list, or a tally.
#[tactic(auto, unfolding(format::specs::Job::bad_price, format::specs::Job::bad_owner))]
pub fn bad_records(tables: &Tables) -> bool
    requires offers_in_bounds { (list_words tables.now.head.sizes.lists tables.now.head.sizes.offers ≤ length tables.now.price.now) ×
        (tables.now.head.sizes.offers ≤ length tables.now.offer_owner.now) × (tables.now.head.sizes.offers * 11 ≤ length tables.now.offer_code.now) }
    requires grocers_in_bounds { tables.now.head.sizes.grocers ≤ length tables.now.grocer_owner.now }
    requires tallies_in_bounds { (tables.now.head.sizes.tallies ≤ length tables.now.tally_grocer.now) ×
        (tables.now.head.sizes.tallies ≤ length tables.now.tally_box.now) }
    requires tallies_in_bounds_2 { (tables.now.head.sizes.tallies * 11 ≤ length tables.now.tally_code.now) ×
        (tables.now.head.sizes.tallies ≤ length tables.now.tally_count.now) }
    ensures { (s s' b v : List ℕ) → result ≡ bad_records (file_job_of (as_head tables.now.head) (file_tables
        (offer_tables tables.now.price.now tables.now.offer_owner.now tables.now.offer_code.now s) tables.now.grocer_owner.now
        (tally_tables tables.now.tally_grocer.now tables.now.tally_box.now tables.now.tally_code.now tables.now.tally_count.now s' b v))) }
{
    let z = tables.head.sizes;
    any_by(usize::from(z.offers), |i| bad_offer(tables, i))
        | any_by(
            usize::from(z.grocers),
            |i| z.boxes <= tables.grocer_owner[i],
        )
        | any_by(usize::from(z.lists), |q| bad_list(tables, q))
        | any_by(usize::from(z.tallies), |i| bad_tally(tables, i))
}
