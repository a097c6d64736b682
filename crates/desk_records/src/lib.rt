// A list of tally records: what refuses it before any record, what is kept of each record, and the sum of those that stand.
#![tactic(auto)]

ghost use Rattle.std.specs.Prelude.{◌≡◌, ℕ, ◌≤◌, ◌<◌, length, get_or, eqb, pos, nat_abs, ◌+ℤ◌, ◌*ℤ◌};
ghost use Rattle.refusals.specs.Numbers.{number};
ghost use Rattle.laws.specs.Below.{only, integers};
ghost use Rattle.laws.specs.Limits.{max_price, max_count, max_amount};
ghost use Rattle.model.specs.Reconcile.{record_in_range};
ghost use Rattle.desk_records.specs.Head.{head_refusal};
ghost use Rattle.desk_records.specs.Rows.{record_of, share, Takes, Took, unmarked};

use bag_keys::count_key;
use job_ranges::{is_count, upto32};
use refusals::Refusal;
use slices::limits::{MAX_BOXES, MAX_GROCERS, MAX_OFFERS, MAX_PRICE, TALLIES};

// A tally record: the place is that of its offer.
#[derive(Clone, Copy)]
pub struct Tally {
    pub grocer: u16,
    pub tally_box: u16,
    pub place: u16,
    pub count: i32,
    pub bag: u16,
    pub revision: u16,
}

// What the desk is asked: prices, how many grocers and offers there are, and the grocer wanted.
#[derive(Clone, Copy)]
pub struct Asked<'a> {
    pub price: &'a [u32],
    pub grocers: u16,
    pub offers: u16,
    pub wanted: u16,
}

// What is kept of records, by their places in the list: the keys of their counts, and what each adds to the amount of the grocer wanted.
#[derive(Drop)]
pub struct Entries {
    pub keys: [u64; TALLIES],
    pub shares: [i64; TALLIES],
}

// Whether a record is in range, by its fields.
#[tactic(auto, unfolding(model::specs::Reconcile::record_in_range))]
fn record_in_range(tally: Tally, grocers: u16, offers: u16) -> bool
    ensures { result ≡ record_in_range grocers offers (record_of tally) }
{
    (tally.grocer < grocers)
        & (tally.tally_box < MAX_BOXES)
        & (tally.place < offers)
        & is_count(tally.count)
}

// A sum with count × price added.
fn add_product(sum: i64, count: i32, price: u32) -> i64
    requires { (nat_abs sum ≤ max_amount) × (nat_abs count ≤ max_count) × (price ≤ max_price) }
    ensures { result ≡ sum +ℤ (count *ℤ pos price) }
{
    sum + i64::from(count) * i64::from(price)
}

// The refusal before any of len records, by what looks at none.
#[tactic(auto, unfolding(crate::specs::Head::head_refusal, crate::specs::Head::head_in_range))]
pub fn head_refusal(len: usize, asked: &Asked) -> Result<(), Refusal>
    ensures { number result ≡ head_refusal asked.now.grocers asked.now.offers asked.now.wanted asked.now.price.now len }
{
    let n = usize::from(asked.offers);
    if asked.price.len() < n {
        return Err(Refusal::LentShort);
    }
    let sizes = ((1 <= asked.grocers) & (asked.grocers <= MAX_GROCERS))
        & ((1 <= asked.offers) & (asked.offers <= MAX_OFFERS));
    if sizes
        & upto32(asked.price, n, MAX_PRICE)
        & (len <= TALLIES)
        & (asked.wanted < asked.grocers)
    {
        return Ok(());
    }
    Err(Refusal::OutOfRange)
}

// What a record adds to the amount of the grocer wanted: count × price, or nothing where it is of another grocer.
fn share_of(tally: Tally, price: &[u32], wanted: u16) -> i64
    requires { (tally.place < length price.now) × (get_or price.now tally.place 0 ≤ max_price) × (nat_abs tally.count ≤ max_count) }
    ensures { result ≡ share price.now wanted (record_of tally) }
{
    if tally.grocer != wanted {
        return 0;
    }
    add_product(0, tally.count, price[usize::from(tally.place)])
}

// Record i is looked at: in range its key and its share are kept, otherwise it is 21.
pub fn take_record(
    i: usize,
    tally: Tally,
    asked: &Asked,
    entries: &mut Entries,
) -> Result<(), Refusal>
    requires { Takes asked.now.offers asked.now.price.now i }
    ensures { Took asked.now.price.now asked.now.grocers asked.now.offers asked.now.wanted 0 i (record_of tally)
        entries.old.keys entries.new.keys entries.old.shares entries.new.shares (number result) }
{
    if !record_in_range(tally, asked.grocers, asked.offers) {
        return Err(Refusal::OutOfRange);
    }
    entries.keys[i] = count_key(tally.grocer, tally.place, tally.bag, tally.revision);
    entries.shares[i] = share_of(tally, asked.price, asked.wanted);
    Ok(())
}

// A sum with a share added, unless it is marked.
#[tactic(auto, unfolding(laws::specs::Below::only, laws::specs::Below::integers))]
fn add_unmarked(sum: i64, share: i64, mark: u16) -> i64
    requires { (nat_abs sum ≤ max_amount) × (nat_abs share ≤ max_amount) }
    ensures { result ≡ sum +ℤ only integers (eqb mark 0) share }
{
    if mark > 0 {
        return sum;
    }
    sum + share
}

// The sum of the first n shares that are not marked. The loop goes by place, since it reads two slices.
pub fn standing_sum(shares: &[i64], marks: &[u16], n: usize) -> i64
    requires n_bound { (n ≤ 1000) × (n ≤ length shares.now) × (n ≤ length marks.now) }
    requires by_index { (t : ℕ) → t < n → nat_abs (get_or shares.now t (pos 0)) ≤ 999_989_900_001 }
    ensures { result ≡ unmarked n marks.now shares.now }
{
    let mut sum = 0;
    for t in 0..n {
        sum = add_unmarked(sum, shares[t], marks[t]);
    }
    sum
}
