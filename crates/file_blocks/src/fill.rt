// Tables, each filled with one field of the records of a file; words past those are not touched. (Each is a line over `fill_by`, and has a
// name for its clause, by which the reader and settle go.)
ghost use Rattle.std.specs.Prelude.{◌≡◌, true, ℕ, suc, ◌+◌, ◌≤◌, ◌<◌, length, get_or};
ghost use Rattle.laws.specs.Lists.{list_words};
ghost use Rattle.laws.specs.Tables.{overwrite, recell};
ghost use Rattle.format.specs.Codes.{is_code, name_number};
ghost use Rattle.std.specs.Int.{w32};
ghost use Rattle.std.proofs.Common.{to_z};
ghost use Rattle.format.specs.Bytes.{from, after, word16, word32};
ghost use Rattle.format.specs.Job.{offer_name, price_on};
ghost use Rattle.format.specs.Blocks.{offers_at};
ghost use Rattle.format.specs.File.{record_at, price_at, decode};
ghost use Rattle.file_blocks.specs.Said.{said};
ghost use Rattle.file_blocks.specs.Copied.{Copied};

use crate::by_place::fill_by;
use crate::job_file::JobFile;
use crate::place::{price_at, record_at};
use crate::plan::{grocers_at, list_blocks, prices_at};
use file_bytes::{byte16, count32, narrow16, word16, word32};
use file_digits::name_at;

// The number of the name of offer i.
fn offer_number(f: &[u8], i: usize) -> u64
    requires i_bound { (i < 500) × (record_at offers_at i + 24 ≤ length f.now) }
    requires code { is_code ((decode f.now).offer i).code ≡ true }
    ensures { result ≡ name_number (offer_name (decode f.now) i) }
{
    let at = record_at(1, i);
    name_at(f, at + 5, word16(f, at + 16))
}

// The numbers of the offers' names.
pub fn fill_names(file: &JobFile, numbers: &mut [u64])
    requires numbers_long { file.now.head.sizes.offers ≤ length numbers.old }
    requires by_index { (i : ℕ) → i < file.now.head.sizes.offers → is_code ((said file.now).offer i).code ≡ true }
    ensures { numbers.new ≡ overwrite file.now.head.sizes.offers (λ i. name_number (offer_name (said file.now) i)) numbers.old }
{
    fill_by(
        numbers,
        usize::from(file.head.sizes.offers),
        |i| offer_number(file.bytes, i),
    );
}

// The owners of the grocers.
pub fn fill_owners(file: &JobFile, grocer_owner: &mut [u16])
    requires { file.now.head.sizes.grocers ≤ length grocer_owner.old }
    ensures { grocer_owner.new ≡ overwrite file.now.head.sizes.grocers (said file.now).grocer_owner grocer_owner.old }
{
    let m = usize::from(file.head.sizes.grocers);
    let at = 512 * grocers_at(file.head) + 4;
    fill_by(grocer_owner, m, |i| byte16(file.bytes, at + i));
}

// A table of 16-bit words: those at byte `at` of the first n records of 24 bytes whose first block is `first`.
pub fn fill_words(f: &[u8], first: usize, n: usize, at: usize, words: &mut [u16])
    requires first_bound { (first ≤ 100) × (n ≤ 1000) × (at ≤ 22) × (n ≤ length words.old) }
    requires by_index { (i : ℕ) → i < n → record_at first i + 24 ≤ length f.now }
    ensures { words.new ≡ overwrite n (λ i. word16 (after (from f.now (record_at first i)) at)) words.old }
{
    fill_by(words, n, |i| narrow16(f, record_at(first, i) + at));
}

// A table of 16-bit words: the bytes at byte `at` of these records.
pub fn fill_bytes(f: &[u8], first: usize, n: usize, at: usize, words: &mut [u16])
    requires first_bound { (first ≤ 100) × (n ≤ 1000) × (at ≤ 23) × (n ≤ length words.old) }
    requires by_index { (i : ℕ) → i < n → record_at first i + 24 ≤ length f.now }
    ensures { words.new ≡ overwrite n (λ i. get_or f.now (record_at first i + at) 0) words.old }
{
    fill_by(words, n, |i| byte16(f, record_at(first, i) + at));
}

// The prices of the first n offers on the first list.
pub fn fill_prices(f: &[u8], n: usize, price: &mut [u32])
    requires n_bound { (n ≤ 500) × (n ≤ length price.old) }
    requires by_index { (i : ℕ) → i < n → record_at offers_at i + 24 ≤ length f.now }
    ensures { price.new ≡ overwrite n (λ i. ((decode f.now).offer i).price) price.old }
{
    fill_by(price, n, |i| word32(f, record_at(1, i)));
}

// The prices of the first n offers on the list whose first block is `first`, from word `to` on.
fn fill_list(f: &[u8], first: usize, n: usize, to: usize, price: &mut [u32])
    requires first_bound { (first ≤ 100) × (n ≤ 500) × (to ≤ 3500) × (to + n ≤ length price.old) }
    requires by_index { (i : ℕ) → i < n → price_at first i + 4 ≤ length f.now }
    ensures { Copied (λ i. word32 (from f.now (price_at first i))) to n price.old price.new }
{
    fill_by(&mut price[to..to + n], n, |i| word32(f, price_at(first, i)));
}

// The prices of all lists, list after list.
pub fn fill_lists(file: &JobFile, price: &mut [u32])
    requires { list_words file.now.head.sizes.lists file.now.head.sizes.offers ≤ length price.old }
    ensures { price.new ≡ recell (suc file.now.head.sizes.lists) file.now.head.sizes.offers
        (price_on (said file.now).offer (said file.now).list_price) price.old }
{
    let n = usize::from(file.head.sizes.offers);
    let lists = usize::from(file.head.sizes.lists);
    let blocks = list_blocks(n);
    let first = prices_at(file.head);
    fill_prices(file.bytes, n, price);
    for q in 0..lists {
        fill_list(file.bytes, first + q * blocks, n, (q + 1) * n, price);
    }
}

// The counts of the first n tallies, whose first block is `first`.
pub fn fill_counts(f: &[u8], first: usize, n: usize, tally_count: &mut [i32])
    requires first_bound { (first ≤ 100) × (n ≤ 1000) × (n ≤ length tally_count.old) }
    requires by_index { (i : ℕ) → i < n → record_at first i + 24 ≤ length f.now }
    ensures { tally_count.new ≡ overwrite n (λ i. to_z w32 (word32 (after (from f.now (record_at first i)) 14)))
        tally_count.old }
{
    fill_by(tally_count, n, |i| count32(f, record_at(first, i) + 14));
}
