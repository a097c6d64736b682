// The whole file put into the buffer.
ghost use Rattle.std.specs.Prelude.{◌≡◌, ◌++◌, suc, ◌+◌, ◌*◌, ◌≤◌, length, drop};
ghost use Rattle.laws.specs.Lists.{list_words};
ghost use Rattle.format.specs.Blocks.{blocks_for, list_blocks, offer_bytes, tally_bytes};
ghost use Rattle.format.specs.File.{encode};
ghost use Rattle.format.specs.Tables.{LongOffers, LongTallies, offer_of, tally_of};
ghost use Rattle.writer_checks.specs.Held.{offers_held, tallies_held, held, job_held};
ghost use Rattle.file_blocks.specs.Due.{as_head};
ghost use Rattle.writer_bytes.specs.Puts.{put};
ghost use Rattle.writer.specs.Bodies.{record_body, list_body, blocks_of, Small};
ghost use Rattle.writer.specs.Ready.{Ready};

use crate::block::{
    put_grocer_block, put_header, put_offer_block, put_price_block, put_tally_block,
};
use file_blocks::plan::{blocks_for, grocers_at, list_blocks, tallies_at};
use writer_checks::Tables;

// All offer blocks, of n offers.
fn put_offer_blocks(out: &mut [u8], n: usize, tables: &Tables)
    requires n_bound { (n ≤ 500) × (512 * (1 + blocks_for n) ≤ length out.old) }
    requires long_offers { LongOffers 0 n (offers_held tables.now) }
    requires small { Small tables.now.offer_owner.now n }
    ensures { out.new ≡ put 512 (blocks_for n * 512) (blocks_of
        (record_body 1 1 n (λ i. offer_bytes (offer_of (offers_held tables.now) i))))
        out.old }
{
    for b in 0..blocks_for(n) {
        put_offer_block(out, b, n, tables);
    }
}

// Where the prices of n offers on an additional list begin, of lists from 0: behind those of the first list.
fn list_start(q: usize, n: usize) -> usize
    requires { (q ≤ 100) × (n ≤ 500) }
    ensures { (result ≡ suc q * n) × (result ≤ 100_000) }
{
    (q + 1) * n
}

// All price blocks of the additional lists, of n offers, from block k on.
fn put_price_blocks(out: &mut [u8], k: usize, lists: usize, n: usize, price: &[u32])
    requires le_n { ((1 ≤ n) × (n ≤ 500)) × ((lists ≤ 7) × ((k ≤ 100) × (512 * (k + lists * list_blocks n) ≤ length out.old))) }
    requires n_in_bounds { list_words lists n ≤ length price.now }
    ensures { out.new ≡ put (512 * k) (lists * list_blocks n * 512) (blocks_of (list_body k n price.now)) out.old }
{
    let each = list_blocks(n);
    for x in 0..lists * each {
        put_price_block(out, k + x, x % each, n, price, list_start(x / each, n));
    }
}

// All tally blocks, of t tallies, from block k on.
fn put_tally_blocks(out: &mut [u8], k: usize, t: usize, tables: &Tables)
    requires t_bound { (t ≤ 1000) × ((k ≤ 100) × (512 * (k + blocks_for t) ≤ length out.old)) }
    requires long_tallies { LongTallies t (tallies_held tables.now) }
    requires small { Small tables.now.tally_box.now t }
    ensures { out.new ≡ put (512 * k) (blocks_for t * 512) (blocks_of
        (record_body 3 k t (λ i. tally_bytes (tally_of (tallies_held tables.now) i))))
        out.old }
{
    for b in 0..blocks_for(t) {
        put_tally_block(out, k, b, t, tables);
    }
}

// The file of a job that is not refused: the header, then offer, grocer, price and tally blocks.
pub fn put_file(tables: &Tables, out: &mut [u8])
    requires { Ready (as_head tables.now.head) (held tables.now) out.old }
    ensures { out.new ≡ (let file = encode (job_held tables.now) in file ++ drop (length file) out.old) }
{
    let head = tables.head;
    let m = usize::from(head.sizes.grocers);
    let n = usize::from(head.sizes.offers);
    let t = usize::from(head.sizes.tallies);
    let lists = usize::from(head.sizes.lists);
    let k = grocers_at(head);
    put_header(out, head);
    put_offer_blocks(out, n, tables);
    put_grocer_block(out, k, m, tables.grocer_owner);
    put_price_blocks(out, k + 1, lists, n, tables.price);
    put_tally_blocks(out, tallies_at(head), t, tables);
}
