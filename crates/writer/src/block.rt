// Blocks put into the buffer for the file: head, records, zeros and both sums.
ghost use Rattle.std.specs.Prelude.{◌≡◌, [], ◌∷◌, ◌+◌, ◌*◌, ◌≤◌, ◌<◌, length, get_or};
ghost use Rattle.format.specs.Bytes.{from, bytes16};
ghost use Rattle.format.specs.Blocks.{header_bytes, offer_bytes, tally_bytes};
ghost use Rattle.format.specs.File.{block_byte};
ghost use Rattle.format.specs.Tables.{LongOffers, LongTallies, offer_of, tally_of};
ghost use Rattle.writer_checks.specs.Held.{offers_held, tallies_held};
ghost use Rattle.file_blocks.specs.Due.{as_head, Most};
ghost use Rattle.writer_bytes.specs.Puts.{put, bytes_of};
ghost use Rattle.writer.specs.Bodies.{body_of, keep_of, record_body, price_body, Small};

use crate::records::{put_offers, put_owners, put_prices, put_tallies};
use file_blocks::kinds::BlockKind;
use file_blocks::plan::Head;
use file_sums::sums;
use writer_bytes::{put_byte, put_four, put_words, put_zeros, put16};
use writer_checks::Tables;

// Zeros behind the first bytes of a block, and both sums.
fn close_block(out: &mut [u8], at: usize, used: usize)
    requires { (at + 512 ≤ length out.old) × (used ≤ 508) }
    ensures { out.new ≡ put at 512 (block_byte (keep_of used (from out.old at))) out.old }
{
    put_zeros(out, at + used, 508 - used);
    let s = sums(out, at);
    put16(out, at + 508, usize::from(s.first));
    put16(out, at + 510, usize::from(s.second));
}

// The header's record: K, 1, M, N, T, the cycle and the number of additional price lists.
fn put_sizes(out: &mut [u8], head: Head)
    requires { (15 ≤ length out.old) × Most (as_head head) }
    ensures { out.new ≡ put 4 11 (bytes_of (header_bytes (as_head head))) out.old }
{
    let z = head.sizes;
    put_four(out, 4, usize::from(z.boxes), 1, usize::from(z.grocers));
    put_words(
        out,
        8,
        usize::from(z.offers),
        usize::from(z.tallies),
        usize::from(head.cycle),
    );
    put_byte(out, 14, usize::from(z.lists));
}

// The header block.
pub fn put_header(out: &mut [u8], head: Head)
    requires { (512 ≤ length out.old) × Most (as_head head) }
    ensures { out.new ≡ put 0 512 (block_byte (body_of (0 ∷ 1 ∷ bytes16 0) 504 1 (λ _. bytes_of (header_bytes (as_head head)))))
        out.old }
{
    put_four(out, 0, BlockKind::Header.number(), 1, 0);
    put_sizes(out, head);
    close_block(out, 0, 15);
}

// Offer block b, of n offers.
pub fn put_offer_block(out: &mut [u8], b: usize, n: usize, tables: &Tables)
    requires n_bound { (n ≤ 500) × ((21 * b < n) × (512 * (2 + b) ≤ length out.old)) }
    requires long_offers { LongOffers 0 n (offers_held tables.now) }
    requires small { Small tables.now.offer_owner.now n }
    ensures { out.new ≡ put (512 * (1 + b)) 512 (block_byte
        (record_body 1 1 n (λ i. offer_bytes (offer_of (offers_held tables.now) i)) b)) out.old }
{
    let number = 1 + b;
    let at = 512 * number;
    let first = 21 * b;
    let count = (n - first).min(21);
    put_four(out, at, BlockKind::Offers.number(), count, number);
    put_offers(out, at + 4, first, count, tables);
    close_block(out, at, 4 + count * 24);
}

// The grocer block, block k, of m grocers.
pub fn put_grocer_block(out: &mut [u8], k: usize, m: usize, grocer_owner: &[u16])
    requires m_bound { (m ≤ 255) × ((k < 65536) × (512 * (k + 1) ≤ length out.old)) }
    requires m_in_bounds { (m ≤ length grocer_owner.now) × Small grocer_owner.now m }
    ensures { out.new ≡ put (512 * k) 512 (block_byte (body_of (2 ∷ m ∷ bytes16 k) 1 m
        (λ r. bytes_of (get_or grocer_owner.now r 0 ∷ [])))) out.old }
{
    let at = 512 * k;
    put_four(out, at, BlockKind::Grocers.number(), m, k);
    put_owners(out, at + 4, m, grocer_owner);
    close_block(out, at, 4 + m);
}

// Block `number` of the file: price block b of a list, whose n prices begin at `from`.
pub fn put_price_block(
    out: &mut [u8],
    number: usize,
    b: usize,
    n: usize,
    price: &[u32],
    from: usize,
)
    requires n_bound { (n ≤ 500) × ((126 * b < n) × ((number ≤ 200) × (512 * (number + 1) ≤ length out.old))) }
    requires from_bound { (from ≤ 100_000) × (from + n ≤ length price.now) }
    ensures { out.new ≡ put (512 * number) 512 (block_byte (price_body number n (λ i. get_or price.now (from + i) 0) b))
        out.old }
{
    let at = 512 * number;
    let first = 126 * b;
    let count = (n - first).min(126);
    put_four(out, at, BlockKind::Prices.number(), count, number);
    put_prices(out, at + 4, from + first, count, price);
    close_block(out, at, 4 + count * 4);
}

// Tally block b, of t tallies whose first block is block k.
pub fn put_tally_block(out: &mut [u8], k: usize, b: usize, t: usize, tables: &Tables)
    requires t_bound { (t ≤ 1000) × ((21 * b < t) × ((k ≤ 100) × (512 * (k + b + 1) ≤ length out.old))) }
    requires long_tallies { LongTallies t (tallies_held tables.now) }
    requires small { Small tables.now.tally_box.now t }
    ensures { out.new ≡ put (512 * (k + b)) 512 (block_byte
        (record_body 3 k t (λ i. tally_bytes (tally_of (tallies_held tables.now) i)) b))
        out.old }
{
    let number = k + b;
    let at = 512 * number;
    let first = 21 * b;
    let count = (t - first).min(21);
    put_four(out, at, BlockKind::Tallies.number(), count, number);
    put_tallies(out, at + 4, first, count, tables);
    close_block(out, at, 4 + count * 24);
}
