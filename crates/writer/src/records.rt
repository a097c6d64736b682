// Records put into the buffer for the file.
ghost use Rattle.std.specs.Prelude.{◌≡◌, ◌+◌, ◌*◌, ◌≤◌, ◌<◌, length, get_or};
ghost use Rattle.format.specs.Bytes.{bytes32};
ghost use Rattle.format.specs.Blocks.{offer_bytes, tally_bytes};
ghost use Rattle.format.specs.Tables.{offer_of, tally_of};
ghost use Rattle.writer_checks.specs.Held.{offers_held, tallies_held};
ghost use Rattle.writer_bytes.specs.Puts.{put, bytes_of};
ghost use Rattle.writer.specs.Bodies.{rows_of, Small};

use file_blocks::codes::CODE_BYTES;
use file_codes::copy_code;
use writer_bytes::{put_byte, put_words, put_zeros, put16, put32};
use writer_checks::Tables;

// Offer i in 24 bytes.
pub fn put_offer(out: &mut [u8], at: usize, tables: &Tables, i: usize)
    requires at_in_bounds { at + 24 ≤ length out.old }
    requires i_in_bounds { (i < length tables.now.price.now) × (i < length tables.now.offer_owner.now)
        × (i * 11 + 11 ≤ length tables.now.offer_code.now) × (i < length tables.now.offer_issuer.now) }
    requires i_bound { get_or tables.now.offer_owner.now i 0 < 256 }
    ensures { out.new ≡ put at 24 (bytes_of (offer_bytes (offer_of (offers_held tables.now) i)))
        out.old }
{
    put32(out, at, tables.price[i]);
    put_byte(out, at + 4, usize::from(tables.offer_owner[i]));
    copy_code(tables.offer_code, i * CODE_BYTES, out, at + 5);
    put16(out, at + 16, usize::from(tables.offer_issuer[i]));
    put_zeros(out, at + 18, 6);
}

// Tally i in 24 bytes.
pub fn put_tally(out: &mut [u8], at: usize, tables: &Tables, i: usize)
    requires at_in_bounds { at + 24 ≤ length out.old }
    requires i_in_bounds { (i < length tables.now.tally_grocer.now) × (i < length tables.now.tally_box.now) × (i * 11 + 11 ≤ length tables.now.tally_code.now) }
    requires i_in_bounds_2 { (i < length tables.now.tally_count.now) × (i < length tables.now.tally_issuer.now)
        × (i < length tables.now.tally_bag.now) × (i < length tables.now.tally_revision.now) }
    requires i_bound { get_or tables.now.tally_box.now i 0 < 256 }
    ensures { out.new ≡ put at 24
        (bytes_of (tally_bytes (tally_of (tallies_held tables.now) i))) out.old }
{
    put16(out, at, usize::from(tables.tally_grocer[i]));
    put_byte(out, at + 2, usize::from(tables.tally_box[i]));
    copy_code(tables.tally_code, i * CODE_BYTES, out, at + 3);
    put32(out, at + 14, tables.tally_count[i].cast_unsigned());
    put_words(
        out,
        at + 18,
        usize::from(tables.tally_issuer[i]),
        usize::from(tables.tally_bag[i]),
        usize::from(tables.tally_revision[i]),
    );
}

// Offers and tallies have a function each, here and for their blocks: one for both, with a closure that writes the record, is no plainer.
// N offers from `first` on, one after the other.
pub fn put_offers(out: &mut [u8], at: usize, first: usize, n: usize, tables: &Tables)
    requires n_bound { (n ≤ 21) × (at + n * 24 ≤ length out.old) }
    requires n_in_bounds { (first + n ≤ length tables.now.price.now) × (first + n ≤ length tables.now.offer_owner.now) }
    requires n_in_bounds_2 { ((first + n) * 11 ≤ length tables.now.offer_code.now) × (first + n ≤ length tables.now.offer_issuer.now) }
    requires small { Small tables.now.offer_owner.now (first + n) }
    ensures { out.new ≡ put at (n * 24) (rows_of 24 (λ r. bytes_of
        (offer_bytes (offer_of (offers_held tables.now) (first + r))))) out.old }
{
    for r in 0..n {
        put_offer(out, at + r * 24, tables, first + r);
    }
}

// N tallies from `first` on, one after the other.
pub fn put_tallies(out: &mut [u8], at: usize, first: usize, n: usize, tables: &Tables)
    requires n_bound { (n ≤ 21) × (at + n * 24 ≤ length out.old) }
    requires n_in_bounds { (first + n ≤ length tables.now.tally_grocer.now) × (first + n ≤ length tables.now.tally_box.now)
        × ((first + n) * 11 ≤ length tables.now.tally_code.now) }
    requires n_in_bounds_2 { (first + n ≤ length tables.now.tally_count.now) × (first + n ≤ length tables.now.tally_issuer.now) }
    requires n_in_bounds_3 { (first + n ≤ length tables.now.tally_bag.now) × (first + n ≤ length tables.now.tally_revision.now) }
    requires small { Small tables.now.tally_box.now (first + n) }
    ensures { out.new ≡ put at (n * 24) (rows_of 24 (λ r. bytes_of
        (tally_bytes (tally_of (tallies_held tables.now) (first + r))))) out.old }
{
    for r in 0..n {
        put_tally(out, at + r * 24, tables, first + r);
    }
}

// The owners of m grocers, a byte each.
pub fn put_owners(out: &mut [u8], at: usize, m: usize, grocer_owner: &[u16])
    requires m_in_bounds { (at + m ≤ length out.old) × (m ≤ length grocer_owner.now) }
    requires small { Small grocer_owner.now m }
    ensures { out.new ≡ put at m (bytes_of grocer_owner.now) out.old }
{
    for i in 0..m {
        out[at + i] = grocer_owner[i] as u8;
    }
}

// N prices from `first` on, four bytes each.
pub fn put_prices(out: &mut [u8], at: usize, first: usize, n: usize, price: &[u32])
    requires { (n ≤ 126) × (at + n * 4 ≤ length out.old) × (first + n ≤ length price.now) }
    ensures { out.new ≡ put at (n * 4) (rows_of 4 (λ r. bytes_of (bytes32 (get_or price.now (first + r) 0)))) out.old }
{
    for r in 0..n {
        put32(out, at + r * 4, price[first + r]);
    }
}
