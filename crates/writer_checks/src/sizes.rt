// 20: lengths, by K, M, N, T and the number of additional price lists as they are given.
ghost use Rattle.std.specs.Prelude.{◌≡◌, ◌*◌, ◌≤◌};
ghost use Rattle.laws.specs.Lists.{list_words};
ghost use Rattle.format.specs.Blocks.{block_count};
ghost use Rattle.format.specs.Tables.{short_offers, short_tallies, short_writer};
ghost use Rattle.file_blocks.specs.Due.{as_head};
ghost use Rattle.writer_checks.specs.Held.{offers_held, tallies_held, held};

use crate::Tables;
use file_blocks::codes::CODE_BYTES;
use file_blocks::plan::{Head, block_count};

// The length of the file.
pub fn file_length(head: Head) -> usize
    ensures { result ≡ 512 * block_count (as_head head) }
{
    512 * block_count(head)
}

// How many prices n offers have, on the first list and on the additional ones.
fn price_words(lists: usize, n: usize) -> usize
    requires { (lists ≤ 65535) × (n ≤ 65535) }
    ensures { result ≡ list_words lists n }
{
    n * (lists + 1)
}

// 20 of the offers' tables, with additional price lists.
#[tactic(auto, unfolding(format::specs::Tables::short_offers))]
pub fn short_offers(tables: &Tables) -> bool
    ensures { result ≡ short_offers tables.now.head.sizes.lists tables.now.head.sizes.offers (offers_held tables.now) }
{
    let lists = usize::from(tables.head.sizes.lists);
    let n = usize::from(tables.head.sizes.offers);
    (tables.price.len() < price_words(lists, n))
        | (tables.offer_owner.len() < n)
        | (tables.offer_code.len() < n * CODE_BYTES)
        | (tables.offer_issuer.len() < n)
}

// 20 of the tallies' tables, for t tallies.
#[tactic(auto, unfolding(format::specs::Tables::short_tallies))]
pub fn short_tallies(t: usize, tables: &Tables) -> bool
    requires { t ≤ 65535 }
    ensures { result ≡ short_tallies t (tallies_held tables.now) }
{
    (tables.tally_grocer.len() < t)
        | (tables.tally_box.len() < t)
        | (tables.tally_code.len() < t * CODE_BYTES)
        | (tables.tally_count.len() < t)
        | (tables.tally_issuer.len() < t)
        | (tables.tally_bag.len() < t)
        | (tables.tally_revision.len() < t)
}

// 20: whether a table, or the buffer for the file, is shorter than K, M, N, T and the lists as given need.
#[tactic(auto, unfolding(format::specs::Tables::short_writer, format::specs::Tables::short_tables))]
pub fn short_writer(tables: &Tables, out: &[u8]) -> bool
    ensures { result ≡ short_writer (as_head tables.now.head) (held tables.now) out.now }
{
    let m = usize::from(tables.head.sizes.grocers);
    let t = usize::from(tables.head.sizes.tallies);
    short_offers(tables)
        | (tables.grocer_owner.len() < m)
        | short_tallies(t, tables)
        | (out.len() < file_length(tables.head))
}
