// The numbers that a file's header says, and what each block is due to hold.
ghost use Rattle.std.specs.Prelude.{◌≡◌, ◌+◌, ◌*◌, ◌-◌, ◌≤◌, min, length};
ghost use Rattle.format.specs.Bytes.{from};
ghost use Rattle.format.specs.Job.{bad_sizes};
ghost use Rattle.format.specs.Blocks.{blocks_for, list_blocks, grocers_at, prices_at, tallies_at, block_count, kind_at, block_kind_number, records};
ghost use Rattle.format.specs.File.{decode};
ghost use Rattle.format.specs.Refusals.{not_due};
ghost use Rattle.file_blocks.specs.Kinds.{kind_number};
ghost use Rattle.file_blocks.specs.Due.{as_head, Most, Due};

use crate::kinds::BlockKind;
use file_bytes::{byte16, narrow16, word16};
use slices::byte_at;
use slices::limits::{MAX_BOXES, MAX_GROCERS, MAX_LISTS, MAX_OFFERS, MAX_TALLIES};
use slices::sizes::Sizes;

// The numbers of a header: how many boxes, grocers, offers, tallies and additional price lists, and the settlement cycle.
#[derive(Clone, Copy)]
pub struct Head {
    pub sizes: Sizes,
    pub cycle: u16,
}

// The numbers that a file's header says.
pub fn read_head(f: &[u8]) -> Head
    requires { 15 ≤ length f.now }
    ensures { as_head result ≡ (decode f.now).head }
{
    let sizes = Sizes {
        boxes: byte16(f, 4),
        grocers: narrow16(f, 6),
        offers: narrow16(f, 8),
        tallies: narrow16(f, 10),
        lists: byte16(f, 14),
    };
    Head {
        sizes: sizes,
        cycle: narrow16(f, 12),
    }
}

// 4: whether one of K, M, N and T, or the number of additional lists, is outside its values.
pub fn bad_sizes(head: Head) -> bool
    ensures { result ≡ bad_sizes (as_head head) }
{
    let z = head.sizes;
    let b = (z.boxes < 1) | (MAX_BOXES < z.boxes);
    let g = (b | (z.grocers < 1)) | (MAX_GROCERS < z.grocers);
    let o = (g | (z.offers < 1)) | (MAX_OFFERS < z.offers);
    (o | (MAX_TALLIES < z.tallies)) | (MAX_LISTS < z.lists)
}

// How many blocks n records of 24 bytes take.
pub fn blocks_for(n: usize) -> usize
    requires { n ≤ 65535 }
    ensures { result ≡ blocks_for n }
{
    (n + 20) / 21
}

// How many blocks the prices of n offers on one list take.
pub fn list_blocks(n: usize) -> usize
    requires { n ≤ 65535 }
    ensures { result ≡ list_blocks n }
{
    (n + 125) / 126
}

// The plan of blocks: the grocer block, after the offer blocks,
pub fn grocers_at(head: Head) -> usize
    requires { head.sizes.offers ≤ 65535 }
    ensures { result ≡ grocers_at (as_head head) }
{
    1 + blocks_for(usize::from(head.sizes.offers))
}

// the first price block,
pub fn prices_at(head: Head) -> usize
    requires { head.sizes.offers ≤ 65535 }
    ensures { result ≡ prices_at (as_head head) }
{
    grocers_at(head) + 1
}

// the first tally block,
pub fn tallies_at(head: Head) -> usize
    requires { (head.sizes.offers ≤ 65535) × (head.sizes.lists ≤ 65535) }
    ensures { result ≡ tallies_at (as_head head) }
{
    let blocks = list_blocks(usize::from(head.sizes.offers));
    prices_at(head) + usize::from(head.sizes.lists) * blocks
}

// and how many blocks there are.
pub fn block_count(head: Head) -> usize
    requires { (head.sizes.offers ≤ 65535) × (head.sizes.tallies ≤ 65535) × (head.sizes.lists ≤ 65535) }
    ensures { result ≡ block_count (as_head head) }
{
    tallies_at(head) + blocks_for(usize::from(head.sizes.tallies))
}

// The kind of block k.
pub fn kind_at(head: Head, k: usize) -> BlockKind
    requires { (head.sizes.offers ≤ 65535) × (head.sizes.lists ≤ 65535) }
    ensures { kind_number result ≡ block_kind_number (kind_at (as_head head) k) }
{
    let grocers = grocers_at(head);
    if k < 1 {
        return BlockKind::Header;
    }
    if k < grocers {
        return BlockKind::Offers;
    }
    if k < grocers + 1 {
        return BlockKind::Grocers;
    }
    if k < tallies_at(head) {
        return BlockKind::Prices;
    }
    BlockKind::Tallies
}

// How many of n records stand in a block of at most so many, behind those that stand before it.
fn part(n: u16, before: usize, most: usize) -> usize
    ensures { result ≡ min most (n - before) }
{
    usize::from(n).saturating_sub(before).min(most)
}

// How many records price block k has.
fn prices_in(head: Head, k: usize) -> usize
    requires { (k ≤ 101) × Most (as_head head) × (block_kind_number (kind_at (as_head head) k) ≡ 4) }
    ensures { (result ≡ records (as_head head) (kind_at (as_head head) k)) × (result ≤ 126) }
{
    let n = head.sizes.offers;
    let first = prices_at(head);
    let b = (k - first) % list_blocks(usize::from(n));
    part(n, 126 * b, 126)
}

// How many records block k has.
pub fn records_at(head: Head, k: usize, kind: BlockKind) -> usize
    requires k_bound { (k ≤ 101) × Most (as_head head) }
    requires kind_value { kind_number kind ≡ block_kind_number (kind_at (as_head head) k) }
    ensures { (result ≡ records (as_head head) (kind_at (as_head head) k)) × (result ≤ 255) }
{
    match kind {
        BlockKind::Header => 1,
        BlockKind::Offers => part(head.sizes.offers, 21 * (k - 1), 21),
        BlockKind::Grocers => usize::from(head.sizes.grocers),
        BlockKind::Tallies => part(head.sizes.tallies, 21 * (k - tallies_at(head)), 21),
        BlockKind::Prices => prices_in(head, k),
    }
}

// Whether kind, block number or record count of block k is not as due.
pub fn not_due(f: &[u8], k: usize, kind: BlockKind, count: usize) -> bool
    requires k_in_bounds { 512 * k + 512 ≤ length f.now }
    requires due { Due (decode f.now).head k kind count }
    ensures { result ≡ not_due (decode f.now).head k (from f.now (512 * k)) }
{
    let at = 512 * k;
    (byte_at(f, at) != kind.number()) | (word16(f, at + 2) != k) | (byte_at(f, at + 1) != count)
}
