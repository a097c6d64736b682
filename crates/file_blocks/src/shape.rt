// The refusals of a file's form, in order.
ghost use Rattle.std.specs.Prelude.{◌≡◌, ◌+◌, ◌*◌, ◌-◌, ◌≤◌, length};
ghost use Rattle.format.specs.First.{first_below};
ghost use Rattle.format.specs.Blocks.{blocks};
ghost use Rattle.format.specs.File.{decode};
ghost use Rattle.format.specs.Refusals.{bad_length, bad_header, header_refusal, block_refusal};
ghost use Rattle.refusals.specs.Numbers.{number};
ghost use Rattle.file_blocks.specs.Due.{as_head, Most};
ghost use Rattle.file_blocks.specs.Shape.{shape_refusal};

use crate::kinds::BlockKind;
use crate::plan::{Head, bad_sizes, block_count, kind_at, not_due, read_head, records_at};
use crate::records::bad_records;
use crate::spares::spare_used;
use file_sums::sums_differ;
use refusals::Refusal;
use slices::byte_at;

// Whether the length is 0, not a multiple of 512, or over 102 blocks.
fn bad_length(f: &[u8]) -> bool
    ensures { result ≡ bad_length f.now }
{
    let n = f.len();
    ((n == 0) | (n % 512 != 0)) | (52224 < n)
}

// Whether byte 5 or a size of the header is outside its values.
fn bad_header(f: &[u8]) -> bool
    requires { 512 ≤ length f.now }
    ensures { result ≡ bad_header f.now }
{
    let head = read_head(f);
    (byte_at(f, 5) != 1) | bad_sizes(head)
}

// The refusal of the header: 2, 3, 4, 5.
#[tactic(auto, unfolding(format::specs::Refusals::header_refusal, laws::specs::Checks::first_met))]
pub fn header_refusal(f: &[u8]) -> Result<(), Refusal>
    requires { 512 ≤ length f.now }
    ensures { number result ≡ header_refusal f.now }
{
    if sums_differ(f, 0) {
        return Err(Refusal::SumsDiffer);
    }
    if not_due(f, 0, BlockKind::Header, 1) {
        return Err(Refusal::NotDue);
    }
    if bad_header(f) {
        return Err(Refusal::BadSizes);
    }
    if spare_used(f, 0, BlockKind::Header, 1) {
        return Err(Refusal::SpareUsed);
    }
    Ok(())
}

// The refusal of block k, which is not the header: 2, 3, 5, 6.
#[tactic(auto, using(crate::proofs::DueBlocks::due_found), unfolding(format::specs::Refusals::block_refusal, laws::specs::Checks::first_met))]
pub fn block_refusal(f: &[u8], k: usize, head: Head) -> Result<(), Refusal>
    requires k_in_bounds { (512 * k + 512 ≤ length f.now) × (1 ≤ k) × (k ≤ 101) }
    requires head_value { (as_head head ≡ (decode f.now).head) × Most (as_head head) }
    ensures { number result ≡ block_refusal f.now k }
{
    let kind = kind_at(head, k);
    let count = records_at(head, k, kind);
    if sums_differ(f, k) {
        return Err(Refusal::SumsDiffer);
    }
    if not_due(f, k, kind, count) {
        return Err(Refusal::NotDue);
    }
    if spare_used(f, k, kind, count) {
        return Err(Refusal::SpareUsed);
    }
    if bad_records(f, k, kind, count, head) {
        return Err(Refusal::BadRecord);
    }
    Ok(())
}

// The refusal of the first of the other blocks that is refused.
pub fn blocks_refusal(f: &[u8], head: Head, n: usize) -> Result<(), Refusal>
    requires n_in_bounds { (512 * n ≤ length f.now) × (n ≤ 102) × (n ≡ blocks (decode f.now)) }
    requires head_value { (as_head head ≡ (decode f.now).head) × Most (as_head head) }
    ensures { number result ≡ first_below (blocks (decode f.now) - 1) (λ k. block_refusal f.now (1 + k)) }
{
    for k in 1..n {
        block_refusal(f, k, head)?;
    }
    Ok(())
}

// The refusal of a file's form, for any bytes: 1, the header's, 1 for the block count, the other blocks'.
pub fn shape_refusal(f: &[u8]) -> Result<(), Refusal>
    ensures { number result ≡ shape_refusal f.now }
{
    if bad_length(f) {
        return Err(Refusal::BadLength);
    }
    header_refusal(f)?;
    let head = read_head(f);
    let n = block_count(head);
    if f.len() != 512 * n {
        return Err(Refusal::BadLength);
    }
    blocks_refusal(f, head, n)
}
