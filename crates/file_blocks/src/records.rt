// Records of a block: fields outside their ranges.
ghost use Rattle.std.specs.Prelude.{◌≡◌, ◌+◌, ◌*◌, ◌≤◌, ltb, nat_abs, length};
ghost use Rattle.laws.specs.Below.{any};
ghost use Rattle.format.specs.Bytes.{from};
ghost use Rattle.format.specs.Job.{bad_offer, bad_tally};
ghost use Rattle.format.specs.Blocks.{kind_at};
ghost use Rattle.format.specs.File.{read_offer, read_tally, decode};
ghost use Rattle.format.specs.Refusals.{bad_record};
ghost use Rattle.file_blocks.specs.Due.{as_head, Due};

use crate::by_place::any_by;
use crate::codes::is_code;
use crate::kinds::BlockKind;
use crate::plan::Head;
use file_bytes::{byte16, count32, narrow16, word32};
use slices::limits::{MAX_COUNT, MAX_PRICE, MIN_COUNT};

// Whether a count is outside −99,999 to 99,999.
pub fn bad_count(count: i32) -> bool
    ensures { result ≡ ltb 99999 (nat_abs count) }
{
    (count < MIN_COUNT) | (MAX_COUNT < count)
}

// Whether a field of the offer at a place is outside its range.
pub fn bad_offer(f: &[u8], at: usize, head: Head) -> bool
    requires { at + 24 ≤ length f.now }
    ensures { result ≡ bad_offer (as_head head) (read_offer (from f.now at)) }
{
    (MAX_PRICE < word32(f, at)) | (head.sizes.boxes <= byte16(f, at + 4)) | !is_code(f, at + 5)
}

// Whether a field of the tally at a place is outside its range.
pub fn bad_tally(f: &[u8], at: usize, head: Head) -> bool
    requires { at + 24 ≤ length f.now }
    ensures { result ≡ bad_tally (as_head head) (read_tally (from f.now at)) }
{
    let ranges = (head.sizes.grocers <= narrow16(f, at)) | (head.sizes.boxes <= byte16(f, at + 2));
    ranges | !is_code(f, at + 3) | bad_count(count32(f, at + 14))
}

// Whether one of the records of block k is bad.
pub fn bad_records(f: &[u8], k: usize, kind: BlockKind, count: usize, head: Head) -> bool
    requires k_in_bounds { 512 * k + 512 ≤ length f.now }
    requires head_value { (as_head head ≡ (decode f.now).head) × Due (decode f.now).head k kind count }
    ensures { result ≡ any count (bad_record (decode f.now) (kind_at (decode f.now).head k)) }
{
    let at = 512 * k + 4;
    match kind {
        BlockKind::Header => false,
        BlockKind::Offers => any_by(count, |i| bad_offer(f, at + 24 * i, head)),
        BlockKind::Grocers => any_by(count, |i| head.sizes.boxes <= byte16(f, at + i)),
        BlockKind::Tallies => any_by(count, |i| bad_tally(f, at + 24 * i, head)),
        BlockKind::Prices => any_by(count, |i| MAX_PRICE < word32(f, at + 4 * i)),
    }
}
