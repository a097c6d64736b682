// Spare bytes of a block.
ghost use Rattle.std.specs.Prelude.{◌≡◌, ◌+◌, ◌*◌, ◌≤◌, ◌<◌, length};
ghost use Rattle.laws.specs.Below.{any};
ghost use Rattle.format.specs.Bytes.{from};
ghost use Rattle.format.specs.File.{decode};
ghost use Rattle.format.specs.Refusals.{spare_used};
ghost use Rattle.file_blocks.specs.Due.{Due};
ghost use Rattle.file_blocks.specs.Shape.{used, spare_in};

use crate::by_place::any_by;
use crate::kinds::BlockKind;

// Whether one of the n bytes at a place is not 0.
fn any_used(f: &[u8], at: usize, n: usize) -> bool
    requires { at + n ≤ length f.now }
    ensures { result ≡ any n (λ i. used (from f.now at i)) }
{
    any_by(n, |i| f[at + i] != 0)
}

// Whether a spare byte is not 0, of the 504 bytes at a place with their records: behind each record's fields, and behind the records.
fn spare_in(f: &[u8], at: usize, count: usize, size: usize, fields: usize) -> bool
    requires at_in_bounds { at + 504 ≤ length f.now }
    requires size_bound { (count * size ≤ 504) × (fields ≤ size) × (0 < size) × (size ≤ 504) }
    ensures { result ≡ spare_in count size fields (from f.now at) }
{
    let rest = size - fields;
    let behind = count * size;
    any_by(count, |i| any_used(f, at + (i * size + fields), rest))
        | any_used(f, at + behind, 504 - behind)
}

// The same of block k.
pub fn spare_used(f: &[u8], k: usize, kind: BlockKind, count: usize) -> bool
    requires k_in_bounds { 512 * k + 512 ≤ length f.now }
    requires due { Due (decode f.now).head k kind count }
    ensures { result ≡ spare_used (decode f.now).head k (from f.now (512 * k)) }
{
    spare_in(f, 512 * k + 4, count, kind.record_size(), kind.field_size())
}
