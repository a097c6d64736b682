// Bags and revisions that stand twice: refusal 9.
ghost use Rattle.std.specs.Prelude.{◌≡◌, not, ◌+◌, ◌*◌, ◌≤◌, eqb, length, OnOk};
ghost use Rattle.laws.specs.Below.{any};
ghost use Rattle.recount.specs.Recount.{counted_twice};
ghost use Rattle.format.specs.Bytes.{from, word16};
ghost use Rattle.format.specs.Job.{counted_tallies};
ghost use Rattle.index.specs.Bags.{KeysOf};
ghost use Rattle.refusals.specs.Numbers.{number};
ghost use Rattle.file_blocks.specs.Due.{as_head};
ghost use Rattle.file_blocks.specs.Fills.{Placed};
ghost use Rattle.file_blocks.specs.Said.{said};
ghost use Rattle.file_blocks.specs.Sound.{Sound, last_refusal};

use crate::by_place::{any_by, fill_by};
use crate::job_file::JobFile;
use crate::look::names_refusal;
use crate::place::record_at;
use crate::plan::tallies_at;
use file_bytes::{narrow16, word16};
use refusals::Refusal;
use slices::limits::TALLIES;

// Whether one of the tallies has a bag other than 0.
pub fn any_bag(file: &JobFile) -> bool
    ensures { result ≡ any file.now.head.sizes.tallies (λ t. not (eqb ((said file.now).tally t).bag 0)) }
{
    let t = usize::from(file.head.sizes.tallies);
    let first = tallies_at(file.head);
    any_by(t, |i| word16(file.bytes, record_at(first, i) + 20) != 0)
}

// The key of the tally whose record stands at a place, and whose offer is at place `offer`.
fn tally_key(f: &[u8], at: usize, offer: u16) -> u64
    requires { at + 24 ≤ length f.now }
    ensures value { result ≡ ((word16 (from f.now at) * 512 + offer) * 65536 + word16 (from f.now (at + 20))) * 65536 +
        word16 (from f.now (at + 22)) }
    ensures fits { (word16 (from f.now (at + 20)) ≤ 65535) × (word16 (from f.now (at + 22)) ≤ 65535) }
{
    bag_keys::count_key(
        narrow16(f, at),
        offer,
        narrow16(f, at + 20),
        narrow16(f, at + 22),
    )
}

// The keys of the tallies.
pub fn fill_keys(file: &JobFile, places: &[u16], keys: &mut [u64])
    requires placed { Placed (said file.now) places.now file.now.head.sizes.tallies }
    requires tallies_in_bounds { (file.now.head.sizes.tallies ≤ length places.now) × (file.now.head.sizes.tallies ≤ length keys.old) }
    ensures { KeysOf (counted_tallies (said file.now)) keys.new file.now.head.sizes.tallies }
{
    let t = usize::from(file.head.sizes.tallies);
    let first = tallies_at(file.head);
    fill_by(
        keys,
        t,
        |i| tally_key(file.bytes, record_at(first, i), places[i]),
    );
}

// 9, by the keys of the tallies.
fn keys_twice(file: &JobFile, places: &[u16]) -> bool
    requires placed { Placed (said file.now) places.now file.now.head.sizes.tallies }
    requires tallies_in_bounds { file.now.head.sizes.tallies ≤ length places.now }
    ensures { result ≡ counted_twice (counted_tallies (said file.now)) }
{
    let t = usize::from(file.head.sizes.tallies);
    let mut keys = [0u64; TALLIES];
    fill_keys(file, places, &mut keys);
    index::bags::counted_twice(&keys, t)
}

// 9. Where every bag is 0 no key is made, and nothing is sorted.
fn bags_twice(file: &JobFile, places: &[u16]) -> bool
    requires placed { Placed (said file.now) places.now file.now.head.sizes.tallies }
    requires tallies_in_bounds { file.now.head.sizes.tallies ≤ length places.now }
    ensures { result ≡ counted_twice (counted_tallies (said file.now)) }
{
    any_bag(file) && keys_twice(file, places)
}

// 7, 8 or 9 of a file of which nothing before them is refused, and, where none is met, the place of each tally's offer.
pub fn job_refusal(file: &JobFile, places: &mut [u16]) -> Result<(), Refusal>
    requires { Sound file.now.bytes.now (as_head file.now.head) × (file.now.head.sizes.tallies ≤ length places.old) }
    ensures value { number result ≡ last_refusal (said file.now) }
    ensures placed { OnOk result (Placed (said file.now) places.new file.now.head.sizes.tallies) }
{
    names_refusal(file, places)?;
    if bags_twice(file, places) {
        return Err(Refusal::CountedTwice);
    }
    Ok(())
}
