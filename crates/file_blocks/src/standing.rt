// The boxes of the tallies that stand.
ghost use Rattle.std.specs.Prelude.{◌≡◌, false, ◌≤◌, length};
ghost use Rattle.laws.specs.Tables.{overwrite};
ghost use Rattle.recount.specs.Recount.{counted_twice};
ghost use Rattle.format.specs.Job.{counted_tallies};
ghost use Rattle.index.specs.Bags.{Struck};
ghost use Rattle.file_blocks.specs.Fills.{Placed};
ghost use Rattle.file_blocks.specs.Said.{said};

use crate::fill::fill_bytes;
use crate::job_file::JobFile;
use crate::plan::tallies_at;
use crate::twice::{any_bag, fill_keys};
use slices::limits::TALLIES;

// The boxes of superseded tallies become 16.
fn strike_keys(file: &JobFile, places: &[u16], boxes: &mut [u16])
    requires placed { Placed (said file.now) places.now file.now.head.sizes.tallies }
    requires tallies_in_bounds { (file.now.head.sizes.tallies ≤ length places.now) × (file.now.head.sizes.tallies ≤ length boxes.old) }
    requires f_value { counted_twice (counted_tallies (said file.now)) ≡ false }
    ensures { Struck (counted_tallies (said file.now)) file.now.head.sizes.tallies boxes.old boxes.new }
{
    let t = usize::from(file.head.sizes.tallies);
    let mut keys = [0u64; TALLIES];
    fill_keys(file, places, &mut keys);
    index::bags::strike(&keys, t, boxes);
}

// The box of each tally that stands, and 16 for the others. Where every bag is 0 nothing is sorted.
pub fn standing_boxes(file: &JobFile, places: &[u16], boxes: &mut [u16])
    requires placed { Placed (said file.now) places.now file.now.head.sizes.tallies }
    requires tallies_in_bounds { (file.now.head.sizes.tallies ≤ length places.now) × (file.now.head.sizes.tallies ≤ length boxes.old) }
    requires f_value { counted_twice (counted_tallies (said file.now)) ≡ false }
    ensures { Struck (counted_tallies (said file.now)) file.now.head.sizes.tallies
        (overwrite file.now.head.sizes.tallies (λ i. ((said file.now).tally i).box) boxes.old) boxes.new }
{
    let t = usize::from(file.head.sizes.tallies);
    fill_bytes(file.bytes, tallies_at(file.head), t, 2, boxes);
    if any_bag(file) {
        strike_keys(file, places, boxes);
    }
}
