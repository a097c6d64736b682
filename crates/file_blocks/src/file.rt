// Whether a file is accepted, by conditions 1 to 9, and the place of each tally's offer.
ghost use Rattle.std.specs.Prelude.{◌≡◌, ◌≤◌, length, OnOk};
ghost use Rattle.refusals.specs.Numbers.{number};
ghost use Rattle.format.specs.Refusals.{file_refusal};
ghost use Rattle.file_blocks.specs.Sound.{Kept};

use crate::job_file::JobFile;
use crate::plan::read_head;
use crate::shape::shape_refusal;
use crate::twice::job_refusal;
use refusals::Refusal;

// The refusal of a file; where there is none, the file is sound, and each tally's place is kept.
pub fn file_refusal(f: &[u8], places: &mut [u16]) -> Result<(), Refusal>
    requires { 1000 ≤ length places.old }
    ensures value { number result ≡ file_refusal f.now }
    ensures kept { OnOk result (Kept f.now places.new) }
{
    shape_refusal(f)?;
    let file = JobFile {
        bytes: f,
        head: read_head(f),
    };
    job_refusal(&file, places)
}
