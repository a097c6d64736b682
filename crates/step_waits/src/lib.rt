// Words of one bit for each box: whose prices a box's totals for another box wait for.
#![tactic(auto)]

ghost use Rattle.std.specs.Prelude.{◌≡◌, ◌<◌, ◌≤◌};
ghost use Rattle.step_waits.specs.Waits.{tally_lists, wait_table, WaitsIn, waited};

use slices::bits::set_bit;
use slices::limits::BOXES;
use slices::{index_at, u16_at};
use tables::Job;

// One tally of box a, of a grocer of box b and an offer of box o: bit o of the word of a and b, where a is below k.
fn add_wait(words: &mut [[u16; BOXES]; BOXES], k: u16, a: u16, b: u16, o: u16)
    requires { (k ≤ 16) × ((b < 16) × (o < 16)) }
    ensures { words.new ≡ waited k a b o words.old }
{
    if a < k {
        let i = usize::from(a);
        let j = usize::from(b);
        let more = set_bit(words[i][j], o);
        words[i][j] = more;
    }
}

// For boxes a and b the owners of the offers of the tallies that a holds of b's grocers, in one pass over the tallies.
pub fn waits(job: &Job) -> [[u16; BOXES]; BOXES]
    requires { WaitsIn job.now.sizes.boxes job.now.sizes.tallies (tally_lists job.now.offer_owner.now job.now.grocer_owner.now
        job.now.tally_grocer.now job.now.tally_box.now job.now.tally_offer.now) }
    ensures { result ≡ wait_table job.now.sizes.boxes (tally_lists job.now.offer_owner.now job.now.grocer_owner.now
        job.now.tally_grocer.now job.now.tally_box.now job.now.tally_offer.now) job.now.sizes.tallies }
{
    let row = [0u16; BOXES];
    let mut words = [row; BOXES];
    let n = usize::from(job.sizes.tallies);
    for t in 0..n {
        let g = index_at(job.tally_grocer, t);
        let o = index_at(job.tally_offer, t);
        add_wait(
            &mut words,
            job.sizes.boxes,
            u16_at(job.tally_box, t),
            u16_at(job.grocer_owner, g),
            u16_at(job.offer_owner, o),
        );
    }
    words
}
