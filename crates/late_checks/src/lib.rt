// What the calls of late bags decide before a word is written (02 §7): conditions 31 and 32, and the packed length of the edited job.
#![tactic(auto)]

ghost use Rattle.std.specs.Prelude.{◌≡◌};
ghost use Rattle.tables.specs.Lent.{job_held};
ghost use Rattle.late_rules.specs.Edit.{job_in};
ghost use Rattle.late_checks.specs.Lent.{head_held, reader_held};

use slices::sizes::Sizes;
use tables::Job;

pub mod copies;
pub mod decide;
pub mod judge;
pub mod names;
pub mod present;

// The tables of a job as the reader leaves them: its sizes, and thirteen lent slices, codes and the places of the tallies' offers among them. No
// call writes them.
#[derive(Clone, Copy)]
pub struct Tables<'a> {
    pub sizes: Sizes,
    pub price: &'a [u32],
    pub offer_owner: &'a [u16],
    pub offer_code: &'a [u8],
    pub offer_issuer: &'a [u16],
    pub grocer_owner: &'a [u16],
    pub tally_grocer: &'a [u16],
    pub tally_box: &'a [u16],
    pub tally_code: &'a [u8],
    pub tally_count: &'a [i32],
    pub tally_issuer: &'a [u16],
    pub tally_bag: &'a [u16],
    pub tally_revision: &'a [u16],
    pub tally_offer: &'a [u16],
}

// The tables that a run reads.
pub fn run_job<'a>(tables: &'a Tables) -> Job<'a>
    ensures { job_held result ≡ job_in (head_held tables.now) (reader_held tables.now) }
{
    Job {
        sizes: tables.sizes,
        price: tables.price,
        offer_owner: tables.offer_owner,
        grocer_owner: tables.grocer_owner,
        tally_grocer: tables.tally_grocer,
        tally_box: tables.tally_box,
        tally_offer: tables.tally_offer,
        tally_count: tables.tally_count,
        tally_bag: tables.tally_bag,
        tally_revision: tables.tally_revision,
    }
}
