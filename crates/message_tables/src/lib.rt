// The public call that makes the tables of messages of a job, and the sums over them.
#![tactic(auto)]

ghost use Rattle.std.specs.Prelude.{◌≡◌};
ghost use Rattle.tables.specs.Lent.{job_held};
ghost use Rattle.message_tables.specs.Answers.{said, tables_given, message_tables};

use job_checks::checks::job_refusal;
use job_masks::masks::{needs, sharers};
use message_words::{price_table, total_table};
use refusals::Refusal;
use slices::limits::{BOXES, TALLIES};
use tables::Job;

pub mod sums;
pub mod words;

// The words from each box to each other box: 16 rows of 16 counts, the row is the sender, one such table for prices and
// one for totals; the words of the job are the ones in its need and sharer words, the owner's bit left out. The answer is how many words the job has.
// A refusal, 20, 21 or 9, leaves both tables as they were.
pub fn message_tables(
    job: &Job,
    prices: &mut [[u16; BOXES]; BOXES],
    totals: &mut [[u16; BOXES]; BOXES],
) -> Result<u32, Refusal>
    ensures { tables_given (said result) prices.new totals.new ≡ message_tables (job_held job.now) prices.old totals.old }
{
    let mut standing = [0; TALLIES];
    job_refusal(job, &mut standing)?;
    let z = job.sizes;
    let needing = needs(z.boxes, z.tallies, &standing, job.tally_offer);
    let sharing = sharers(z.boxes, z.tallies, &standing, job.tally_grocer);
    *prices = price_table(z.offers, job.offer_owner, &needing);
    *totals = total_table(z.grocers, job.grocer_owner, &sharing);
    Ok(words::word_total(
        z.grocers,
        z.offers,
        job.offer_owner,
        job.grocer_owner,
        &needing,
        &sharing,
    ))
}
