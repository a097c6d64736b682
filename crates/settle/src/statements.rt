// From the bytes of a job file to the lines that settle prints. Only what these need is read: no digits, and no issuers.
ghost use Rattle.std.specs.Prelude.{◌≡◌, take, drop};
ghost use Rattle.io.specs.Counts.{IsPrefixLen};
ghost use Rattle.format.specs.File.{decode};
ghost use Rattle.format.specs.Refusals.{file_refusal};
ghost use Rattle.file_blocks.specs.Due.{as_head};
ghost use Rattle.file_blocks.specs.Sound.{Kept};
ghost use Rattle.settle_text.specs.Puts.{Put};
ghost use Rattle.printing.specs.Printed.{printed};

use crate::due::{STATEMENTS, WIDTH, due_run};
use file_blocks::file::file_refusal;
use file_blocks::job_file::JobFile;
use file_blocks::plan::{Head, read_head};
use file_blocks::standing::standing_boxes;
use file_blocks::tables::{fill_offers, fill_tallies};
use settle_text::lines::{TEXT, put_refused, put_settled};
use slices::limits::{GROCERS, OFFERS, TALLIES};
use tables::Job;

// The most prices: a word of each list for each offer.
const PRICES: usize = OFFERS * WIDTH;

// The lines of an accepted file: its job is run with no choices, with the tallies that stand.
fn put_job(out: &mut [u8; TEXT], file: &[u8], head: Head, places: &[u16; TALLIES]) -> usize
    requires { (as_head head ≡ (decode file.now).head) × ((file_refusal file.now ≡ 0) × Kept file.now places.now) }
    ensures { Put 0 (printed file.now) out.old out.new result }
{
    let job_file = JobFile { bytes: file, head };
    let z = head.sizes;
    let m = z.grocers as usize;
    let mut price = [0u32; PRICES];
    let mut offer_owner = [0u16; OFFERS];
    let mut grocer_owner = [0u16; GROCERS];
    fill_offers(&job_file, &mut price, &mut offer_owner, &mut grocer_owner);
    let mut tally_grocer = [0u16; TALLIES];
    let mut tally_offer = [0u16; TALLIES];
    let mut tally_count = [0i32; TALLIES];
    fill_tallies(
        &job_file,
        places,
        &mut tally_grocer,
        &mut tally_offer,
        &mut tally_count,
    );
    let mut tally_box = [0u16; TALLIES];
    standing_boxes(&job_file, places, &mut tally_box);
    let mut statement = [0i64; STATEMENTS];
    let job = Job {
        sizes: z,
        price: &price,
        offer_owner: &offer_owner,
        grocer_owner: &grocer_owner,
        tally_grocer: &tally_grocer,
        tally_box: &tally_box,
        tally_offer: &tally_offer,
        tally_count: &tally_count,
        tally_bag: &[],
        tally_revision: &[],
    };
    let report = due_run(&job, &mut statement);
    put_settled(
        out,
        head.cycle,
        z.lists,
        m,
        &statement,
        report.words,
        report.messages,
        report.steps,
    )
}

// Puts what settle prints for a job file at the start of the buffer, and answers how many bytes that is. What stands behind them stays.
pub fn settled(file: &[u8], out: &mut [u8; TEXT]) -> usize
    ensures prefix_len { IsPrefixLen result out.new }
    ensures out_after { take result out.new ≡ printed file.now }
    ensures out_unchanged { drop result out.new ≡ drop result out.old }
{
    let mut places = [0u16; TALLIES];
    match file_refusal(file, &mut places) {
        Ok(()) => put_job(out, file, read_head(file), &places),
        Err(refusal) => put_refused(out, refusal.number()),
    }
}
