// The three calls of a host, on numbers and lent words. Each answers 0, or the number of the refusal. `host_c` has them for C.
#![tactic(auto)]

ghost use Rattle.std.specs.Prelude.{◌≡◌, List, ℕ, ◌≤◌, length};
ghost use Rattle.model.specs.Tables.{StateTables};
ghost use Rattle.model.specs.Lent.{bag_lent, state_before, state_after};
ghost use Rattle.model.specs.Step.{asked};
ghost use Rattle.format.specs.Tables.{ReaderTables};
ghost use Rattle.format.specs.Lent.{reader_before, reader_after};
ghost use Rattle.reader.specs.Answer.{answer_of as read_answer};
ghost use Rattle.step.specs.Answer.{answer_of as step_answer};
ghost use Rattle.run.specs.Run.{answer_of as run_answer};
ghost use Rattle.host.specs.Host.{host_read, read_as, read_by_host, host_run, run_as, ran_by_host, host_step, step_number, stepped_by_host};

use file_blocks::plan::Head;
use refusals::Refusal;
use run::Finished;
use slices::sizes::Sizes;
use step_places::Step;
use tables::{Job, State};

// The number of the reader's answer; K, M, N, T, the cycle and the number of additional lists of an accepted file go in front of the buffer.
fn tell_sizes(answer: Result<Head, Refusal>, sizes: &mut [u16]) -> u16
    requires { 6 ≤ length sizes.old }
    ensures { (l : ReaderTables) → host_read result l sizes.new ≡ read_as (read_answer answer) l sizes.old }
{
    match answer {
        Ok(head) => {
            let z = head.sizes;
            let told = [z.boxes, z.grocers, z.offers, z.tallies, head.cycle, z.lists];
            sizes[..6].copy_from_slice(&told);
            0
        }
        Err(refusal) => refusal.number(),
    }
}

// The number of the run's answer; words sent, messages and steps of a finished run go in front of the buffer.
fn tell_report(answer: Result<Finished, Refusal>, report: &mut [u32]) -> u16
    requires { 3 ≤ length report.old }
    ensures { (t : StateTables) (k : List ℕ) → host_run result t k report.new ≡ run_as (run_answer answer) t k report.old }
{
    match answer {
        Ok(finished) => {
            let told = [finished.words, finished.messages, finished.steps];
            report[..3].copy_from_slice(&told);
            0
        }
        Err(refusal) => refusal.number(),
    }
}

// Reads a job file into the lent tables, and its K, M, N, T, cycle and number of additional lists into the buffer for sizes. A refusal leaves every
// word as it was.
pub fn settlement_read(
    file: &[u8],
    price: &mut [u32],
    offer_owner: &mut [u16],
    offer_code: &mut [u8],
    offer_issuer: &mut [u16],
    grocer_owner: &mut [u16],
    tally_grocer: &mut [u16],
    tally_box: &mut [u16],
    tally_code: &mut [u8],
    tally_count: &mut [i32],
    tally_issuer: &mut [u16],
    tally_bag: &mut [u16],
    tally_revision: &mut [u16],
    tally_offer: &mut [u16],
    sizes: &mut [u16],
) -> u16
    ensures { host_read result
        (reader_after price offer_owner offer_code offer_issuer grocer_owner tally_grocer tally_box tally_code tally_count tally_issuer
        tally_bag tally_revision tally_offer) sizes.new
        ≡ read_by_host file.now
        (reader_before price offer_owner offer_code offer_issuer grocer_owner tally_grocer tally_box tally_code tally_count tally_issuer
        tally_bag tally_revision tally_offer) sizes.old }
{
    if sizes.len() < 6 {
        return Refusal::LentShort.number();
    }
    let mut tables = reader::Tables {
        price,
        offer_owner,
        offer_code,
        offer_issuer,
        grocer_owner,
        tally_grocer,
        tally_box,
        tally_code,
        tally_count,
        tally_issuer,
        tally_bag,
        tally_revision,
        tally_offer,
    };
    let answer = reader::read(file, &mut tables);
    tell_sizes(answer, sizes)
}

// One step request on the lent tables. A refusal leaves every word as it was.
pub fn settlement_step(
    boxes: u16,
    grocers: u16,
    offers: u16,
    tallies: u16,
    lists: u16,
    price: &[u32],
    offer_owner: &[u16],
    grocer_owner: &[u16],
    tally_grocer: &[u16],
    tally_box: &[u16],
    tally_offer: &[u16],
    tally_count: &[i32],
    tally_bag: &[u16],
    tally_revision: &[u16],
    known: &mut [u32],
    price_transit: &mut [u32],
    working: &mut [i64],
    total_transit: &mut [i64],
    statement: &mut [i64],
    done: &mut [u16],
    sent: &mut [u32],
    kind: u16,
    first: u16,
    second: u16,
) -> u16
    ensures { host_step result
        (state_after known price_transit working total_transit statement done sent)
        ≡ stepped_by_host
        (bag_lent boxes grocers offers tallies lists price offer_owner grocer_owner tally_grocer tally_box tally_offer tally_count
        tally_bag tally_revision)
        (state_before known price_transit working total_transit statement done sent)
        (asked kind first second) }
{
    let job = Job {
        sizes: Sizes {
            boxes,
            grocers,
            offers,
            tallies,
            lists,
        },
        price,
        offer_owner,
        grocer_owner,
        tally_grocer,
        tally_box,
        tally_offer,
        tally_count,
        tally_bag,
        tally_revision,
    };
    let mut state = State {
        known,
        price_transit,
        working,
        total_transit,
        statement,
        done,
        sent,
    };
    let request = Step {
        kind,
        first,
        second,
    };
    refusals::number(step::step(&job, &mut state, request))
}

// The run of a job from a fresh state; the places of the steps picked go into one buffer, as far as it reaches, and what it reports into
// another. A refusal leaves every word as it was.
pub fn settlement_run(
    boxes: u16,
    grocers: u16,
    offers: u16,
    tallies: u16,
    lists: u16,
    price: &[u32],
    offer_owner: &[u16],
    grocer_owner: &[u16],
    tally_grocer: &[u16],
    tally_box: &[u16],
    tally_offer: &[u16],
    tally_count: &[i32],
    tally_bag: &[u16],
    tally_revision: &[u16],
    known: &mut [u32],
    price_transit: &mut [u32],
    working: &mut [i64],
    total_transit: &mut [i64],
    statement: &mut [i64],
    done: &mut [u16],
    sent: &mut [u32],
    choices: &[u16],
    picked: &mut [u16],
    report: &mut [u32],
) -> u16
    ensures { host_run result
        (state_after known price_transit working total_transit statement done sent)
        picked.new
        report.new
        ≡ ran_by_host
        (bag_lent boxes grocers offers tallies lists price offer_owner grocer_owner tally_grocer tally_box tally_offer tally_count
        tally_bag tally_revision)
        (state_before known price_transit working total_transit statement done sent)
        choices.now
        picked.old
        report.old }
{
    if report.len() < 3 {
        return Refusal::LentShort.number();
    }
    let job = Job {
        sizes: Sizes {
            boxes,
            grocers,
            offers,
            tallies,
            lists,
        },
        price,
        offer_owner,
        grocer_owner,
        tally_grocer,
        tally_box,
        tally_offer,
        tally_count,
        tally_bag,
        tally_revision,
    };
    let mut state = State {
        known,
        price_transit,
        working,
        total_transit,
        statement,
        done,
        sent,
    };
    let answer = run::run(&job, &mut state, choices, picked);
    tell_report(answer, report)
}
