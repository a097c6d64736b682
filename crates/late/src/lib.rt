// Late bags and withdrawn ones (02 §7): on a finished state a tally is added at the end of the list, or one is removed, and the edited job is run.
#![tactic(auto)]

ghost use Rattle.std.specs.Prelude.{◌≡◌, [], ◌+◌, ◌≤◌, ◌<◌, length};
ghost use Rattle.tables.specs.Lent.{state_held, SameSlices};
ghost use Rattle.model.specs.Run.{ran};
ghost use Rattle.format.specs.Bytes.{from};
ghost use Rattle.format.specs.Tables.{LongTallies};
ghost use Rattle.run.specs.Run.{answer_of};
ghost use Rattle.late_rules.specs.Edit.{job_in};
ghost use Rattle.late_rules.specs.Late.{late_answer, late_outcome, bag_added, bag_withdrawn};
ghost use Rattle.late_checks.specs.Judged.{tally_with};
ghost use Rattle.late_checks.specs.Lent.{reader_held};
ghost use Rattle.late.specs.Calls.{late_answer_of, sizes_head};
ghost use Rattle.late.specs.Lent.{reader_now, tallies_now, SameTables, entry_with, Left, OthersKept};

use crate::refusal::{add_refusal, withdraw_refusal};
use late_checks::judge::Tally;
use late_checks::run_job;
use late_edits::{edit, edit_code};
use refusals::Refusal;
use run::Finished;
use slices::sizes::Sizes;
use tables::{State, view};

pub mod refusal;

// The tables of a job as the reader leaves them: those of the offers and the grocers are read, those of the tallies are edited.
#[derive(Drop)]
pub struct Tables<'a> {
    pub price: &'a [u32],
    pub offer_owner: &'a [u16],
    pub offer_code: &'a [u8],
    pub offer_issuer: &'a [u16],
    pub grocer_owner: &'a [u16],
    pub tally_grocer: &'a mut [u16],
    pub tally_box: &'a mut [u16],
    pub tally_code: &'a mut [u8],
    pub tally_count: &'a mut [i32],
    pub tally_issuer: &'a mut [u16],
    pub tally_bag: &'a mut [u16],
    pub tally_revision: &'a mut [u16],
    pub tally_offer: &'a mut [u16],
}

// What both calls answer where they are not refused: T as it is now, with the words, messages and steps of a run of the edited job.
#[derive(Clone, Copy)]
pub struct Edited {
    pub tallies: u16,
    pub words: u32,
    pub messages: u32,
    pub steps: u32,
}

// The answer by that of the run of the edited job.
fn told(tallies: u16, run: Result<Finished, Refusal>) -> Result<Edited, Refusal>
    ensures { late_answer_of result ≡ late_answer tallies (answer_of run) }
{
    match run {
        Ok(done) => Ok(Edited {
            tallies,
            words: done.words,
            messages: done.messages,
            steps: done.steps,
        }),
        Err(refusal) => Err(refusal),
    }
}

// The tables, lent to be read.
fn lent<'a>(sizes: Sizes, tables: &'a Tables) -> late_checks::Tables<'a>
    ensures { (result.sizes ≡ sizes) × (reader_held result ≡ reader_now tables.now) }
{
    late_checks::Tables {
        sizes,
        price: tables.price,
        offer_owner: tables.offer_owner,
        offer_code: tables.offer_code,
        offer_issuer: tables.offer_issuer,
        grocer_owner: tables.grocer_owner,
        tally_grocer: tables.tally_grocer,
        tally_box: tables.tally_box,
        tally_code: tables.tally_code,
        tally_count: tables.tally_count,
        tally_issuer: tables.tally_issuer,
        tally_bag: tables.tally_bag,
        tally_revision: tables.tally_revision,
        tally_offer: tables.tally_offer,
    }
}

// In every table of the tallies entry p leaves the list, later ones move up, and x stands behind them, with the place of its offer.
fn edit_all(tables: &mut Tables, p: usize, n: usize, x: Tally, code: &[u8; 11], place: u16)
    requires n_bound { (p ≤ n) × (n < 1000) }
    requires long { LongTallies (n + 1) (tallies_now tables.old) }
    requires places { n < length tables.old.tally_offer.now }
    ensures left { Left p n (entry_with x code.now place) (from code.now 0) (reader_now tables.old) (tallies_now tables.new)
        tables.new.tally_offer.now }
    ensures kept { OthersKept tables.old tables.new }
    ensures same_tables { SameTables tables.old tables.new }
{
    edit(tables.tally_grocer, p, n, x.grocer);
    edit(tables.tally_box, p, n, x.holder);
    edit_code(tables.tally_code, p, n, code);
    edit(tables.tally_count, p, n, x.count);
    edit(tables.tally_issuer, p, n, x.issuer);
    edit(tables.tally_bag, p, n, x.bag);
    edit(tables.tally_revision, p, n, x.revision);
    edit(tables.tally_offer, p, n, place);
}

// The edited job is run.
fn run_edited(sizes: Sizes, tables: &Tables, state: &mut State) -> Result<Edited, Refusal>
    ensures ran { late_outcome (late_answer_of result) (reader_now tables.now) (state_held state.new) ≡ late_outcome
        (late_answer sizes.tallies (ran (job_in (sizes_head sizes) (reader_now tables.now)) (state_held state.old) [] []).answer)
        (reader_now tables.now) (ran (job_in (sizes_head sizes) (reader_now tables.now)) (state_held state.old) [] []).tables }
    ensures same_slices { SameSlices state.old state.new }
{
    let mut picked = [0u16; 1];
    let present = lent(sizes, tables);
    let job = run_job(&present);
    let done = run::run(&job, state, &[], &mut picked);
    told(sizes.tallies, done)
}

// A tally is put at the end of the list, its offer found by its code, and the state becomes that of a finished run of the job with it. A refusal
// changes no word.
pub fn add(
    sizes: Sizes,
    tables: &mut Tables,
    state: &mut State,
    x: Tally,
    code: &[u8; 11],
) -> Result<Edited, Refusal>
    ensures added { late_outcome (late_answer_of result) (reader_now tables.new) (state_held state.new) ≡ bag_added (sizes_head sizes)
        (reader_now tables.old) (state_held state.old) (tally_with x code.now) }
    ensures kept { OthersKept tables.old tables.new }
    ensures same_tables { SameTables tables.old tables.new }
    ensures same_slices { SameSlices state.old state.new }
{
    let present = lent(sizes, tables);
    let edit = add_refusal(&present, &view(state), x, code)?;
    let t = sizes.tallies as usize;
    edit_all(tables, t, t, x, code, edit.place);
    let edited = Sizes {
        tallies: sizes.tallies + 1,
        ..sizes
    };
    run_edited(edited, tables, state)
}

// The tally at a place is removed, later ones moving up, the words freed at the list's end become 0, and the state becomes that of a finished run of
// the job without it. A refusal changes no word.
pub fn withdraw(
    sizes: Sizes,
    tables: &mut Tables,
    state: &mut State,
    place: u16,
) -> Result<Edited, Refusal>
    ensures withdrawn { late_outcome (late_answer_of result) (reader_now tables.new) (state_held state.new) ≡ bag_withdrawn (sizes_head sizes)
        (reader_now tables.old) (state_held state.old) place }
    ensures kept { OthersKept tables.old tables.new }
    ensures same_tables { SameTables tables.old tables.new }
    ensures same_slices { SameSlices state.old state.new }
{
    let present = lent(sizes, tables);
    withdraw_refusal(&present, &view(state), place)?;
    let freed = Tally {
        grocer: 0,
        holder: 0,
        count: 0,
        issuer: 0,
        bag: 0,
        revision: 0,
    };
    let no_code = [0u8; 11];
    let edited = Sizes {
        tallies: sizes.tallies - 1,
        ..sizes
    };
    edit_all(
        tables,
        place as usize,
        edited.tallies as usize,
        freed,
        &no_code,
        0,
    );
    run_edited(edited, tables, state)
}
