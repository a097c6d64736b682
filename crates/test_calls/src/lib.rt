// C entry points of the calls that the host does not export, for the tests in C and the benchmark.
#![tactic(auto)]

ghost use Rattle.std.specs.Prelude.{◌≡◌, ◌+◌, ◌≤◌, ◌<◌, take, length};
ghost use Rattle.laws.specs.Tables.{recell, cell_at, tabulate};
ghost use Rattle.model.specs.Lent.{bag_lent, state_before, state_after};
ghost use Rattle.format.specs.Job.{head_of};
ghost use Rattle.format.specs.Tables.{write_result};
ghost use Rattle.format.specs.Lent.{file_lent};
ghost use Rattle.message_tables.specs.Answers.{said as said_messages, tables_given};
ghost use Rattle.book.specs.Book.{said as said_book, book_before, book_after};
ghost use Rattle.writer.specs.Outcome.{answer_of};
ghost use Rattle.test_calls.specs.Entries.{Fields, lent_records, lent_tally, told, told_as, told_by, write_number, written, written_as};
ghost use Rattle.test_calls.specs.EntryTables.{messages_told, messages_as, messages_by};
ghost use Rattle.test_calls.specs.EntryBook.{numbers_told, numbers_as, book_told, booked_by};
ghost use Rattle.cycle_history.specs.Store.{store, given, stored};
ghost use Rattle.cycle_store.specs.Answer.{answer_of as store_answer_of};
ghost use Rattle.test_calls.specs.EntryStore.{store_number, store_told, store_as};
ghost use Rattle.desk.specs.Records.{records_of, answer_of as desk_answer_of};
ghost use Rattle.trial_rules.specs.Trial.{tried_on};
ghost use Rattle.trial.specs.Trial.{answer_of as trial_answer_of};
ghost use Rattle.test_calls.specs.EntryTrial.{rounds_number, trial_told, trial_told_as};
ghost use Rattle.format.specs.Bytes.{from};
ghost use Rattle.late.specs.Calls.{late_answer_of, reader_first, reader_then};
ghost use Rattle.test_calls.specs.EntryEdits.{report_told, report_as, edit_told, added_by, withdrawn_by};

pub mod forecasts;

use book::BookSizes;
use desk::FEW;
use file_blocks::codes::CODE_BYTES;
use file_blocks::plan::Head;
use late::Edited;
use late_checks::judge::Tally;
use refusals::Refusal;
use slices::limits::BOXES;
use slices::sizes::Sizes;
use tables::{Job, State};

// The writer's answer as one number.
fn number(answer: Result<usize, Refusal>) -> usize
    ensures { result ≡ write_number (answer_of answer) }
{
    match answer {
        Ok(length) => length,
        Err(refusal) => refusal.number() as usize,
    }
}

// The writer: the file's length, or the number of the refusal.
#[unsafe(no_mangle)]
pub extern "C" fn entries_write(
    boxes: u16,
    grocers: u16,
    offers: u16,
    tallies: u16,
    cycle: u16,
    lists: u16,
    price: &[u32],
    offer_owner: &[u16],
    offer_code: &[u8],
    offer_issuer: &[u16],
    grocer_owner: &[u16],
    tally_grocer: &[u16],
    tally_box: &[u16],
    tally_code: &[u8],
    tally_count: &[i32],
    tally_issuer: &[u16],
    tally_bag: &[u16],
    tally_revision: &[u16],
    out: &mut [u8],
) -> usize
    ensures { written result out.new ≡ written_as (write_result (head_of boxes grocers offers tallies cycle lists) (file_lent price
        offer_owner offer_code offer_issuer grocer_owner tally_grocer tally_box tally_code tally_count tally_issuer tally_bag
        tally_revision) out.old) }
{
    let tables = writer_checks::Tables {
        head: Head {
            sizes: Sizes {
                boxes,
                grocers,
                offers,
                tallies,
                lists,
            },
            cycle,
        },
        price,
        offer_owner,
        offer_code,
        offer_issuer,
        grocer_owner,
        tally_grocer,
        tally_box,
        tally_code,
        tally_count,
        tally_issuer,
        tally_bag,
        tally_revision,
    };
    number(writer::write(&tables, out))
}

// Record i of those whose fields are lent apart.
fn tally(
    tally_grocer: &[u16],
    tally_box: &[u16],
    tally_offer: &[u16],
    tally_count: &[i32],
    tally_bag: &[u16],
    tally_revision: &[u16],
    i: usize,
) -> desk::Tally
    requires { Fields (i + 1) tally_grocer.now tally_box.now tally_offer.now tally_count.now tally_bag.now
        tally_revision.now }
    ensures { result ≡ lent_tally tally_grocer.now tally_box.now tally_offer.now
        tally_count.now tally_bag.now tally_revision.now i }
{
    desk::Tally {
        grocer: tally_grocer[i],
        tally_box: tally_box[i],
        place: tally_offer[i],
        count: tally_count[i],
        bag: tally_bag[i],
        revision: tally_revision[i],
    }
}

// How many of n records are shown to the desk: it refuses more than 1,000 whatever they are, and is shown no more than 1,024.
fn shown(n: usize) -> usize
    ensures { (result ≤ n) × ((result ≤ 1024) × (result < n → 1000 < result)) }
{
    n.min(FEW)
}

// The list of the first n records whose fields are lent apart.
fn records(
    tally_grocer: &[u16],
    tally_box: &[u16],
    tally_offer: &[u16],
    tally_count: &[i32],
    tally_bag: &[u16],
    tally_revision: &[u16],
    n: usize,
) -> [desk::Tally; FEW]
    requires n_bound { n ≤ 1024 }
    requires fields { Fields n tally_grocer.now tally_box.now tally_offer.now tally_count.now tally_bag.now tally_revision.now }
    ensures { records_of (take n result) ≡ lent_records n tally_grocer.now tally_box.now tally_offer.now
        tally_count.now tally_bag.now tally_revision.now }
{
    let none = desk::Tally {
        grocer: 0,
        tally_box: 0,
        place: 0,
        count: 0,
        bag: 0,
        revision: 0,
    };
    let mut list = [none; FEW];
    for i in 0..n {
        let t = tally(
            tally_grocer,
            tally_box,
            tally_offer,
            tally_count,
            tally_bag,
            tally_revision,
            i,
        );
        list[i] = t;
    }
    list
}

// The answer as a number; an amount is put into the lent word.
fn tell(answer: Result<i64, Refusal>, owed: &mut [i64]) -> u16
    requires { 1 ≤ length owed.old }
    ensures { told result owed.new ≡ told_as (desk_answer_of answer) owed.old }
{
    match answer {
        Ok(amount) => {
            owed[0] = amount;
            0
        }
        Err(refusal) => refusal.number(),
    }
}

// The reconciliation of records whose fields are lent apart: 0, and the amount, or the number of the refusal.
#[unsafe(no_mangle)]
pub extern "C" fn entries_reconcile(
    tally_grocer: &[u16],
    tally_box: &[u16],
    tally_offer: &[u16],
    tally_count: &[i32],
    tally_bag: &[u16],
    tally_revision: &[u16],
    price: &[u32],
    grocers: u16,
    offers: u16,
    wanted: u16,
    owed: &mut [i64],
) -> u16
    ensures { told result owed.new ≡ told_by grocers offers wanted price.now tally_grocer.now
        tally_box.now tally_offer.now tally_count.now tally_bag.now
        tally_revision.now owed.old }
{
    let n = tally_grocer.len();
    let few = (tally_box.len() < n)
        | (tally_offer.len() < n)
        | (tally_count.len() < n)
        | (tally_bag.len() < n)
        | (tally_revision.len() < n);
    if few | (owed.len() < 1) {
        return Refusal::LentShort.number();
    }
    let k = shown(n);
    let list = records(
        tally_grocer,
        tally_box,
        tally_offer,
        tally_count,
        tally_bag,
        tally_revision,
        k,
    );
    let answer = desk::reconcile_few(list, k, price, grocers, offers, wanted);
    tell(answer, owed)
}

// A table of 16 rows of 16 counts, put in front of a lent buffer row by row.
fn lay(table: [[u16; BOXES]; BOXES], out: &mut [u16])
    requires { 256 ≤ length out.old }
    ensures { out.new ≡ recell 16 16 (cell_at table) out.old }
{
    for i in 0..256 {
        let row = i / 16;
        let column = i % 16;
        out[i] = table[row][column];
    }
}

// The answer as a number; both tables and the words of the job are put into the lent buffers.
fn tell_messages(
    answer: Result<u32, Refusal>,
    made_prices: [[u16; BOXES]; BOXES],
    made_totals: [[u16; BOXES]; BOXES],
    price_words: &mut [u16],
    total_words: &mut [u16],
    job_words: &mut [u32],
) -> u16
    requires { (256 ≤ length price_words.old) × (256 ≤ length total_words.old) × (1 ≤ length job_words.old) }
    ensures { messages_told result price_words.new total_words.new job_words.new
        ≡ messages_as (tables_given (said_messages answer) made_prices made_totals) price_words.old total_words.old
        job_words.old }
{
    match answer {
        Ok(words) => {
            lay(made_prices, price_words);
            lay(made_totals, total_words);
            job_words[0] = words;
            0
        }
        Err(refusal) => refusal.number(),
    }
}

// The tables of messages: 0, the words from each box to each other box row by row, and the words of the job; or the
// number of the refusal.
#[unsafe(no_mangle)]
pub extern "C" fn entries_message_tables(
    boxes: u16,
    grocers: u16,
    offers: u16,
    tallies: u16,
    lists: u16,
    price: &[u32],
    offer_owner: &[u16],
    grocer_owner: &[u16],
    tally_grocer: &[u16],
    tally_box: &[u16],
    tally_offer: &[u16],
    tally_count: &[i32],
    tally_bag: &[u16],
    tally_revision: &[u16],
    price_words: &mut [u16],
    total_words: &mut [u16],
    job_words: &mut [u32],
) -> u16
    ensures { messages_told result price_words.new total_words.new job_words.new
        ≡ messages_by
        (bag_lent boxes grocers offers tallies lists price offer_owner grocer_owner tally_grocer tally_box tally_offer tally_count
        tally_bag tally_revision)
        price_words.old total_words.old job_words.old }
{
    if (price_words.len() < 256) | (total_words.len() < 256) | (job_words.len() < 1) {
        return Refusal::LentShort.number();
    }
    let none = [0u16; BOXES];
    let mut prices = [none; BOXES];
    let mut totals = [none; BOXES];
    let job = Job {
        sizes: Sizes {
            boxes,
            grocers,
            offers,
            tallies,
            lists,
        },
        price,
        offer_owner,
        grocer_owner,
        tally_grocer,
        tally_box,
        tally_offer,
        tally_count,
        tally_bag,
        tally_revision,
    };
    let answer = message_tables::message_tables(&job, &mut prices, &mut totals);
    tell_messages(answer, prices, totals, price_words, total_words, job_words)
}

// The answer as a number; the numbers of local offers, local grocers and tallies are put into the lent buffer.
fn tell_numbers(answer: Result<BookSizes, Refusal>, numbers: &mut [u16]) -> u16
    requires { 3 ≤ length numbers.old }
    ensures { numbers_told result numbers.new ≡ numbers_as (said_book answer) numbers.old }
{
    match answer {
        Ok(sizes) => {
            let told = [sizes.offers, sizes.grocers, sizes.tallies];
            numbers[..3].copy_from_slice(&told);
            0
        }
        Err(refusal) => refusal.number(),
    }
}

// The local book of a box: 0, the five tables and the numbers of what is in them; or the number of the refusal.
#[unsafe(no_mangle)]
pub extern "C" fn entries_book(
    boxes: u16,
    grocers: u16,
    offers: u16,
    tallies: u16,
    lists: u16,
    price: &[u32],
    offer_owner: &[u16],
    grocer_owner: &[u16],
    tally_grocer: &[u16],
    tally_box: &[u16],
    tally_offer: &[u16],
    tally_count: &[i32],
    tally_bag: &[u16],
    tally_revision: &[u16],
    book_box: u16,
    local_offers: &mut [u16],
    local_grocers: &mut [u16],
    starts: &mut [u16],
    packed_grocers: &mut [u16],
    packed_counts: &mut [i32],
    numbers: &mut [u16],
) -> u16
    ensures { book_told result (book_after local_offers local_grocers starts packed_grocers packed_counts) numbers.new ≡ booked_by
        (bag_lent boxes grocers offers tallies lists price offer_owner grocer_owner tally_grocer tally_box tally_offer tally_count
        tally_bag tally_revision)
        book_box (book_before local_offers local_grocers starts packed_grocers packed_counts) numbers.old }
{
    if numbers.len() < 3 {
        return Refusal::LentShort.number();
    }
    let job = Job {
        sizes: Sizes {
            boxes,
            grocers,
            offers,
            tallies,
            lists,
        },
        price,
        offer_owner,
        grocer_owner,
        tally_grocer,
        tally_box,
        tally_offer,
        tally_count,
        tally_bag,
        tally_revision,
    };
    let answer = book::book(
        &job,
        book_box,
        local_offers,
        local_grocers,
        starts,
        packed_grocers,
        packed_counts,
    );
    tell_numbers(answer, numbers)
}

// The trial's answer as one number: its rounds above all refusals.
fn rounds_number(answer: Result<u32, Refusal>) -> u64
    ensures { result ≡ rounds_number (trial_answer_of answer) }
{
    match answer {
        Ok(rounds) => 65536 + (rounds as u64),
        Err(refusal) => refusal.number() as u64,
    }
}

// The trial: 65,536 and its rounds, the state's tables, the idle rounds of each box and the places of the steps taken; or the number of the refusal.
#[unsafe(no_mangle)]
pub extern "C" fn entries_trial(
    boxes: u16,
    grocers: u16,
    offers: u16,
    tallies: u16,
    lists: u16,
    price: &[u32],
    offer_owner: &[u16],
    grocer_owner: &[u16],
    tally_grocer: &[u16],
    tally_box: &[u16],
    tally_offer: &[u16],
    tally_count: &[i32],
    tally_bag: &[u16],
    tally_revision: &[u16],
    known: &mut [u32],
    price_transit: &mut [u32],
    working: &mut [i64],
    total_transit: &mut [i64],
    statement: &mut [i64],
    done: &mut [u16],
    sent: &mut [u32],
    preferences: &[u16],
    idle: &mut [u16],
    picked: &mut [u16],
) -> u64
    ensures { trial_told result (state_after known price_transit working total_transit statement done sent) idle.new picked.new
        ≡ trial_told_as (tried_on
        (bag_lent boxes grocers offers tallies lists price offer_owner grocer_owner tally_grocer tally_box tally_offer tally_count
        tally_bag tally_revision)
        (state_before known price_transit working total_transit statement done sent) preferences.now idle.old
        picked.old) }
{
    let job = Job {
        sizes: Sizes {
            boxes,
            grocers,
            offers,
            tallies,
            lists,
        },
        price,
        offer_owner,
        grocer_owner,
        tally_grocer,
        tally_box,
        tally_offer,
        tally_count,
        tally_bag,
        tally_revision,
    };
    let mut state = State {
        known,
        price_transit,
        working,
        total_transit,
        statement,
        done,
        sent,
    };
    rounds_number(trial::trial(&job, &mut state, preferences, idle, picked))
}

// A cycle put into the store: 0, or the number of the refusal.
#[unsafe(no_mangle)]
pub extern "C" fn entries_store_cycle(
    grocers: u16,
    cycle: u16,
    amounts: &[i64],
    next: &mut [u32],
    held: &mut [i64],
    sums: &mut [i64],
) -> u16
    ensures { store_told result (store next.new held.new sums.new)
        ≡ store_as (stored grocers (store next.old held.old sums.old) (given cycle amounts.now)) }
{
    let answer = cycle_store::store_cycle(grocers, cycle, amounts, next, held, sums);
    refusals::number(answer)
}

// The eleven bytes of a code that is lent with more.
fn code_of(code: &[u8]) -> [u8; CODE_BYTES]
    requires { 11 ≤ length code.now }
    ensures { result ≡ tabulate 11 (from code.now 0) }
{
    let mut bytes = [0u8; CODE_BYTES];
    bytes.copy_from_slice(&code[..CODE_BYTES]);
    bytes
}

// The answer of an edit as a number; T, words, messages and steps are put in front of the buffer.
fn tell_edit(answer: Result<Edited, Refusal>, report: &mut [u32]) -> u16
    requires { 4 ≤ length report.old }
    ensures { report_told result report.new ≡ report_as (late_answer_of answer) report.old }
{
    match answer {
        Ok(edited) => {
            let told = [
                edited.tallies as u32,
                edited.words,
                edited.messages,
                edited.steps,
            ];
            report[..4].copy_from_slice(&told);
            0
        }
        Err(refusal) => refusal.number(),
    }
}

// A late bag, added: 0, and T with the words, messages and steps of a run of the edited job; or the number of the refusal.
#[unsafe(no_mangle)]
pub extern "C" fn entries_add(
    boxes: u16,
    grocers: u16,
    offers: u16,
    tallies: u16,
    lists: u16,
    price: &[u32],
    offer_owner: &[u16],
    offer_code: &[u8],
    offer_issuer: &[u16],
    grocer_owner: &[u16],
    tally_grocer: &mut [u16],
    tally_box: &mut [u16],
    tally_code: &mut [u8],
    tally_count: &mut [i32],
    tally_issuer: &mut [u16],
    tally_bag: &mut [u16],
    tally_revision: &mut [u16],
    tally_offer: &mut [u16],
    known: &mut [u32],
    price_transit: &mut [u32],
    working: &mut [i64],
    total_transit: &mut [i64],
    statement: &mut [i64],
    done: &mut [u16],
    sent: &mut [u32],
    grocer: u16,
    box_of: u16,
    code: &[u8],
    count: i32,
    issuer: u16,
    bag: u16,
    revision: u16,
    edited: &mut [u32],
) -> u16
    ensures { edit_told result (reader_then price offer_owner offer_code offer_issuer grocer_owner tally_grocer tally_box tally_code
        tally_count tally_issuer tally_bag tally_revision tally_offer) (state_after known price_transit working total_transit statement
        done sent) edited.new ≡ added_by (head_of boxes grocers offers tallies 0 lists) (reader_first price offer_owner offer_code
        offer_issuer grocer_owner tally_grocer tally_box tally_code tally_count tally_issuer tally_bag tally_revision
        tally_offer) (state_before known price_transit working total_transit statement done sent) grocer box_of code.now count
        issuer bag revision edited.old }
{
    if (code.len() < 11) | (edited.len() < 4) {
        return Refusal::LentShort.number();
    }
    let bytes = code_of(code);
    let sizes = Sizes {
        boxes,
        grocers,
        offers,
        tallies,
        lists,
    };
    let mut tables = late::Tables {
        price,
        offer_owner,
        offer_code,
        offer_issuer,
        grocer_owner,
        tally_grocer,
        tally_box,
        tally_code,
        tally_count,
        tally_issuer,
        tally_bag,
        tally_revision,
        tally_offer,
    };
    let mut state = State {
        known,
        price_transit,
        working,
        total_transit,
        statement,
        done,
        sent,
    };
    let x = Tally {
        grocer,
        holder: box_of,
        count,
        issuer,
        bag,
        revision,
    };
    let answer = late::add(sizes, &mut tables, &mut state, x, &bytes);
    tell_edit(answer, edited)
}

// A bag, withdrawn: the same.
#[unsafe(no_mangle)]
pub extern "C" fn entries_withdraw(
    boxes: u16,
    grocers: u16,
    offers: u16,
    tallies: u16,
    lists: u16,
    price: &[u32],
    offer_owner: &[u16],
    offer_code: &[u8],
    offer_issuer: &[u16],
    grocer_owner: &[u16],
    tally_grocer: &mut [u16],
    tally_box: &mut [u16],
    tally_code: &mut [u8],
    tally_count: &mut [i32],
    tally_issuer: &mut [u16],
    tally_bag: &mut [u16],
    tally_revision: &mut [u16],
    tally_offer: &mut [u16],
    known: &mut [u32],
    price_transit: &mut [u32],
    working: &mut [i64],
    total_transit: &mut [i64],
    statement: &mut [i64],
    done: &mut [u16],
    sent: &mut [u32],
    place: u16,
    edited: &mut [u32],
) -> u16
    ensures { edit_told result (reader_then price offer_owner offer_code offer_issuer grocer_owner tally_grocer tally_box tally_code
        tally_count tally_issuer tally_bag tally_revision tally_offer) (state_after known price_transit working total_transit statement
        done sent) edited.new ≡ withdrawn_by (head_of boxes grocers offers tallies 0 lists) (reader_first price offer_owner offer_code
        offer_issuer grocer_owner tally_grocer tally_box tally_code tally_count tally_issuer tally_bag tally_revision
        tally_offer) (state_before known price_transit working total_transit statement done sent) place edited.old }
{
    if edited.len() < 4 {
        return Refusal::LentShort.number();
    }
    let sizes = Sizes {
        boxes,
        grocers,
        offers,
        tallies,
        lists,
    };
    let mut tables = late::Tables {
        price,
        offer_owner,
        offer_code,
        offer_issuer,
        grocer_owner,
        tally_grocer,
        tally_box,
        tally_code,
        tally_count,
        tally_issuer,
        tally_bag,
        tally_revision,
        tally_offer,
    };
    let mut state = State {
        known,
        price_transit,
        working,
        total_transit,
        statement,
        done,
        sent,
    };
    let answer = late::withdraw(sizes, &mut tables, &mut state, place);
    tell_edit(answer, edited)
}
