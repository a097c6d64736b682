// The reader of job files.
#![tactic(auto)]

ghost use Rattle.std.specs.Prelude.{◌≡◌, false, ◌≤◌, length, OnOk};
ghost use Rattle.format.specs.Tables.{short_reader, read_refusal, read_result};
ghost use Rattle.refusals.specs.Numbers.{number};
ghost use Rattle.file_blocks.specs.Due.{as_head};
ghost use Rattle.file_blocks.specs.Fills.{Placed};
ghost use Rattle.file_blocks.specs.Said.{said};
ghost use Rattle.file_blocks.specs.Sound.{Kept};
ghost use Rattle.reader.specs.Answer.{outcome};
ghost use Rattle.reader.specs.Lent.{held, SameSlices};
ghost use Rattle.reader.specs.Filled.{Room, Filled};

use file_blocks::codes::CODE_BYTES;
use file_blocks::file::file_refusal;
use file_blocks::fill::{fill_bytes, fill_words};
use file_blocks::job_file::JobFile;
use file_blocks::plan::{Head, read_head, tallies_at};
use file_blocks::tables::{fill_offers, fill_tallies};
use file_codes::fill_codes;
use refusals::Refusal;
use slices::limits::{GROCERS, MAX_LISTS, OFFERS, TALLIES};

// The tables that a job is read into: thirteen lent slices.
#[derive(Drop)]
pub struct Tables<'a> {
    pub price: &'a mut [u32],
    pub offer_owner: &'a mut [u16],
    pub offer_code: &'a mut [u8],
    pub offer_issuer: &'a mut [u16],
    pub grocer_owner: &'a mut [u16],
    pub tally_grocer: &'a mut [u16],
    pub tally_box: &'a mut [u16],
    pub tally_code: &'a mut [u8],
    pub tally_count: &'a mut [i32],
    pub tally_issuer: &'a mut [u16],
    pub tally_bag: &'a mut [u16],
    pub tally_revision: &'a mut [u16],
    pub tally_offer: &'a mut [u16],
}

// The prices of the most offers on the most lists.
const PRICES: usize = OFFERS * (MAX_LISTS as usize + 1);

// The bytes of the codes of the most offers and of the most tallies.
const OFFER_CODES: usize = OFFERS * CODE_BYTES;

const TALLY_CODES: usize = TALLIES * CODE_BYTES;

// Whether a table is shorter than the largest job needs.
fn short_tables(tables: &Tables) -> bool
    ensures { result ≡ short_reader (held tables.now) }
{
    let offers = (tables.price.len() < PRICES)
        | (tables.offer_owner.len() < OFFERS)
        | (tables.offer_code.len() < OFFER_CODES)
        | (tables.offer_issuer.len() < OFFERS);
    let tallies = (tables.tally_grocer.len() < TALLIES)
        | (tables.tally_box.len() < TALLIES)
        | (tables.tally_code.len() < TALLY_CODES)
        | (tables.tally_count.len() < TALLIES)
        | (tables.tally_issuer.len() < TALLIES)
        | (tables.tally_bag.len() < TALLIES)
        | (tables.tally_revision.len() < TALLIES);
    offers | (tables.grocer_owner.len() < GROCERS) | tallies | (tables.tally_offer.len() < TALLIES)
}

// 20 where a table is short, and otherwise the refusal of the file; where there is none, the file is sound, and each tally's place is kept.
fn refusal(file: &[u8], tables: &Tables, places: &mut [u16]) -> Result<(), Refusal>
    requires { 1000 ≤ length places.old }
    ensures value { number result ≡ read_refusal file.now (held tables.now) }
    ensures kept { OnOk result ((short_reader (held tables.now) ≡ false) × Kept file.now places.new) }
{
    if short_tables(tables) {
        return Err(Refusal::LentShort);
    }
    file_refusal(file, places)
}

// Fills the tables from an accepted file.
fn fill(file: &JobFile, places: &[u16; TALLIES], tables: &mut Tables)
    requires placed { Placed (said file.now) places.now file.now.head.sizes.tallies }
    requires room { Room (as_head file.now.head) (held tables.old) }
    ensures filled { Filled file.now.bytes.now (as_head file.now.head) (held tables.old) (held tables.new) }
    ensures same_slices { SameSlices tables.old tables.new }
{
    let n = usize::from(file.head.sizes.offers);
    fill_offers(file, tables.price, tables.offer_owner, tables.grocer_owner);
    fill_codes(file.bytes, 1, n, 5, tables.offer_code);
    fill_words(file.bytes, 1, n, 16, tables.offer_issuer);
    fill_tallies(
        file,
        places,
        tables.tally_grocer,
        tables.tally_offer,
        tables.tally_count,
    );
    let first = tallies_at(file.head);
    let t = usize::from(file.head.sizes.tallies);
    fill_bytes(file.bytes, first, t, 2, tables.tally_box);
    fill_codes(file.bytes, first, t, 3, tables.tally_code);
    fill_words(file.bytes, first, t, 18, tables.tally_issuer);
    fill_words(file.bytes, first, t, 20, tables.tally_bag);
    fill_words(file.bytes, first, t, 22, tables.tally_revision);
}

// Reads a job from the bytes of a file into the lent tables, and answers its numbers. A refusal leaves every word as it was.
pub fn read(file: &[u8], tables: &mut Tables) -> Result<Head, Refusal>
    ensures answer { outcome result (held tables.new) ≡ read_result file.now (held tables.old) }
    ensures same_slices { SameSlices tables.old tables.new }
{
    let mut places = [0u16; TALLIES];
    refusal(file, tables, &mut places)?;
    let head = read_head(file);
    fill(&JobFile { bytes: file, head }, &places, tables);
    Ok(head)
}
