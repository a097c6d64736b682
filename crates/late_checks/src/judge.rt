// Conditions 31 and 32 of an edit, told from copies of the columns edited, and the packed length of the edited job.
ghost use Rattle.std.specs.Prelude.{◌≡◌, not, eqb};
ghost use Rattle.format.specs.Refusals.{job_refusal};
ghost use Rattle.format.specs.Tables.{file_job_of};
ghost use Rattle.model.specs.Tables.{bag_tables};
ghost use Rattle.late_checks.specs.Lent.{file_held};
ghost use Rattle.late_checks.specs.Judged.{head_then, file_then, job_then, FileIn, JobIn, ByPlaces};

use crate::Tables;
use crate::copies::{Shape, edited, edited_code};
use file_blocks::plan::Head;
use refusals::Refusal;
use slices::limits::TALLIES;
use slices::lists::{width_of, words_at};
use slices::sizes::Sizes;
use tables::Job;
use writer_checks::refusal::job_refusal;

// A tally that is put behind the others, but for its code: its grocer, the box that holds it, its count, its offer's issuer, its bag and revision.
#[derive(Clone, Copy)]
pub struct Tally {
    pub grocer: u16,
    pub holder: u16,
    pub count: i32,
    pub issuer: u16,
    pub bag: u16,
    pub revision: u16,
}

// An edit: K, M, N, T and the lists of the edited job, how its list is edited, and the tally behind the others.
#[derive(Clone, Copy)]
pub struct Wanted {
    pub sizes: Sizes,
    pub shape: Shape,
    pub tally: Tally,
}

// What is told of an edit that is not refused: the place of the added tally's offer, and the packed length of the edited job.
#[derive(Clone, Copy)]
pub struct Edit {
    pub place: u16,
    pub words: usize,
}

// Whether the writer would refuse the edited job.
pub fn by_codes(w: Wanted, tables: &Tables, code: &[u8; 11]) -> bool
    requires { FileIn w (file_held tables.now) }
    ensures { result ≡ not (eqb (job_refusal (file_job_of (head_then w) (file_then w code.now (file_held tables.now)))) 0) }
{
    let e = w.shape;
    let x = w.tally;
    let grocers = edited(tables.tally_grocer, e, 0, x.grocer);
    let boxes = edited(tables.tally_box, e, 0, x.holder);
    let codes = edited_code(tables.tally_code, e, code);
    let counts = edited(tables.tally_count, e, 0, x.count);
    let issuers = edited(tables.tally_issuer, e, 0, x.issuer);
    let bags = edited(tables.tally_bag, e, 0, x.bag);
    let revisions = edited(tables.tally_revision, e, 0, x.revision);
    let file = writer_checks::Tables {
        head: Head {
            sizes: w.sizes,
            cycle: 0,
        },
        price: tables.price,
        offer_owner: tables.offer_owner,
        offer_code: tables.offer_code,
        offer_issuer: tables.offer_issuer,
        grocer_owner: tables.grocer_owner,
        tally_grocer: &grocers,
        tally_box: &boxes,
        tally_code: &codes,
        tally_count: &counts,
        tally_issuer: &issuers,
        tally_bag: &bags,
        tally_revision: &revisions,
    };
    job_refusal(&file).is_err()
}

// Whether a run would refuse the edited job, by the places of the offers, `place` being that of the added tally's: then 32 is met. Else the packed
// length of the edited job.
pub fn by_places(w: Wanted, place: u16, tables: &Tables) -> Result<Edit, Refusal>
    requires { JobIn w place (bag_tables w.sizes.boxes w.sizes.grocers w.sizes.offers w.shape.present w.sizes.lists tables.now.price.now
        tables.now.offer_owner.now tables.now.grocer_owner.now tables.now.tally_grocer.now tables.now.tally_box.now tables.now.tally_offer.now
        tables.now.tally_count.now tables.now.tally_bag.now tables.now.tally_revision.now) }
    ensures { ByPlaces (job_then w place (bag_tables w.sizes.boxes w.sizes.grocers w.sizes.offers w.shape.present w.sizes.lists
        tables.now.price.now tables.now.offer_owner.now tables.now.grocer_owner.now tables.now.tally_grocer.now tables.now.tally_box.now
        tables.now.tally_offer.now tables.now.tally_count.now tables.now.tally_bag.now tables.now.tally_revision.now)) place result }
{
    let z = w.sizes;
    let e = w.shape;
    let x = w.tally;
    let grocers = edited(tables.tally_grocer, e, 0, x.grocer);
    let boxes = edited(tables.tally_box, e, 0, x.holder);
    let offers = edited(tables.tally_offer, e, 0, place);
    let counts = edited(tables.tally_count, e, 0, x.count);
    let bags = edited(tables.tally_bag, e, 0, x.bag);
    let revisions = edited(tables.tally_revision, e, 0, x.revision);
    let job = Job {
        sizes: z,
        price: tables.price,
        offer_owner: tables.offer_owner,
        grocer_owner: tables.grocer_owner,
        tally_grocer: &grocers,
        tally_box: &boxes,
        tally_offer: &offers,
        tally_count: &counts,
        tally_bag: &bags,
        tally_revision: &revisions,
    };
    let mut standing = [0u16; TALLIES];
    match job_checks::checks::job_refusal(&job, &mut standing) {
        Ok(()) => (),
        Err(_) => return Err(Refusal::EditRefused),
    }
    let sharers = job_masks::masks::sharers(z.boxes, z.tallies, &standing, &grocers);
    let places = book_places::box_start(
        usize::from(z.grocers),
        tables.grocer_owner,
        &sharers,
        z.boxes,
    );
    let words = words_at(usize::from(places), width_of(z.lists));
    Ok(Edit { place, words })
}
