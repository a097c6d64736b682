// What both calls of late bags look at first, of the job as it is lent: 20, 21 and 9 on all but the packed totals.
ghost use Rattle.std.specs.Prelude.{◌≡◌, List, ◌≤◌, ℤ};
ghost use Rattle.model.specs.Tables.{state_tables};
ghost use Rattle.late_rules.specs.Late.{room, late_short};
ghost use Rattle.refusals.specs.Numbers.{number};
ghost use Rattle.late_checks.specs.Lent.{head_held, reader_held};
ghost use Rattle.late_checks.specs.Present.{FirstTold};

use crate::{Tables, run_job};
use file_blocks::plan::Head;
use refusals::Refusal;
use slices::limits::{MAX_TALLIES, TALLIES};
use step_checks::state::state_short;
use step_refusal::early_refusal;
use tables::StateView;
use writer_checks::sizes::{short_offers, short_tallies};

// How many tallies must have room where one is added: one more, up to 1,000.
pub fn room_for(tallies: u16) -> usize
    ensures { (result ≡ room tallies) × ((tallies ≤ result) × (result ≤ 65535)) }
{
    let t = usize::from(tallies);
    if tallies < MAX_TALLIES {
        return t + 1;
    }
    t
}

// 20: whether a table but the packed ones is shorter than K, M, N and the lists as given and t tallies need.
fn late_short(tables: &Tables, t: usize, state: &StateView) -> bool
    requires { t ≤ 65535 }
    ensures { (working totals : List ℤ) → result ≡ late_short t (head_held tables.now) (reader_held tables.now)
        (state_tables state.now.known.now state.now.price_transit.now working totals state.now.statement.now state.now.done.now
        state.now.sent.now) }
{
    let z = tables.sizes;
    let file = writer_checks::Tables {
        head: Head { sizes: z, cycle: 0 },
        price: tables.price,
        offer_owner: tables.offer_owner,
        offer_code: tables.offer_code,
        offer_issuer: tables.offer_issuer,
        grocer_owner: tables.grocer_owner,
        tally_grocer: tables.tally_grocer,
        tally_box: tables.tally_box,
        tally_code: tables.tally_code,
        tally_count: tables.tally_count,
        tally_issuer: tables.tally_issuer,
        tally_bag: tables.tally_bag,
        tally_revision: tables.tally_revision,
    };
    let m = usize::from(z.grocers);
    let offers = short_offers(&file);
    let tallies = short_tallies(t, &file);
    offers
        | (tables.grocer_owner.len() < m)
        | tallies
        | (tables.tally_offer.len() < t)
        | state_short(z, state)
}

// The first of 20, 21 and 9 that is met, where t tallies must have room. Where none is, `standing` has the box of each tally that stands, and
// 16 for the others.
pub fn present_refusal(
    tables: &Tables,
    t: usize,
    state: &StateView,
    standing: &mut [u16; TALLIES],
) -> Result<(), Refusal>
    requires { (tables.now.sizes.tallies ≤ t) × (t ≤ 65535) }
    ensures { (working totals : List ℤ) → FirstTold t (head_held tables.now) (reader_held tables.now)
        (state_tables state.now.known.now state.now.price_transit.now working totals state.now.statement.now state.now.done.now
        state.now.sent.now) standing.new (number result) }
{
    if late_short(tables, t, state) {
        return Err(Refusal::LentShort);
    }
    early_refusal(&run_job(tables), state, standing)
}
