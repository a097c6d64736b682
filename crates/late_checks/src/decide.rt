// Adding a tally and withdrawing one, decided before a word is written: 31 and 32, and the packed length of the edited job.
ghost use Rattle.std.specs.Prelude.{◌≡◌, IfOk};
ghost use Rattle.late_rules.specs.Edit.{place_found, added_head, added_tables, withdrawn_head, withdrawn_tables};
ghost use Rattle.late_rules.specs.Late.{room, add_faults, withdraw_faults};
ghost use Rattle.late_checks.specs.Lent.{head_held, reader_held};
ghost use Rattle.late_checks.specs.Judged.{tally_with};
ghost use Rattle.late_checks.specs.Decided.{PresentIn, Told};

use crate::Tables;
use crate::copies::Shape;
use crate::judge::{Edit, Tally, Wanted, by_codes, by_places};
use crate::names::place_of;
use refusals::Refusal;
use slices::limits::MAX_TALLIES;
use slices::sizes::Sizes;

// Adding tally x behind the others, its offer told by its code.
pub fn added_job(tables: &Tables, x: Tally, code: &[u8; 11]) -> Result<Edit, Refusal>
    requires { PresentIn (room tables.now.sizes.tallies) (head_held tables.now) (reader_held tables.now) }
    ensures told { Told (add_faults (head_held tables.now) (reader_held tables.now) (tally_with x code.now)) (added_head (head_held tables.now))
        (added_tables (head_held tables.now) (reader_held tables.now) (tally_with x code.now)) result }
    ensures place_value { IfOk result (λ e. e.place ≡ place_found (head_held tables.now) (reader_held tables.now) (tally_with x code.now)) }
{
    let z = tables.sizes;
    let full = MAX_TALLIES <= z.tallies;
    if full {
        return Err(Refusal::NoRoom);
    }
    let t = z.tallies as usize;
    let sizes = Sizes {
        tallies: z.tallies + 1,
        ..z
    };
    let shape = Shape {
        present: t,
        place: t,
        last: t,
    };
    let w = Wanted {
        sizes,
        shape,
        tally: x,
    };
    if by_codes(w, tables, code) {
        return Err(Refusal::EditRefused);
    }
    let place = place_of(
        tables.offer_code,
        tables.offer_issuer,
        z.offers,
        code,
        x.issuer,
    );
    by_places(w, place, tables)
}

// Withdrawing the tally at a place, where there is one: the words of the last one are freed.
pub fn withdrawn_job(tables: &Tables, place: u16) -> Result<Edit, Refusal>
    requires { PresentIn tables.now.sizes.tallies (head_held tables.now) (reader_held tables.now) }
    ensures { Told (withdraw_faults (head_held tables.now) (reader_held tables.now) place) (withdrawn_head (head_held tables.now))
        (withdrawn_tables (head_held tables.now) (reader_held tables.now) place) result }
{
    let z = tables.sizes;
    if z.tallies <= place {
        return Err(Refusal::EditRefused);
    }
    let t = z.tallies as usize;
    let sizes = Sizes {
        tallies: z.tallies - 1,
        ..z
    };
    let shape = Shape {
        present: t,
        place: place as usize,
        last: t - 1,
    };
    let freed = Tally {
        grocer: 0,
        holder: 0,
        count: 0,
        issuer: 0,
        bag: 0,
        revision: 0,
    };
    let w = Wanted {
        sizes,
        shape,
        tally: freed,
    };
    if by_codes(w, tables, &[0u8; 11]) {
        return Err(Refusal::EditRefused);
    }
    by_places(w, 0, tables)
}
