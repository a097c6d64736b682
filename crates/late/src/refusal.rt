// The first condition that adding a tally meets, and withdrawing one, told before a word is written.
ghost use Rattle.std.specs.Prelude.{◌≡◌, IfOk};
ghost use Rattle.laws.specs.Checks.{first_met};
ghost use Rattle.refusals.specs.Numbers.{number};
ghost use Rattle.tables.specs.Lent.{state_viewed};
ghost use Rattle.late_rules.specs.Edit.{place_found};
ghost use Rattle.late_rules.specs.Late.{add_rules, withdraw_rules};
ghost use Rattle.late_checks.specs.Judged.{tally_with, words_of};
ghost use Rattle.late_checks.specs.Lent.{head_held, reader_held};

use late_checks::decide::{added_job, withdrawn_job};
use late_checks::judge::{Edit, Tally};
use late_checks::present::{present_refusal, room_for};
use late_checks::{Tables, run_job};
use late_finished::state::state_refusal;
use refusals::Refusal;
use slices::limits::TALLIES;
use tables::StateView;

// The packed length that is told of an edit: none where it is refused.
fn words_of(edit: Result<Edit, Refusal>) -> usize
    ensures { result ≡ words_of edit }
{
    match edit {
        Ok(e) => e.words,
        Err(_) => 0,
    }
}

// Adding tally x, with the eleven bytes of its code: the first condition met, or the place of its offer and the packed length of the edited job.
pub fn add_refusal(
    tables: &Tables,
    state: &StateView,
    x: Tally,
    code: &[u8; 11],
) -> Result<Edit, Refusal>
    ensures met { number result ≡ first_met (add_rules (head_held tables.now) (reader_held tables.now) (state_viewed state.now)
        (tally_with x code.now)) }
    ensures place { IfOk result (λ e. e.place ≡ place_found (head_held tables.now) (reader_held tables.now) (tally_with x code.now)) }
{
    let mut standing = [0u16; TALLIES];
    let room = room_for(tables.sizes.tallies);
    present_refusal(tables, room, state, &mut standing)?;
    let edit = added_job(tables, x, code);
    let job = run_job(tables);
    state_refusal(&job, &standing, words_of(edit), state)?;
    edit
}

// Withdrawing the tally at a place: the first condition met.
pub fn withdraw_refusal(tables: &Tables, state: &StateView, place: u16) -> Result<(), Refusal>
    ensures { number result ≡ first_met (withdraw_rules (head_held tables.now) (reader_held tables.now) (state_viewed state.now) place) }
{
    let mut standing = [0u16; TALLIES];
    let room = tables.sizes.tallies as usize;
    present_refusal(tables, room, state, &mut standing)?;
    let edit = withdrawn_job(tables, place);
    let job = run_job(tables);
    state_refusal(&job, &standing, words_of(edit), state)?;
    match edit {
        Ok(_) => Ok(()),
        Err(refusal) => Err(refusal),
    }
}
