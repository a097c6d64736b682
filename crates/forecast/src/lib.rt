// The forecast in doubles: a fresh state, and one step request on the lent tables.
#![tactic(auto)]

ghost use Rattle.std.specs.Prelude.{◌≡◌};
ghost use Rattle.model.specs.Step.{asked};
ghost use Rattle.forecast_rules.specs.Step.{outcome, stepped, freshened};
ghost use Rattle.forecast_doubles.specs.Lent.{forecast_held, state_held, SameSlices};
ghost use Rattle.forecast.specs.Answer.{answer_of};

use forecast_checks::refusal::{fresh_refusal, step_refusal};
use forecast_doubles::lines::add_lines;
use forecast_doubles::tables::{Forecast, State, view};
use forecast_moves::fresh::{fresh_values, fresh_zeros};
use forecast_moves::messages::{move_parts, move_values};
use forecast_moves::own::sum_own;
use refusals::Refusal;
use slices::limits::{GROCERS, OFFERS};
use step_places::Step;
use step_rules::marks::mark;
use step_sent::raise;

// A fresh state of a forecast: own values known, all else 0. K, M, N, the number of lines and every lent word may be anything; what the tables of
// the state held before is not examined. Where the call is refused, they are left as they were.
pub fn fresh_forecast(f: &Forecast, s: &mut State) -> Result<(), Refusal>
    ensures answer { outcome (answer_of result) (state_held s.new) ≡ freshened (forecast_held f.now) (state_held s.old) }
    ensures same_slices { SameSlices s.old s.new }
{
    fresh_refusal(f, &view(s))?;
    fresh_values(f, s.known);
    fresh_zeros(
        f,
        s.value_transit,
        s.part,
        s.part_transit,
        s.held,
        s.forecast,
        s.done,
    );
    s.sent[0] = 0;
    Ok(())
}

// One step request of a forecast. K, M, N, the number of lines and the three numbers of the request may be anything, and so may every lent word.
// The tables of the state are left as the step's line says, or, where it is refused, as they were.
pub fn forecast_step(f: &Forecast, s: &mut State, x: Step) -> Result<(), Refusal>
    ensures answer { outcome (answer_of result) (state_held s.new) ≡ stepped (forecast_held f.now) (state_held s.old)
        (asked x.kind x.first x.second) }
    ensures same_slices { SameSlices s.old s.new }
{
    let mut needs = [0u16; OFFERS];
    let mut sharers = [0u16; GROCERS];
    let words = step_refusal(f, &view(s), &mut needs, &mut sharers, x)?;
    mark(f.boxes, x.kind, x.first, x.second, s.done);
    raise(s.sent, words);
    let m = usize::from(f.grocers);
    match x.kind {
        3 => {
            let known: &mut [f64] = s.known;
            add_lines(f, usize::from(f.lines), x.first, known, s.part)
        }
        4 | 5 => move_parts(
            m,
            x,
            f.grocer_owner,
            &sharers,
            s.part,
            s.part_transit,
            s.held,
        ),
        6 => sum_own(f, x.first, &sharers, s.part, s.held, s.forecast),
        _ => move_values(
            usize::from(f.offers),
            x,
            f.offer_owner,
            &needs,
            s.known,
            s.value_transit,
        ),
    }
    Ok(())
}
