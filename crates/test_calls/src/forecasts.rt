// C entry points of the forecast's two calls.
ghost use Rattle.std.specs.Prelude.{◌≡◌};
ghost use Rattle.model.specs.Step.{asked};
ghost use Rattle.forecast_rules.specs.Lent.{forecast_lent, state_before, state_after};
ghost use Rattle.forecast_rules.specs.Step.{stepped, freshened};
ghost use Rattle.forecast.specs.Answer.{answer_of as forecast_answer_of};
ghost use Rattle.test_calls.specs.EntryForecast.{answer_number, forecast_told, forecast_as};

use forecast_doubles::tables::{Forecast, State};
use step_places::Step;

// A fresh state of a forecast: 0, or the number of the refusal.
#[unsafe(no_mangle)]
pub extern "C" fn entries_forecast_fresh(
    boxes: u16,
    grocers: u16,
    offers: u16,
    lines: u16,
    offer_owner: &[u16],
    grocer_owner: &[u16],
    line_grocer: &[u16],
    line_offer: &[u16],
    line_box: &[u16],
    line_rate: &[f64],
    line_value: &[f64],
    known: &mut [f64],
    value_transit: &mut [f64],
    part: &mut [f64],
    part_transit: &mut [f64],
    held: &mut [f64],
    forecast: &mut [f64],
    done: &mut [u16],
    sent: &mut [u32],
) -> u16
    ensures { forecast_told result (state_after known value_transit part part_transit held forecast done sent) ≡ forecast_as (freshened
        (forecast_lent boxes grocers offers lines offer_owner grocer_owner line_grocer line_offer line_box line_rate line_value)
        (state_before known value_transit part part_transit held forecast done sent)) }
{
    let tables = Forecast {
        boxes,
        grocers,
        offers,
        lines,
        offer_owner,
        grocer_owner,
        line_grocer,
        line_offer,
        line_box,
        line_rate,
        line_value,
    };
    let mut state = State {
        known,
        value_transit,
        part,
        part_transit,
        held,
        forecast,
        done,
        sent,
    };
    refusals::number(forecast::fresh_forecast(&tables, &mut state))
}

// One step request of a forecast: 0, or the number of the refusal.
#[unsafe(no_mangle)]
pub extern "C" fn entries_forecast_step(
    boxes: u16,
    grocers: u16,
    offers: u16,
    lines: u16,
    offer_owner: &[u16],
    grocer_owner: &[u16],
    line_grocer: &[u16],
    line_offer: &[u16],
    line_box: &[u16],
    line_rate: &[f64],
    line_value: &[f64],
    known: &mut [f64],
    value_transit: &mut [f64],
    part: &mut [f64],
    part_transit: &mut [f64],
    held: &mut [f64],
    forecast: &mut [f64],
    done: &mut [u16],
    sent: &mut [u32],
    kind: u16,
    first: u16,
    second: u16,
) -> u16
    ensures { forecast_told result (state_after known value_transit part part_transit held forecast done sent) ≡ forecast_as (stepped
        (forecast_lent boxes grocers offers lines offer_owner grocer_owner line_grocer line_offer line_box line_rate line_value)
        (state_before known value_transit part part_transit held forecast done sent) (asked kind first second)) }
{
    let tables = Forecast {
        boxes,
        grocers,
        offers,
        lines,
        offer_owner,
        grocer_owner,
        line_grocer,
        line_offer,
        line_box,
        line_rate,
        line_value,
    };
    let mut state = State {
        known,
        value_transit,
        part,
        part_transit,
        held,
        forecast,
        done,
        sent,
    };
    let request = Step {
        kind,
        first,
        second,
    };
    refusals::number(forecast::forecast_step(&tables, &mut state, request))
}
