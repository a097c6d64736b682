// Step 6: the sums of the owner's grocers, and the part sums that are summed.
ghost use Rattle.std.specs.Prelude.{◌≡◌, ◌+◌, ◌*◌, ◌≤◌, ◌<◌, length};
ghost use Rattle.laws.specs.Tables.{overwrite};
ghost use Rattle.forecast_doubles.specs.Parts.{summed_word};
ghost use Rattle.forecast_doubles.specs.Moves.{Zeroed, summed_in};
ghost use Rattle.forecast_moves.specs.Steps.{held_summed, held_after};

use forecast_doubles::moves::zero_words;
use forecast_doubles::parts::write_sums;
use forecast_doubles::tables::Forecast;
use slices::amounts::row_start;

// The part sums of box c held by box a become +0.0 where they are summed. Its own are not among those held.
fn clear_row(m: usize, c: u16, a: u16, owner: &[u16], sharers: &[u16], held: &mut [f64])
    requires c_bound { (c < 16) × ((m ≤ 255) × ((m ≤ length owner.now) × (m ≤ length sharers.now))) }
    requires m_in_bounds { c * m + m ≤ length held.old }
    ensures { Zeroed (c * m) m (held_summed owner.now sharers.now a c) held.old held.new }
{
    if c != a {
        zero_words(m, row_start(m, c), a, c, owner, sharers, held);
    }
}

// Every part sum held by box a that its step 6 has summed becomes +0.0: a row for each sender.
fn clear_held(k: u16, m: usize, a: u16, owner: &[u16], sharers: &[u16], held: &mut [f64])
    requires k_bound { (k ≤ 16) × ((m ≤ 255) × ((m ≤ length owner.now) × (m ≤ length sharers.now))) }
    requires m_in_bounds { k * m ≤ length held.old }
    ensures { held.new ≡ held_after k m a owner.now sharers.now held.old }
{
    for c in 0..k {
        clear_row(m, c, a, owner, sharers, held);
    }
}

// Step 6 of box a: the forecasts of its grocers are written, and the part sums that are summed become +0.0, its own and those held.
pub fn sum_own(
    f: &Forecast,
    a: u16,
    sharers: &[u16],
    part: &mut [f64],
    held: &mut [f64],
    forecast: &mut [f64],
)
    requires k_bound { (f.now.boxes ≤ 16) × ((f.now.grocers ≤ 255) × ((f.now.grocers ≤ length f.now.grocer_owner.now) ×
        ((f.now.grocers ≤ length sharers.now) × (a < f.now.boxes)))) }
    requires m_in_bounds { (f.now.boxes * f.now.grocers ≤ length part.old) × ((f.now.boxes * f.now.grocers ≤ length held.old) ×
        (f.now.grocers ≤ length forecast.old)) }
    ensures forecast_after { forecast.new ≡ overwrite f.now.grocers
        (summed_word f.now.boxes f.now.grocers a f.now.grocer_owner.now sharers.now part.old held.old forecast.old)
        forecast.old }
    ensures zeroed { Zeroed (a * f.now.grocers) f.now.grocers (summed_in f.now.grocer_owner.now sharers.now a a) part.old part.new }
    ensures held_after { held.new ≡ held_after f.now.boxes f.now.grocers a f.now.grocer_owner.now sharers.now held.old }
{
    let k = f.boxes;
    let m = usize::from(f.grocers);
    let owner = f.grocer_owner;
    write_sums(k, m, a, owner, sharers, part, held, forecast);
    zero_words(m, row_start(m, a), a, a, owner, sharers, part);
    clear_held(k, m, a, owner, sharers, held);
}
