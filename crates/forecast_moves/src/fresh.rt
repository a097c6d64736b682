// The tables of a fresh state of a forecast.
ghost use Rattle.std.specs.Prelude.{◌≡◌, ◌+◌, ◌*◌, ◌≤◌, length, get_or};
ghost use Rattle.forecast_moves.specs.Fresh.{OwnIn, FreshIn, ZerosIn, Zeros, own_values};

use forecast_doubles::tables::Forecast;
use forecast_doubles::values::table_words;
use slices::amounts::row_start;
use slices::bits::marks;
use slices::u16_at;

// The place of offer o in the row of its owner.
fn own_place(n: usize, o: usize, owner: &[u16]) -> usize
    requires { OwnIn n o owner.now }
    ensures { result ≡ get_or owner.now o 0 * n + o }
{
    row_start(n, u16_at(owner, o)) + o
}

// Own values known, and all else +0.0, whatever the table held before: each line writes its value in the row of its offer's owner.
pub fn fresh_values(f: &Forecast, known: &mut [f64])
    requires { FreshIn f.now.boxes f.now.offers f.now.lines f.now.offer_owner.now f.now.line_offer.now f.now.line_value.now known.old }
    ensures { known.new ≡ own_values f.now.boxes f.now.offers f.now.lines f.now.offer_owner.now f.now.line_offer.now f.now.line_value.now
        known.old }
{
    let n = usize::from(f.offers);
    known[..table_words(f.boxes, f.offers)].fill(0.0);
    for i in 0..usize::from(f.lines) {
        let p = own_place(n, usize::from(f.line_offer[i]), f.offer_owner);
        known[p] = f.line_value[i];
    }
}

// The other tables of a fresh state but for the words sent: all 0, whatever they held before.
pub fn fresh_zeros(
    f: &Forecast,
    value_transit: &mut [f64],
    part: &mut [f64],
    part_transit: &mut [f64],
    held: &mut [f64],
    forecast: &mut [f64],
    done: &mut [u16],
)
    requires { ZerosIn f.now.boxes f.now.grocers f.now.offers value_transit.old part.old part_transit.old held.old forecast.old done.old }
    ensures { Zeros f.now.boxes f.now.grocers f.now.offers value_transit.old part.old part_transit.old held.old forecast.old done.old
        value_transit.new part.new part_transit.new held.new forecast.new done.new }
{
    let words = table_words(f.boxes, f.grocers);
    value_transit[..table_words(f.boxes, f.offers)].fill(0.0);
    part[..words].fill(0.0);
    part_transit[..words].fill(0.0);
    held[..words].fill(0.0);
    forecast[..usize::from(f.grocers)].fill(0.0);
    done[..marks(f.boxes)].fill(0);
}
