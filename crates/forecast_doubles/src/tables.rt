// The tables of a forecast and of its state, as they are lent.
ghost use Rattle.std.specs.Prelude.{◌≡◌};
ghost use Rattle.forecast_doubles.specs.Lent.{state_held, state_viewed};

// The forecast's tables: K, M, N and the number of lines, and seven lent slices. No call writes them.
#[derive(Clone, Copy)]
pub struct Forecast<'a> {
    pub boxes: u16,
    pub grocers: u16,
    pub offers: u16,
    pub lines: u16,
    pub offer_owner: &'a [u16],
    pub grocer_owner: &'a [u16],
    pub line_grocer: &'a [u16],
    pub line_offer: &'a [u16],
    pub line_box: &'a [u16],
    pub line_rate: &'a [f64],
    pub line_value: &'a [f64],
}

// The state's tables: eight lent slices.
#[derive(Drop)]
pub struct State<'a> {
    pub known: &'a mut [f64],
    pub value_transit: &'a mut [f64],
    pub part: &'a mut [f64],
    pub part_transit: &'a mut [f64],
    pub held: &'a mut [f64],
    pub forecast: &'a mut [f64],
    pub done: &'a mut [u16],
    pub sent: &'a mut [u32],
}

// The same eight slices, lent to be read: for calls that write none of them.
#[derive(Clone, Copy)]
pub struct StateView<'a> {
    pub known: &'a [f64],
    pub value_transit: &'a [f64],
    pub part: &'a [f64],
    pub part_transit: &'a [f64],
    pub held: &'a [f64],
    pub forecast: &'a [f64],
    pub done: &'a [u16],
    pub sent: &'a [u32],
}

// The state's tables, lent to be read.
pub fn view<'a>(state: &'a State) -> StateView<'a>
    ensures { state_viewed result ≡ state_held state.now }
{
    StateView {
        known: state.known,
        value_transit: state.value_transit,
        part: state.part,
        part_transit: state.part_transit,
        held: state.held,
        forecast: state.forecast,
        done: state.done,
        sent: state.sent,
    }
}
