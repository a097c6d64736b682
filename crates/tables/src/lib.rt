// The tables of a job and of a state, as they are lent.
#![tactic(auto)]

ghost use Rattle.std.specs.Prelude.{◌≡◌};
ghost use Rattle.tables.specs.Lent.{state_held, state_viewed};

use slices::sizes::Sizes;

// The job's tables: its sizes, and nine lent slices. No call writes them.
#[derive(Clone, Copy)]
pub struct Job<'a> {
    pub sizes: Sizes,
    pub price: &'a [u32],
    pub offer_owner: &'a [u16],
    pub grocer_owner: &'a [u16],
    pub tally_grocer: &'a [u16],
    pub tally_box: &'a [u16],
    pub tally_offer: &'a [u16],
    pub tally_count: &'a [i32],
    pub tally_bag: &'a [u16],
    pub tally_revision: &'a [u16],
}

// The state's tables: seven lent slices.
#[derive(Drop)]
pub struct State<'a> {
    pub known: &'a mut [u32],
    pub price_transit: &'a mut [u32],
    pub working: &'a mut [i64],
    pub total_transit: &'a mut [i64],
    pub statement: &'a mut [i64],
    pub done: &'a mut [u16],
    pub sent: &'a mut [u32],
}

// The same seven slices, lent to be read: for calls that write none of them.
#[derive(Clone, Copy)]
pub struct StateView<'a> {
    pub known: &'a [u32],
    pub price_transit: &'a [u32],
    pub working: &'a [i64],
    pub total_transit: &'a [i64],
    pub statement: &'a [i64],
    pub done: &'a [u16],
    pub sent: &'a [u32],
}

// The state's tables, lent to be read.
pub fn view<'a>(state: &'a State) -> StateView<'a>
    ensures { state_viewed result ≡ state_held state.now }
{
    StateView {
        known: state.known,
        price_transit: state.price_transit,
        working: state.working,
        total_transit: state.total_transit,
        statement: state.statement,
        done: state.done,
        sent: state.sent,
    }
}
