// Places among the steps, by kind, first box and second box; the messages that a step of each kind sends, and what is in a message.
#![tactic(auto)]

ghost use Rattle.std.specs.Prelude.{◌≡◌, ℕ, ◌/◌, ◌≤◌};
ghost use Rattle.model.specs.Steps.{kind_of};
ghost use Rattle.model.specs.Words.{messages_of};
ghost use Rattle.step_places.specs.Places.{PlaceIn, Next};

use slices::limits::BOXES;

pub mod words;

// The kinds of steps, 1 to 6.
pub const KINDS: usize = 6;

// The places of steps among the most boxes, one for each kind, first box and second box: 1536.
pub const PLACES: usize = KINDS * BOXES * BOXES;

// A step: its kind, first box and second box. By these it has a place among the steps. The kind is a number, not an enum: C hands a request any number,
// which condition 22 has to tell, and places, orders and the model's clauses count with it.
#[derive(Clone, Copy)]
pub struct Step {
    pub kind: u16,
    pub first: u16,
    pub second: u16,
}

// The step of the place after this one's.
pub fn next(k: u16, p: Step) -> Step
    requires { PlaceIn k p.kind p.first p.second }
    ensures { Next k p.kind p.first p.second result.kind result.first result.second }
{
    if p.second + 1 < k {
        return Step {
            second: p.second + 1,
            ..p
        };
    }
    if p.first + 1 < k {
        return Step {
            first: p.first + 1,
            second: 0,
            ..p
        };
    }
    Step {
        kind: p.kind + 1,
        first: 0,
        second: 0,
    }
}

// x over the number of boxes: a division by a number that the compiler knows is made a product, and a run asks for two in each step.
pub fn by_boxes(x: u16, k: u16) -> u16
    requires { 1 ≤ k }
    ensures { result ≡ x / k }
{
    match k {
        1 => x,
        2 => x / 2,
        3 => x / 3,
        4 => x / 4,
        5 => x / 5,
        6 => x / 6,
        7 => x / 7,
        8 => x / 8,
        9 => x / 9,
        10 => x / 10,
        11 => x / 11,
        12 => x / 12,
        13 => x / 13,
        14 => x / 14,
        15 => x / 15,
        16 => x / 16,
        _ => x / k,
    }
}

// The messages that a step of this kind sends.
pub fn sent_by(kind: u16) -> u32
    requires { (1 ≤ kind) × (kind ≤ 6) }
    ensures { (a b : ℕ) → result ≡ messages_of (kind_of kind) a b }
{
    if (kind == 1) | (kind == 4) {
        return 1;
    }
    0
}
