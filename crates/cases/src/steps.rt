// Step requests on a job of one tally, which box 1 holds, of an offer of box 0.
use crate::show::{judged, text};
use slices::sizes::Sizes;
use std::io;
use step_places::Step;
use tables::Job;

// The words of a state that sending the price from box 0 to box 1 changes; the others are fresh: own prices known, all else 0.
#[derive(Clone, Copy)]
struct State {
    transit: u32,
    mark: u16,
    sent: u32,
}

// The job: an offer of box 0 for 500, a grocer of box 1, and three coupons that box 1 counted.
fn job<'a>(zero: &'a [u16], one: &'a [u16], price: &'a [u32], count: &'a [i32]) -> Job<'a> {
    Job {
        sizes: Sizes {
            boxes: 2,
            grocers: 1,
            offers: 1,
            tallies: 1,
            lists: 0,
        },
        price,
        offer_owner: zero,
        grocer_owner: one,
        tally_grocer: zero,
        tally_box: one,
        tally_offer: zero,
        tally_count: count,
        tally_bag: zero,
        tally_revision: zero,
    }
}

// A request on a state: its line, and the state behind it.
fn request(
    rt: &impl Print,
    name: &[u8],
    s: State,
    kind: u16,
    first: u16,
    second: u16,
) -> io::Result<State> {
    let mut known = [500u32, 0u32];
    let mut price_transit = [0u32, s.transit];
    let mut working = [0i64; 2];
    let mut total_transit = [0i64; 2];
    let mut statement = [0i64; 1];
    let mut done = [0u16; 24];
    done[1] = s.mark;
    let mut sent = [s.sent];
    let mut state = tables::State {
        known: &mut known,
        price_transit: &mut price_transit,
        working: &mut working,
        total_transit: &mut total_transit,
        statement: &mut statement,
        done: &mut done,
        sent: &mut sent,
    };
    let request = Step {
        kind,
        first,
        second,
    };
    let answer = step::step(&job(&[0], &[1], &[500], &[3]), &mut state, request);
    text(rt, name)?;
    judged(rt, answer)?;
    Ok(State {
        transit: price_transit[1],
        mark: done[1],
        sent: sent[0],
    })
}

// The price is sent, and sent again, and received.
fn sending(rt: &impl Print, s: State) -> io::Result<()> {
    let sent = request(rt, b"prices from 0 to 1", s, 1, 0, 1)?;
    request(rt, b"a step repeated", sent, 1, 0, 1)?;
    request(rt, b"receipt after sending", sent, 3, 1, 0)?;
    Ok(())
}

// "Kind 9 with box 99: 22. A step repeated: 25. Receipt before sending: 26. Message 0 to 0: 23."
pub fn requests(rt: &impl Print) -> io::Result<()> {
    let s = State {
        transit: 0,
        mark: 0,
        sent: 0,
    };
    request(rt, b"kind 9 with box 99", s, 9, 99, 99)?;
    request(rt, b"message 0 to 0", s, 1, 0, 0)?;
    request(rt, b"receipt before sending", s, 3, 1, 0)?;
    sending(rt, s)
}
