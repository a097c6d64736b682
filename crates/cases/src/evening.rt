// E settled by a run with no choices: the lines are amounts in tenths of a cent, words, messages and steps.
use crate::show::{count_line, end, next, number, refused, text};
use refusals::Refusal;
use run::Finished;
use slices::sizes::Sizes;
use std::io;
use tables::{Job, State};

// The line of a grocer, whose amount is not negative.
fn grocer_line(rt: &impl Print, g: u64, amount: i64) -> io::Result<()> {
    number(rt, g)?;
    next(rt, amount.unsigned_abs())?;
    end(rt)
}

// The lines of a run of two grocers.
fn run_lines(
    rt: &impl Print,
    answer: Result<Finished, Refusal>,
    first: i64,
    second: i64,
) -> io::Result<()> {
    match answer {
        Ok(finished) => {
            text(rt, b":\n")?;
            grocer_line(rt, 0, first)?;
            grocer_line(rt, 1, second)?;
            count_line(rt, b"words", finished.words)?;
            count_line(rt, b"messages", finished.messages)?;
            count_line(rt, b"steps", finished.steps)
        }
        Err(refusal) => refused(rt, refusal),
    }
}

// E: offers of 500 and 1250, each of a box; grocers of box 1 and box 0; four tallies.
pub fn evening<'a>(zeros: &'a [u16]) -> Job<'a> {
    Job {
        sizes: Sizes {
            boxes: 2,
            grocers: 2,
            offers: 2,
            tallies: 4,
            lists: 0,
        },
        price: &[500, 1_250],
        offer_owner: &[0, 1],
        grocer_owner: &[1, 0],
        tally_grocer: &[0, 1, 0, 0],
        tally_box: &[0, 0, 1, 1],
        tally_offer: &[0, 1, 1, 0],
        tally_count: &[3i32, 2i32, -1i32, 4i32],
        tally_bag: zeros,
        tally_revision: zeros,
    }
}

// E, run with no choices.
pub fn sample(rt: &impl Print) -> io::Result<()> {
    let mut known = [0u32; 4];
    let mut price_transit = [0u32; 4];
    let mut working = [0i64; 4];
    let mut total_transit = [0i64; 4];
    let mut statement = [0i64; 2];
    let mut done = [0u16; 24];
    let mut sent = [0u32; 1];
    let mut state = State {
        known: &mut known,
        price_transit: &mut price_transit,
        working: &mut working,
        total_transit: &mut total_transit,
        statement: &mut statement,
        done: &mut done,
        sent: &mut sent,
    };
    let mut picked = [0u16; 10];
    text(rt, b"E")?;
    let answer = run::run(&evening(&[0; 4]), &mut state, &[], &mut picked);
    run_lines(rt, answer, statement[0], statement[1])
}
