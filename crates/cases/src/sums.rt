// E's statements by a second sum: a price is added as often as the count says, credits and corrections apart.
use crate::show::{end, next, number, text};
use std::io;
use std::num::{wrapping_add_u64, wrapping_sub_u64};

// A sum with a price added n times.
fn add_times(sum: u64, price: u64, n: u64) -> u64 {
    let mut s = sum;
    for _ in 0..n {
        s = wrapping_add_u64(s, price);
    }
    s
}

// The line of a grocer: credits less corrections, which are not more.
fn grocer(rt: &impl Print, g: u64, credits: u64, corrections: u64) -> io::Result<()> {
    number(rt, g)?;
    text(rt, b" by a plain sum")?;
    next(rt, wrapping_sub_u64(credits, corrections))?;
    end(rt)
}

// Grocer 0 has 3 and 4 coupons of the offer of 500, and a correction of one of the offer of 1,250; grocer 1 has 2 of the latter.
pub fn plain_sums(rt: &impl Print) -> io::Result<()> {
    let credits = add_times(add_times(0, 500, 3), 500, 4);
    grocer(rt, 0, credits, add_times(0, 1_250, 1))?;
    grocer(rt, 1, add_times(0, 1_250, 2), 0)
}
