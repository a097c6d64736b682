// The desk told of more records than a list by value has, and of one bag over and over.
use crate::show::{end, number, refused, text};
use desk::Tally;
use std::io;

// The end of a line of an amount.
fn owed(rt: &impl Print, z: i64) -> io::Result<()> {
    text(rt, b": owed ")?;
    if z < 0 {
        text(rt, b"-")?;
    }
    number(rt, z.unsigned_abs())?;
    end(rt)
}

// 1,024 records of one bag and revision, of which so many are said to be there.
fn records(rt: &impl Print, len: usize, name: &[u8], bag: u16, price: &[u32]) -> io::Result<()> {
    let one = Tally {
        grocer: 0,
        tally_box: 0,
        place: 0,
        count: 3,
        bag,
        revision: 1,
    };
    let answer = desk::reconcile_few([one; 1024], len, price, 2, 2, 0);
    number(rt, len as u64)?;
    text(rt, name)?;
    match answer {
        Ok(z) => owed(rt, z),
        Err(refusal) => refused(rt, refusal),
    }
}

// More than 1,000 records are refused, also those that are not there; and a bag and revision that is there twice.
pub fn long_lists(rt: &impl Print) -> io::Result<()> {
    let price: &[u32] = &[500, 1_250];
    let name: &[u8] = b" records";
    records(rt, 1_000, name, 0, price)?;
    records(rt, 1_025, name, 0, price)?;
    records(rt, 18_446_744_073_709_551_615, name, 0, price)?;
    records(rt, 1_025, b" records, one price of two", 0, &[500])?;
    records(rt, 1_000, b" records of one bag", 7, price)?;
    records(rt, 1, b" record of a bag", 7, price)
}
