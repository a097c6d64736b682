// The tables of messages of E by value, and their sums.
use crate::evening::evening;
use crate::show::{end, next32, text};
use message_tables::message_tables;
use message_tables::sums::{column_sum, row_sum, table_sum};
use std::io;

// What boxes 0, 1 and 16 send.
fn row_sums(rt: &impl Print, table: [[u16; 16]; 16]) -> io::Result<()> {
    next32(rt, row_sum(table, 0))?;
    next32(rt, row_sum(table, 1))?;
    next32(rt, row_sum(table, 16))
}

// What boxes 0, 1 and 16 receive.
fn column_sums(rt: &impl Print, table: [[u16; 16]; 16]) -> io::Result<()> {
    next32(rt, column_sum(table, 0))?;
    next32(rt, column_sum(table, 1))?;
    next32(rt, column_sum(table, 16))
}

// What is sent and received, and the whole table.
fn sum_line(rt: &impl Print, name: &[u8], table: [[u16; 16]; 16]) -> io::Result<()> {
    text(rt, name)?;
    row_sums(rt, table)?;
    text(rt, b" columns")?;
    column_sums(rt, table)?;
    text(rt, b" words")?;
    next32(rt, table_sum(table))?;
    end(rt)
}

// Both tables of E.
pub fn sums(rt: &impl Print) -> io::Result<()> {
    let row = [0u16; 16];
    let mut prices = [row; 16];
    let mut totals = [row; 16];
    let _ = message_tables(&evening(&[0; 4]), &mut prices, &mut totals);
    sum_line(rt, b"prices: rows", prices)?;
    sum_line(rt, b"totals: rows", totals)
}
