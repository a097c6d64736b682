// Files judged: accepted, or refused with a number.
ghost use Rattle.std.specs.Prelude.{◌+◌, ◌≤◌, length};

use crate::show::{judged, number, text};
use file_blocks::file::file_refusal;
use sample_job::small_file;
use settle_text::numbers::put_bytes;
use std::io;

// E's file with other bytes at a place, and both sums of their block.
fn changed(rt: &impl Print, at: usize, bytes: &[u8], place: usize, sums: [u8; 4]) -> io::Result<()>
    requires { (at + length bytes.now ≤ 2048) × (place ≤ 2044) }
{
    let mut f = small_file();
    put_bytes(&mut f, at, bytes);
    put_bytes(&mut f, place, &sums);
    let mut places = [0u16; 1000];
    judged(rt, file_refusal(&f, &mut places))
}

// E's file with another code of its first offer: the number of digits, and the ten bytes for them.
fn digits(rt: &impl Print, n: u64, code: &[u8; 11], sums: [u8; 4]) -> io::Result<()> {
    number(rt, n)?;
    text(rt, b" digits")?;
    changed(rt, 521, code, 1_020, sums)
}

// "10 digits pass; 0 or 11: refusal 6."
pub fn codes(rt: &impl Print) -> io::Result<()> {
    digits(rt, 10, b"\x0a0000000412", [65, 4, 52, 41])?;
    digits(rt, 0, b"\0\0\0\0\0\0\0\0\0\0\0", [80, 2, 194, 106])?;
    digits(rt, 11, b"\x0b0000000041", [64, 4, 80, 39])
}

// E's file with another number of boxes.
fn boxes(rt: &impl Print, k: u8, sums: [u8; 4]) -> io::Result<()> {
    number(rt, k as u64)?;
    text(rt, b" boxes")?;
    changed(rt, 4, &[k], 508, sums)
}

// "16 boxes pass, 17: 4. Price 10,000,000: 6. Bad count with unknown code: 6." The price is the first offer's; the count of 100,000
// and the code "413" are the first tally's.
pub fn fields(rt: &impl Print) -> io::Result<()> {
    boxes(rt, 16, [26, 0, 14, 51])?;
    boxes(rt, 17, [27, 0, 6, 53])?;
    text(rt, b"price 10000000")?;
    changed(rt, 516, b"\x80\x96\x98\0", 1_020, [5, 4, 172, 189])?;
    text(rt, b"bad count with unknown code")?;
    changed(
        rt,
        1_543,
        b"\x03413\0\0\0\0\0\0\0\xa0\x86\x01\0",
        2_044,
        [173, 7, 246, 163],
    )
}
