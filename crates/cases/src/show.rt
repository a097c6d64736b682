// Lines of text: what is written is compared with what should be.
use refusals::Refusal;
use std::io;

// Bytes as they are.
pub fn text(rt: &impl Print, s: &[u8]) -> io::Result<()> {
    rt.write_all(s)
}

// A number in decimal.
pub fn number(rt: &impl Print, n: u64) -> io::Result<()> {
    rt.print(n)
}

// A space and a number.
pub fn next(rt: &impl Print, n: u64) -> io::Result<()> {
    text(rt, b" ")?;
    number(rt, n)
}

// A space and a 16-bit word.
fn next16(rt: &impl Print, n: u16) -> io::Result<()> {
    next(rt, n as u64)
}

// A space and a 32-bit word.
pub fn next32(rt: &impl Print, n: u32) -> io::Result<()> {
    next(rt, n as u64)
}

// The end of a line.
pub fn end(rt: &impl Print) -> io::Result<()> {
    text(rt, b"\n")
}

// The end of a line that was refused.
pub fn refused(rt: &impl Print, refusal: Refusal) -> io::Result<()> {
    text(rt, b": refused")?;
    next16(rt, refusal.number())?;
    end(rt)
}

// The end of a line that was accepted, or refused.
pub fn judged(rt: &impl Print, answer: Result<(), Refusal>) -> io::Result<()> {
    match answer {
        Ok(()) => text(rt, b": accepted\n"),
        Err(refusal) => refused(rt, refusal),
    }
}

// The line of a name and a number.
pub fn count_line(rt: &impl Print, name: &[u8], n: u32) -> io::Result<()> {
    text(rt, name)?;
    next32(rt, n)?;
    end(rt)
}
