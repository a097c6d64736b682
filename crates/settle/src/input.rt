// The input: its first bytes are read into a buffer, and what settle prints for them is what it prints for the whole input.
ghost use Rattle.std.specs.Prelude.{◌≡◌, [], List, ℕ, ◌+◌, ◌≤◌, ◌<◌, length, take, drop, IfSome, IfOk, IfErr, OnOk};
ghost use Rattle.std.specs.Io.KnownBytes.{Consumes, IsAtEnd, Appends};
ghost use Rattle.io.specs.Counts.{IsPrefixLen};
ghost use Rattle.printing.specs.Printed.{printed};
ghost use Rattle.settle.specs.Input.{BytesRead, KeepsIfUnread};

use crate::statements::settled;
use settle_text::lines::TEXT;
use std::io;
use std::io::{Read, Write};

// One byte more than the longest file has, 102 blocks of 512: of a longer input this much is read, and it is refused.
pub const INPUT: usize = 52_225;

// One read behind the buffer's first `done` bytes, which stay. How many bytes were read.
fn read_behind<R: Read>(input: &mut R, buffer: &mut [u8], done: usize) -> io::Result<usize>
    requires { done ≤ length buffer.old }
    ensures count_in_bounds { IfOk result (λ n. done + n ≤ length buffer.old) }
    ensures buffer_unchanged { take done buffer.new ≡ take done buffer.old }
    ensures bytes_read { IfOk result (λ n. Consumes (R.remaining input.old) (R.remaining input.new) (take n (drop done buffer.new))) }
    ensures unread { IfErr result (λ error. Consumes (R.remaining input.old) (R.remaining input.new) []) }
    ensures at_end { IfOk result (λ n. n ≡ 0 → done < length buffer.old → IsAtEnd (R.remaining input.new)) }
{
    input.read(&mut buffer[done..])
}

// A read that failed, and how many bytes were read before it.
#[derive(Clone, Copy)]
pub struct FailedRead {
    pub count: usize,
    pub error: io::Error,
}

// Reads until the buffer is full or the input ends. How many bytes were read, also where a read fails: those before it stand in the buffer.
pub fn read_input<R: Read>(input: &mut R, buffer: &mut [u8]) -> Result<usize, FailedRead>
    ensures count { IfOk result (λ n. IsPrefixLen n buffer.new) }
    ensures count_before { IfErr result (λ failed. IsPrefixLen failed.count buffer.new) }
    ensures bytes_before { IfErr result (λ failed. Consumes (R.remaining input.old) (R.remaining input.new) (take failed.count buffer.new)) }
    ensures first_bytes { IfOk result (λ n. IfSome (R.remaining input.old) (λ bytes. BytesRead bytes buffer.new n)) }
{
    let mut done: usize = 0;
    while done < buffer.len() {
        let count = match read_behind(input, buffer, done) {
            Ok(count) => count,
            Err(error) => return Err(FailedRead { count: done, error }),
        };
        if count == 0 {
            return Ok(done);
        }
        done += count;
    }
    Ok(done)
}

// Puts what settle prints for an input, of which n bytes of the buffer were read, at the start of `out`, and answers how many bytes that is.
pub fn settled_input(buffer: &[u8; INPUT], n: usize, out: &mut [u8; TEXT]) -> usize
    requires { IsPrefixLen n buffer.now }
    ensures prefix_len { IsPrefixLen result out.new }
    ensures by_index { (input : List ℕ) → BytesRead input buffer.now n → take result out.new ≡ printed input }
{
    let bytes: &[u8] = buffer;
    settled(&bytes[..n], out)
}

// Why nothing was printed, or not all of it.
#[derive(Clone, Copy)]
pub enum Failure {
    Unread(io::Error),
    Unwritten(io::Error),
}

// Reads an input and writes what settle prints for it. Of an input that cannot be read nothing is written.
pub fn settle_input<R: Read, W: Write>(input: &mut R, output: &mut W) -> Result<(), Failure>
    ensures written { OnOk result (IfSome (R.remaining input.old)
        (λ bytes. Appends (W.contents output.old) (W.contents output.new) (printed bytes))) }
    ensures unread { IfErr result
        (λ failure. KeepsIfUnread failure (W.contents output.old) (W.contents output.new)) }
{
    let mut buffer = [0u8; INPUT];
    let n = read_input(input, &mut buffer).map_err(|failed| Failure::Unread(failed.error))?;
    let mut out = [0u8; TEXT];
    let n = settled_input(&buffer, n, &mut out);
    output.write_all(&out[..n]).map_err(Failure::Unwritten)
}
