// Columns of tallies, copied and edited: the lent tables stay as they are until the call is decided.
ghost use Rattle.std.specs.Prelude.{◌*◌, ◌≤◌, length};
ghost use Rattle.format.specs.Bytes.{from};
ghost use Rattle.late_checks.specs.Held.{Shaped, Holds};

use file_blocks::codes::CODE_BYTES;
use late_edits::{edit, edit_code};
use slices::limits::TALLIES;

// The bytes of the codes of the most tallies.
pub const CODES: usize = TALLIES * CODE_BYTES;

// How a list is edited: how many tallies it has, the place that is left out, and the place of the entry behind the others.
#[derive(Clone, Copy)]
pub struct Shape {
    pub present: usize,
    pub place: usize,
    pub last: usize,
}

// A column of one word for each tally, edited, with x behind the others; zero is what the copy holds before.
pub fn edited<T: Copy>(s: &[T], e: Shape, zero: T, x: T) -> [T; TALLIES]
    requires { Shaped e.present e.place e.last × (e.present ≤ length s.now) }
    ensures { (z : T) → Holds 1 e.place e.last z (λ k. x) s.now result }
{
    let mut words = [zero; TALLIES];
    words[..e.present].copy_from_slice(&s[..e.present]);
    edit(&mut words, e.place, e.last, x);
    words
}

// The same of codes, eleven bytes each.
pub fn edited_code(s: &[u8], e: Shape, code: &[u8; 11]) -> [u8; CODES]
    requires { Shaped e.present e.place e.last × (e.present * 11 ≤ length s.now) }
    ensures { Holds 11 e.place e.last 0 (from code.now 0) s.now result }
{
    let n = e.present * CODE_BYTES;
    let mut codes = [0u8; CODES];
    codes[..n].copy_from_slice(&s[..n]);
    edit_code(&mut codes, e.place, e.last, code);
    codes
}
