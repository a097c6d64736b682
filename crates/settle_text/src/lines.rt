// The lines of a settled job and of a refusal, put into a buffer. Each call answers the place behind what it put.
ghost use Rattle.std.specs.Prelude.{[], ◌∷◌, ◌++◌, ◌+◌, ◌*◌, ◌≤◌, ◌<◌, pos, length, get_or};
ghost use Rattle.laws.specs.Limits.{max_lists};
ghost use Rattle.laws.specs.Lists.{list_words};
ghost use Rattle.printing.specs.Cents.{rule, half_of};
ghost use Rattle.printing.specs.Printed.{decimal, signed_decimal, line, grocer_lines, amount_in, settled_text, refused_text};
ghost use Rattle.settle_text.specs.Puts.{Put, spaced_amounts};

use crate::numbers::{put_amount, put_byte, put_bytes, put_decimal};
use slices::lists::{width_of, words_at};

// Room for the longest text: 255 lines of at most 172 bytes, and the lines of words, messages and steps.
pub const TEXT: usize = 44_032;

// A space and a number of cents.
fn put_cents(out: &mut [u8; TEXT], at: usize, z: i64) -> usize
    requires { at + 22 ≤ 44_032 }
    ensures { Put at (32 ∷ signed_decimal z) out.old out.new result }
{
    let spaced = put_byte(out, at, b' ');
    put_amount(out, spaced, z)
}

// The amounts of a grocer, whose words begin at `from` and are in tenths of a cent, in whole cents, a space before each.
fn put_amounts(
    out: &mut [u8; TEXT],
    at: usize,
    to_even: bool,
    width: usize,
    statement: &[i64],
    from: usize,
) -> usize
    requires { (width ≤ 8) × (at ≤ length out.old) × (at + 169 ≤ 44_032) × (from + width ≤ length statement.now) }
    ensures put { Put at (spaced_amounts (rule to_even) width (λ q. get_or statement.now (from + q) (pos 0))) out.old
        out.new result }
    ensures upper_bound { result ≤ at + 21 * width }
{
    let mut end = at;
    for q in 0..width {
        let amount = statement[from + q];
        let z = printing::cents::cents(amount, to_even);
        end = put_cents(out, end, z);
    }
    end
}

// A grocer's line: its number and its amounts.
fn put_statement(
    out: &mut [u8; TEXT],
    at: usize,
    to_even: bool,
    width: usize,
    statement: &[i64],
    g: usize,
) -> usize
    requires { (g < 255) × (width ≤ 8) × (at + 172 ≤ 44_032) × (g * width + width ≤ length statement.now) }
    ensures put { Put at (decimal g ++ spaced_amounts (rule to_even) width (λ q. get_or statement.now (g * width + q) (pos 0)) ++ (10 ∷ []))
        out.old out.new result }
    ensures upper_bound { result ≤ at + 172 }
{
    let from = words_at(g, width);
    let named = put_decimal(out, at, g as u64);
    let end = put_amounts(out, named, to_even, width, statement, from);
    put_byte(out, end, b'\n')
}

// The lines of the first grocers, whose amounts are in tenths of a cent, in whole cents by the rule of the cycle.
fn put_statements(
    out: &mut [u8; TEXT],
    cycle: u16,
    lists: u16,
    grocers: usize,
    statement: &[i64],
) -> usize
    requires { (lists ≤ max_lists) × (grocers ≤ 255) × (list_words lists grocers ≤ length statement.now) }
    ensures put { Put 0 (grocer_lines (half_of cycle) lists grocers (amount_in lists statement.now)) out.old out.new result }
    ensures upper_bound { result ≤ 43_860 }
{
    let to_even = printing::cents::half_to_even(cycle);
    let width = width_of(lists);
    let mut at: usize = 0;
    for g in 0..grocers {
        at = put_statement(out, at, to_even, width, statement, g);
    }
    at
}

// A name and a number.
fn put_count(out: &mut [u8; TEXT], at: usize, name: &[u8], n: u32) -> usize
    requires { at + length name.now + 22 ≤ 44_032 }
    ensures { Put at (line name.now (decimal n)) out.old out.new result }
{
    let named = put_bytes(out, at, name);
    let spaced = put_byte(out, named, b' ');
    let end = put_decimal(out, spaced, n as u64);
    put_byte(out, end, b'\n')
}

// The lines of a settled job: its grocers, then the words, the messages and the steps.
pub fn put_settled(
    out: &mut [u8; TEXT],
    cycle: u16,
    lists: u16,
    grocers: usize,
    statement: &[i64],
    words: u32,
    messages: u32,
    steps: u32,
) -> usize
    requires { (lists ≤ max_lists) × (grocers ≤ 255) × (list_words lists grocers ≤ length statement.now) }
    ensures { Put 0 (settled_text cycle lists grocers (amount_in lists statement.now) words messages steps) out.old
        out.new result }
{
    let lines = put_statements(out, cycle, lists, grocers, statement);
    let sent = put_count(out, lines, b"words", words);
    let told = put_count(out, sent, b"messages", messages);
    put_count(out, told, b"steps", steps)
}

// The line of a refusal.
pub fn put_refused(out: &mut [u8; TEXT], n: u16) -> usize
    ensures { Put 0 (refused_text n) out.old out.new result }
{
    put_count(out, 0, b"refused", n as u32)
}
