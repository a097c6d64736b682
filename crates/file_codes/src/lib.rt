// Codes of a file, copied to a table, and of a table, copied to a file: eleven bytes each.
#![tactic(auto)]

ghost use Rattle.std.specs.Prelude.{◌≡◌, ℕ, ◌+◌, ◌*◌, ◌≤◌, ◌<◌, length};
ghost use Rattle.format.specs.Bytes.{from, after};
ghost use Rattle.format.specs.Codes.{read_code};
ghost use Rattle.format.specs.File.{record_at};
ghost use Rattle.format.specs.Tables.{store_codes};
ghost use Rattle.file_blocks.specs.Copied.{Copied};

use file_blocks::codes::CODE_BYTES;
use file_blocks::place::record_at;

// Copies the eleven bytes of a code: all are read before the first is written, so that the compiler moves eight at a time. (By `copy_from_slice` it
// asks first whether the two lie across each other: a thousand codes take 2.7 µs in place of 2.3. By an array between, or a loop, more.)
pub fn copy_code(f: &[u8], at: usize, code: &mut [u8], to: usize)
    requires { (at + 11 ≤ length f.now) × (to + 11 ≤ length code.old) }
    ensures { Copied (from f.now at) to 11 code.old code.new }
{
    let b0 = f[at];
    let b1 = f[at + 1];
    let b2 = f[at + 2];
    let b3 = f[at + 3];
    let b4 = f[at + 4];
    let b5 = f[at + 5];
    let b6 = f[at + 6];
    let b7 = f[at + 7];
    let b8 = f[at + 8];
    let b9 = f[at + 9];
    let b10 = f[at + 10];
    code[to] = b0;
    code[to + 1] = b1;
    code[to + 2] = b2;
    code[to + 3] = b3;
    code[to + 4] = b4;
    code[to + 5] = b5;
    code[to + 6] = b6;
    code[to + 7] = b7;
    code[to + 8] = b8;
    code[to + 9] = b9;
    code[to + 10] = b10;
}

// A table of codes: those at byte `at` of the first n records of 24 bytes whose first block is `first`.
pub fn fill_codes(f: &[u8], first: usize, n: usize, at: usize, code: &mut [u8])
    requires first_bound { (first ≤ 100) × (n ≤ 1000) × (at ≤ 13) × (n * 11 ≤ length code.old) }
    requires by_index { (i : ℕ) → i < n → record_at first i + 24 ≤ length f.now }
    ensures { code.new ≡ store_codes n (λ i. read_code (after (from f.now (record_at first i)) at)) code.old }
{
    for i in 0..n {
        copy_code(f, record_at(first, i) + at, code, i * CODE_BYTES);
    }
}
