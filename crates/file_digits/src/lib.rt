// Codes and names in a file: their numbers.
#![tactic(auto)]

ghost use Rattle.std.specs.Prelude.{◌≡◌, true, cond, ◌+◌, ◌-◌, ◌*◌, ◌%◌, ◌^◌, ◌≤◌, ◌<◌, ltb, length};
ghost use Rattle.format.specs.Bytes.{from};
ghost use Rattle.format.specs.Codes.{read_code, is_code, code_number, value, name_of, name_number};

// The low four bits of a byte: the digit that it writes, and 0 of a byte that is 0.
fn low(x: u8) -> u64
    ensures { (result ≡ x % 16) × (result ≤ 15) }
{
    u64::from(x % 16)
}

// The number of two bytes, by the low four bits of each.
fn two(f: &[u8], at: usize) -> u64
    requires { at + 2 ≤ length f.now }
    ensures { (result ≡ value 2 (λ k. 48 + from f.now at k % 16)) × (result ≤ 165) }
{
    low(f[at]) * 10 + low(f[at + 1])
}

// The number of four bytes likewise.
fn four(f: &[u8], at: usize) -> u64
    requires { at + 4 ≤ length f.now }
    ensures { (result ≡ value 4 (λ k. 48 + from f.now at k % 16)) × (result ≤ 16665) }
{
    two(f, at) * 100 + two(f, at + 2)
}

// The number of nine bytes likewise: the same work for every code, with no branch by its digit count.
fn nine(f: &[u8], at: usize) -> u64
    requires { at + 9 ≤ length f.now }
    ensures { (result ≡ value 9 (λ k. 48 + from f.now at k % 16)) × (result ≤ 1666666665) }
{
    (four(f, at) * 10000 + four(f, at + 4)) * 10 + low(f[at + 8])
}

// 2^30 over 10^(9 - n), rounded up. A product with it, over 2^30, is a division by that power of ten, of a multiple of it below 2^30.
// There is a word for each of 16 counts, so that the table is read without a test; those of 0 and of 11 to 15 digits are asked of no code.
fn share(n: usize) -> u64
    requires { (1 ≤ n) × (n ≤ 10) }
    ensures { (1073741824 ≤ result * 10 ^ (9 - n)) × (result * 10 ^ (9 - n) < 1073741824 + 10 ^ (9 - n)) × (result ≤ 1073741824) }
{
    match n % 16 {
        0 => 1,
        1 => 11,
        2 => 108,
        3 => 1_074,
        4 => 10_738,
        5 => 107_375,
        6 => 1_073_742,
        7 => 10_737_419,
        8 => 107_374_183,
        9 => 1_073_741_824,
        10 => 1_073_741_824,
        11 => 1_073_741_824,
        12 => 1_073_741_824,
        13 => 1_073_741_824,
        14 => 1_073_741_824,
        _ => 1_073_741_824,
    }
}

// What the first nine digits of a code count for before its last byte: 10 where that is a digit, and 1 where it is 0.
fn scale(n: usize) -> u64
    ensures { (result ≡ cond (ltb n 10) 1 10) × (result ≤ 10) }
{
    if n < 10 {
        return 1;
    }
    10
}

// The number of the code whose eleven bytes stand at `at`: its digit count, then its digits.
pub fn number_at(f: &[u8], at: usize) -> u64
    requires at_in_bounds { at + 11 ≤ length f.now }
    requires at_value { is_code (read_code (from f.now at)) ≡ true }
    ensures { result ≡ code_number (read_code (from f.now at)) }
{
    let n = usize::from(f[at]);
    let first = nine(f, at + 1) * share(n) / 1_073_741_824;
    first * scale(n) + low(f[at + 10])
}

// The number of the name of this issuer and of the code whose eleven bytes stand at `at`.
pub fn name_at(f: &[u8], at: usize, issuer: usize) -> u64
    requires at_in_bounds { (at + 11 ≤ length f.now) × (issuer ≤ 65535) }
    requires at_value { is_code (read_code (from f.now at)) ≡ true }
    ensures { result ≡ name_number (name_of issuer (read_code (from f.now at))) }
{
    let number = number_at(f, at);
    (issuer as u64) * 17_179_869_184 + (number % 512 * 33_554_432 + number / 512)
}
