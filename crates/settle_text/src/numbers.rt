// Bytes and numbers put into a buffer. Each call answers the place behind what it put.
ghost use Rattle.std.specs.Prelude.{[], ◌∷◌, ◌+◌, ◌≤◌, ◌<◌, length};
ghost use Rattle.printing.specs.Printed.{decimal, signed_decimal};
ghost use Rattle.settle_text.specs.Puts.{Put};

// One byte.
pub fn put_byte(out: &mut [u8], at: usize, b: u8) -> usize
    requires { at < length out.old }
    ensures { Put at (b ∷ []) out.old out.new result }
{
    out[at] = b;
    at + 1
}

// All bytes of a slice.
pub fn put_bytes(out: &mut [u8], at: usize, s: &[u8]) -> usize
    requires { at + length s.now ≤ length out.old }
    ensures { Put at s.now out.old out.new result }
{
    let end = at + s.len();
    out[at..end].copy_from_slice(s);
    end
}

// A number in decimal.
pub fn put_decimal(out: &mut [u8], at: usize, n: u64) -> usize
    requires { at + 20 ≤ length out.old }
    ensures { Put at (decimal n) out.old out.new result }
{
    let mut digits = [0u8; 20];
    let k = io::decimal(n, &mut digits);
    put_bytes(out, at, &digits[..k])
}

// An amount in decimal: negative ones with a minus sign.
pub fn put_amount(out: &mut [u8], at: usize, z: i64) -> usize
    requires { at + 21 ≤ length out.old }
    ensures { Put at (signed_decimal z) out.old out.new result }
{
    let n = z.unsigned_abs();
    if z < 0 {
        let next = put_byte(out, at, b'-');
        return put_decimal(out, next, n);
    }
    put_decimal(out, at, n)
}
