// Codes of a file.
ghost use Rattle.std.specs.Prelude.{◌≡◌, cond, ◌&&◌, ◌+◌, ◌≤◌, ltb, leb, eqb, length};
ghost use Rattle.format.specs.Bytes.{from};
ghost use Rattle.format.specs.Codes.{is_code, read_code};

use slices::byte_at;

// The bytes of a code's field of digits.
const FIELD_BYTES: usize = 10;

// The bytes of a code, in the file as in a table: its digit count, then its field.
pub const CODE_BYTES: usize = 1 + FIELD_BYTES;

// Whether byte x is as due at place k of the field of a code of n digits.
fn is_place(x: usize, k: usize, n: usize) -> bool
    ensures { result ≡ cond (ltb k n) (leb 48 x && leb x 57) (eqb x 0) }
{
    ((k < n) & ((48 <= x) & (x <= 57))) | ((n <= k) & (x == 0))
}

// Whether the eleven bytes at a place hold a code. Each byte is tested, without a branch; put into its callers, which is quicker for both.
#[inline(always)]
pub fn is_code(f: &[u8], at: usize) -> bool
    requires { at + 11 ≤ length f.now }
    ensures { result ≡ is_code (read_code (from f.now at)) }
{
    let n = byte_at(f, at);
    let field = at + 1;
    let mut ok = true;
    for i in 0..FIELD_BYTES {
        ok = ok & is_place(byte_at(f, field + i), i, n);
    }
    ((1 <= n) & (n <= FIELD_BYTES)) & ok
}
