// The number of a name that lent tables hold: its code's and its issuer's.
#![tactic(auto)]

ghost use Rattle.std.specs.Prelude.{◌≡◌, true, ◌+◌, ◌*◌, ◌≤◌, ◌<◌, length};
ghost use Rattle.format.specs.Codes.{is_code, name_number};
ghost use Rattle.format.specs.Tables.{code_of, name_in};

use file_blocks::codes::CODE_BYTES;
use file_digits::name_at;
use slices::index_at;

// The number of name i.
pub fn number_of(code: &[u8], issuer: &[u16], i: usize) -> u64
    requires { (i * 11 + 11 ≤ length code.now) × ((i < length issuer.now) × (is_code (code_of code.now i) ≡ true)) }
    ensures { result ≡ name_number (name_in code.now issuer.now i) }
{
    name_at(code, i * CODE_BYTES, index_at(issuer, i))
}
