// The tables of tallies edited in place (02 §7): entry p leaves the list, later ones move up, and another entry stands at its end.
#![tactic(auto)]

ghost use Rattle.std.specs.Prelude.{◌≡◌, ℕ, ◌+◌, ◌*◌, ◌≤◌, ◌<◌, get_or, length};
ghost use Rattle.format.specs.Bytes.{from};
ghost use Rattle.late_edits.specs.Columns.{edit_entries, moving};

use file_blocks::codes::CODE_BYTES;
use file_codes::copy_code;

// The words from a on, up to e, take those w behind.
fn move_up<T: Copy>(s: &mut [T], a: usize, e: usize, w: usize)
    requires { (a ≤ e) × (e + w ≤ length s.old) }
    ensures { (z : T) (k : ℕ) → get_or s.new k z ≡ moving a w e z s.old k }
{
    s.copy_within(a + w..e + w, a);
}

// Entries of one word each: up to entry n those but entry p, and x behind them.
pub fn edit<T: Copy>(s: &mut [T], p: usize, n: usize, x: T)
    requires { (p ≤ n) × (n < length s.old) }
    ensures { (z : T) → s.new ≡ edit_entries 1 p n z (λ k. x) s.old }
{
    move_up(s, p, n, 1);
    s[n] = x;
}

// The same of codes, eleven bytes each.
pub fn edit_code(s: &mut [u8], p: usize, n: usize, code: &[u8; 11])
    requires { (p ≤ n) × (n < 1000) × (n * 11 + 11 ≤ length s.old) }
    ensures { s.new ≡ edit_entries 11 p n 0 (from code.now 0) s.old }
{
    let e = n * CODE_BYTES;
    move_up(s, p * CODE_BYTES, e, CODE_BYTES);
    copy_code(code, 0, s, e);
}
