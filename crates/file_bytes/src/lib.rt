// Little-endian words of a file, and the count of 32 bits.
#![tactic(auto)]

ghost use Rattle.std.specs.Prelude.{◌≡◌, ◌+◌, ◌≤◌, ◌<◌, length, get_or};
ghost use Rattle.std.specs.Int.{w32};
ghost use Rattle.std.proofs.Common.{to_z};
ghost use Rattle.format.specs.Bytes.{from, word16, word32};

// The byte at a place, as 16 bits.
pub fn byte16(f: &[u8], at: usize) -> u16
    requires { at < length f.now }
    ensures { result ≡ get_or f.now at 0 }
{
    u16::from(f[at])
}

// The 16-bit word at a place, as 16 bits.
pub fn narrow16(f: &[u8], at: usize) -> u16
    requires { at + 2 ≤ length f.now }
    ensures { result ≡ word16 (from f.now at) }
{
    u16::from_le_bytes([f[at], f[at + 1]])
}

// The 16-bit word at a place, as a size. Tables take such a word as 16 bits, and places and sums as a size, so both readers stay.
pub fn word16(f: &[u8], at: usize) -> usize
    requires { at + 2 ≤ length f.now }
    ensures { (result ≡ word16 (from f.now at)) × (result ≤ 65535) }
{
    usize::from(narrow16(f, at))
}

// The 32-bit word at a place.
pub fn word32(f: &[u8], at: usize) -> u32
    requires { at + 4 ≤ length f.now }
    ensures { result ≡ word32 (from f.now at) }
{
    u32::from_le_bytes([f[at], f[at + 1], f[at + 2], f[at + 3]])
}

// The count at a place, in two's complement.
pub fn count32(f: &[u8], at: usize) -> i32
    requires { at + 4 ≤ length f.now }
    ensures { result ≡ to_z w32 (word32 (from f.now at)) }
{
    word32(f, at).cast_signed()
}
