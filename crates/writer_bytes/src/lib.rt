// Bytes put into a buffer: single bytes, words with the low byte first, and zeros.
#![tactic(auto)]

ghost use Rattle.std.specs.Prelude.{◌≡◌, ◌∷◌, ◌++◌, ◌+◌, ◌≤◌, ◌<◌, length, set};
ghost use Rattle.format.specs.Bytes.{bytes16, bytes32};
ghost use Rattle.writer_bytes.specs.Puts.{put, bytes_of};

// A number below 256 in one byte.
pub fn put_byte(out: &mut [u8], at: usize, v: usize)
    requires { (at < length out.old) × (v < 256) }
    ensures { out.new ≡ set out.old at v }
{
    out[at] = v as u8;
}

// N bytes, one after the other.
fn put_bytes<const N: usize>(out: &mut [u8], at: usize, bytes: &[u8; N])
    requires { at + N ≤ length out.old }
    ensures { out.new ≡ put at N (bytes_of bytes.now) out.old }
{
    out[at..at + N].copy_from_slice(bytes);
}

// A 16-bit word in two bytes.
pub fn put16(out: &mut [u8], at: usize, v: usize)
    requires { (at + 2 ≤ length out.old) × (v < 65536) }
    ensures { out.new ≡ put at 2 (bytes_of (bytes16 v)) out.old }
{
    put_bytes(out, at, &(v as u16).to_le_bytes());
}

// A 32-bit word in four bytes.
pub fn put32(out: &mut [u8], at: usize, bits: u32)
    requires { at + 4 ≤ length out.old }
    ensures { out.new ≡ put at 4 (bytes_of (bytes32 bits)) out.old }
{
    put_bytes(out, at, &bits.to_le_bytes());
}

// Two numbers below 256 and a 16-bit word, in four bytes.
pub fn put_four(out: &mut [u8], at: usize, first: usize, second: usize, word: usize)
    requires { (at + 4 ≤ length out.old) × ((first < 256) × ((second < 256) × (word < 65536))) }
    ensures { out.new ≡ put at 4 (bytes_of (first ∷ second ∷ bytes16 word)) out.old }
{
    put_byte(out, at, first);
    put_byte(out, at + 1, second);
    put16(out, at + 2, word);
}

// Three 16-bit words in six bytes.
pub fn put_words(out: &mut [u8], at: usize, first: usize, second: usize, third: usize)
    requires { (at + 6 ≤ length out.old) × ((first < 65536) × ((second < 65536) × (third < 65536))) }
    ensures { out.new ≡ put at 6 (bytes_of (bytes16 first ++ bytes16 second ++ bytes16 third)) out.old }
{
    put16(out, at, first);
    put16(out, at + 2, second);
    put16(out, at + 4, third);
}

// Zeros in n bytes.
pub fn put_zeros(out: &mut [u8], at: usize, n: usize)
    requires { at + n ≤ length out.old }
    ensures { out.new ≡ put at n (λ _. 0) out.old }
{
    out[at..at + n].fill(0);
}
