// Words of one width as words of another.
ghost use Rattle.std.specs.Prelude.{◌≡◌, ◌≤◌};

// A byte as a size.
pub fn byte_size(x: u8) -> usize
    ensures { (result ≡ x) × (result ≤ 255) }
{
    usize::from(x)
}

// A 16-bit word as an index.
pub fn index_of(x: u16) -> usize
    ensures { (result ≡ x) × (result ≤ 65535) }
{
    usize::from(x)
}

// An index as a 16-bit word.
pub fn word_of(x: usize) -> u16
    requires { x ≤ 65535 }
    ensures { result ≡ x }
{
    x as u16
}
