// One bit of a word, tested, set or cleared, and how many words a table has.
ghost use Rattle.std.specs.Prelude.{◌≡◌, ◌*◌, ◌^◌, ◌<◌};
ghost use Rattle.std.specs.Int.Bits.{bit_or};
ghost use Rattle.laws.specs.Masks.{bit, without};

// Whether bit b of the word is set.
pub fn has_bit(word: u16, b: u16) -> bool
    requires { b < 16 }
    ensures { result ≡ bit b word }
{
    (word >> b) & 1 == 1
}

// The word with bit b set.
pub fn set_bit(word: u16, b: u16) -> u16
    requires { b < 16 }
    ensures { result ≡ bit_or word (2 ^ b) }
{
    word | (1 << b)
}

// The word without its bit b.
pub fn clear_bit(word: u16, b: u16) -> u16
    requires { b < 16 }
    ensures { result ≡ without b word }
{
    word & !(1 << b)
}

// The done marks of k boxes.
pub fn marks(k: u16) -> usize
    ensures { result ≡ 6 * k * k }
{
    6 * usize::from(k) * usize::from(k)
}
