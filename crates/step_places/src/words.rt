// Whether a word stands in a message, told from its owner and its mask; and whether a box is among those of a box's word.
ghost use Rattle.std.specs.Prelude.{◌≡◌, ◌<◌};
ghost use Rattle.step_places.specs.Message.{in_message, reaches};

use slices::bits::has_bit;
use slices::limits::BOXES;

// Whether a word of this owner and mask stands in the message that box a, its owner, exchanges with box b.
pub fn in_message(owner: u16, mask: u16, a: u16, b: u16) -> bool
    requires { b < 16 }
    ensures { result ≡ in_message owner mask a b }
{
    (owner == a) & ((owner != b) & has_bit(mask, b))
}

// Whether box b, another box, is among those of the word of box a.
pub fn reaches(words: &[u16; BOXES], a: u16, b: u16) -> bool
    requires { (a < 16) × (b < 16) }
    ensures { result ≡ reaches words.now a b }
{
    (a != b) & has_bit(words[usize::from(a)], b)
}
