// The offer that an added tally names.
ghost use Rattle.std.specs.Prelude.{◌≡◌, true, ◌≤◌};
ghost use Rattle.laws.specs.Below.{find};
ghost use Rattle.format.specs.Bytes.{from};
ghost use Rattle.format.specs.Codes.{is_code, name_of, name_number, read_code};
ghost use Rattle.late_checks.specs.Named.{is_number, NamesLent};

use file_digits::name_at;
use slices::casts::word_of;
use writer_names::number_of;

// The place of the first offer of n whose name has a number, or n where none has.
pub fn find_offer(offer_code: &[u8], offer_issuer: &[u16], n: usize, number: u64) -> usize
    requires { NamesLent n offer_code.now offer_issuer.now }
    ensures { (result ≡ find n (is_number offer_code.now offer_issuer.now number)) × (result ≤ n) }
{
    for i in 0..n {
        if number_of(offer_code, offer_issuer, i) == number {
            return i;
        }
    }
    n
}

// The place of the offer that the code of eleven bytes names under an issuer, among n offers, or n where it names none.
pub fn place_of(
    offer_code: &[u8],
    offer_issuer: &[u16],
    n: u16,
    code: &[u8; 11],
    issuer: u16,
) -> u16
    requires { NamesLent n offer_code.now offer_issuer.now × (is_code (read_code (from code.now 0)) ≡ true) }
    ensures { result ≡ find n (is_number offer_code.now offer_issuer.now
        (name_number (name_of issuer (read_code (from code.now 0))))) }
{
    let number = name_at(code, 0, usize::from(issuer));
    word_of(find_offer(offer_code, offer_issuer, usize::from(n), number))
}
