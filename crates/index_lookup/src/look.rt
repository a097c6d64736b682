// Questions to the index.
ghost use Rattle.std.specs.Prelude.{◌≡◌, List, false, cond, ℕ, ◌+◌, ◌≤◌, ◌<◌, leb, length, get_or, MatchOption};
ghost use Rattle.index_lookup.specs.Lookup.{IsIndex, shares_number, place_of, Bracket};
ghost use Rattle.index_lookup.specs.Digits.{TopsOf};

// How many digits of 9 bits there are: the index is sorted by such digits, and looked up by the top one,
pub const DIGITS: usize = 512;
// which is less than this, so that where the next one begins is told too.
pub const TOPS: usize = 511;

// The top digits of an index: where the keys of each begin, the bits of a key below its top digit, and the most keys that a top digit has.
#[derive(Clone, Copy)]
pub struct TopDigits {
    pub starts: [u16; DIGITS],
    pub shift: usize,
    pub widest: usize,
}

// Whether two offers share a number: whether two neighbours are equal. (The proof by `windows(2)` and `any` did not close.)
pub fn shared(keys: &[u64], n: usize) -> bool
    requires { n ≤ length keys.now }
    ensures { (places numbers : List ℕ) → IsIndex keys.now places numbers n → result ≡ shares_number numbers n }
{
    for i in 1..n {
        if keys[i - 1] == keys[i] {
            return true;
        }
    }
    false
}

// 1 where the key is larger than the number, else 0.
fn over(key: u64, number: u64) -> usize
    ensures { result ≡ cond (leb key number) 0 1 }
{
    usize::from(key > number)
}

// Of the places at and at + half, the farther one where its key is not larger than the number. There is no branch, since none could be
// foreseen: where the key is larger, half is shifted out.
fn nearer(keys: &[u64], at: usize, half: usize, number: u64) -> usize
    requires { (half < 65536) × (at + half < length keys.now) }
    ensures { result ≡ cond (leb (get_or keys.now (at + half) 0) number) (at + half) at }
{
    let far = at + half;
    let shift = over(keys[far], number) * 16;
    at + (half >> shift)
}

// Where a number stands in the index if it does, of the places from `from` on. They are halved as often as the most places of a top digit
// are, which is the same for every number and so foreseen: where one place is left, it stays. (std's `partition_point` was
// tried: it branches by what it finds, and takes half as long again, or twice as long. So the loop stays.)
fn halve(keys: &[u64], from: usize, count: usize, widest: usize, number: u64) -> usize
    requires { (0 < count) × ((count ≤ 1000) × ((count ≤ widest) × (from + count ≤ length keys.now))) }
    ensures { (n : ℕ) → Bracket keys.now n number from count → Bracket keys.now n number result 1 }
{
    let mut at = from;
    let mut len = count;
    let mut most = widest;
    while most > 1 {
        let half = len / 2;
        at = nearer(keys, at, half, number);
        len -= half;
        most -= most / 2;
    }
    at
}

// The place of the offer with this number, where there is one: it is looked for among those of its top digit.
pub fn place(keys: &[u64], places: &[u16], tops: &TopDigits, n: usize, number: u64) -> Option<usize>
    requires n_bound { (n ≤ 1000) × ((n ≤ length keys.now) × (n ≤ length places.now)) }
    requires tops { TopsOf tops.now keys.now n }
    ensures { (numbers : List ℕ) → IsIndex keys.now places.now numbers n → shares_number numbers n ≡ false →
        MatchOption result (place_of numbers n number ≡ n) (λ p. (place_of numbers n number ≡ p) × (p < n)) }
{
    let top = (number >> tops.shift) as usize;
    if top >= TOPS {
        return None;
    }
    let from = usize::from(tops.starts[top]);
    let to = usize::from(tops.starts[top + 1]);
    if from == to {
        return None;
    }
    let at = halve(keys, from, to - from, tops.widest, number);
    prove!(at < n);
    if keys[at] == number {
        return Some(usize::from(places[at]));
    }
    None
}
