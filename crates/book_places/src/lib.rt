// Places of packed totals: a box's local grocers in order, where each group of them begins, and the place of each tally's total.
#![tactic(auto)]

ghost use Rattle.std.specs.Prelude.{◌≡◌, true, ◌||◌, ℕ, ◌+◌, ◌-◌, ◌^◌, ◌≤◌, ◌<◌, eqb, length};
ghost use Rattle.laws.specs.Below.{count};
ghost use Rattle.laws.specs.Masks.{bit};
ghost use Rattle.laws.specs.Tables.{overwrite};
ghost use Rattle.book_sort.specs.Sort.{at, begin, in_front};
ghost use Rattle.book_keys.specs.Keys.{TalliesIn, OwnersIn};
ghost use Rattle.book_places.specs.Spots.{class_by, list_by, total_by, start_by, place_by, spot_by, group_by, put_at, CountIn, BoxIn};

pub mod all;

use book_keys::{classes, if_same, numbers};
use book_sort::sort;
use slices::casts::word_of;
use slices::limits::{GROCERS, MAX_BOXES, OFFERS, TALLIES};
use slices::{index_at, u16_at};

// The most classes of a box's numbers: its own, those of 16 boxes, and those that it does not hold.
pub const CLASSES: usize = 18;

// The most totals of all boxes: an own one of each grocer, and one for each tally.
pub const TOTALS: usize = GROCERS + TALLIES;

// Whether box b has what this owner owns and the boxes of this word hold.
fn is_local(owner: u16, word: u16, b: u16) -> bool
    requires { b < 16 }
    ensures { result ≡ (eqb owner b || bit b word) }
{
    (owner == b) | slices::bits::has_bit(word, b)
}

// The numbers below n that box b has, ascending, are the first words of the list. How many. A number that it does not have is written over. (`take` of
// `all` does so with numbers that stand in a list: to share it, a list of all numbers would be made here first.)
fn gather(n: usize, owners: &[u16], words: &[u16], b: u16, list: &mut [u16]) -> usize
    requires n_bound { (n ≤ 500) × ((n ≤ length owners.now) × (n ≤ length words.now)) }
    requires b_bound { (b < 16) × (n ≤ length list.old) }
    ensures value { result ≡ count n (total_by owners.now words.now b) }
    ensures by_index { (x : ℕ) → x < n → total_by owners.now words.now b x ≡ true →
        at list.new (count x (total_by owners.now words.now b)) ≡ x }
{
    let mut l: usize = 0;
    for x in 0..n {
        list[l] = word_of(x);
        l += is_local(u16_at(owners, x), u16_at(words, x), b) as usize;
    }
    l
}

// The first l words of a list are places in a table: each is replaced by the word at its place.
fn look_up(table: &[u16], l: usize, list: &mut [u16])
    requires { (l ≤ length list.old) × ((i : ℕ) → i < l → at list.old i < length table.now) }
    ensures { list.new ≡ overwrite l (λ i. at table.now (at list.old i)) list.old }
{
    for i in 0..l {
        let place = index_at(list, i);
        list[i] = u16_at(table, place);
    }
}

// The local list of box b, of n numbers with these owners and words of holders, and where each class of it begins. Its length. (Owners and words are
// no struct: callers hold the ones in a job's tables and make the others themselves, so each call would put one together.)
pub fn box_list(
    k: u16,
    n: usize,
    owners: &[u16],
    words: &[u16],
    b: u16,
    starts: &mut [u16],
    out: &mut [u16],
) -> u16
    requires owners_in { OwnersIn k n owners.now × (n ≤ length words.now) }
    requires b_lt_k { (b < k) × ((k + 1 < length starts.old) × (n ≤ length out.old)) }
    ensures value { result ≡ length (list_by k n owners.now words.now b) }
    ensures starts_after { starts.new ≡ overwrite (k + 2) (begin (class_by k b owners.now words.now) n) starts.old }
    ensures out_after { out.new ≡ in_front (list_by k n owners.now words.now b) out.old }
{
    let mut list = [0u16; OFFERS];
    let l = gather(n, owners, words, b, &mut list);
    let keys = classes(owners, b, &list, l);
    let m = usize::from(k) + 1;
    sort(&keys, l, m, starts, out);
    let all = starts[m];
    look_up(&list, usize::from(all), out);
    all
}

// The word of the boxes below b.
fn boxes_below(b: u16) -> u16
    requires { b ≤ 16 }
    ensures { result ≡ 2 ^ b - 1 }
{
    if b == MAX_BOXES {
        return 65_535;
    }
    (1 << b) - 1
}

// How many boxes below b own a grocer of this owner, or are among those of its word. `below` is the word of the boxes below b.
fn totals_among(owner: u16, word: u16, below: u16) -> u16
    requires { owner < 16 }
    ensures { ((b : ℕ) → b ≤ 16 → below ≡ 2 ^ b - 1 → result ≡ count b (λ c. eqb owner c || bit c word)) × (result ≤ 16) }
{
    let boxes = slices::bits::set_bit(word, owner) & below;
    u16::count_ones(boxes) as u16
}

// Where the totals of box b begin; for b = K the packed length.
pub fn box_start(m: usize, owners: &[u16], words: &[u16], b: u16) -> u16
    requires { CountIn m owners.now words.now × (b ≤ 16) }
    ensures { (result ≡ start_by m owners.now words.now b) × (result ≤ 8_000) }
{
    let below = boxes_below(b);
    let mut sum: u16 = 0;
    for g in 0..m {
        sum += totals_among(u16_at(owners, g), u16_at(words, g), below);
    }
    sum
}

// Puts the place of each tally: of box b the start of the box and the local number of the tally's grocer, and 0 for other tallies.
fn put_places(
    n: usize,
    boxes: &[u16],
    items: &[u16],
    numbers: &[u16; OFFERS],
    b: u16,
    start: u16,
    out: &mut [u16],
)
    requires tallies_in { TalliesIn boxes.now items.now n × ((start ≤ 60_000) × (n ≤ length out.old)) }
    requires by_index { (x : ℕ) → x < 500 → at numbers.now x ≤ 500 }
    ensures { out.new ≡ overwrite n (place_by boxes.now items.now numbers.now b start) out.old }
{
    for t in 0..n {
        let g = index_at(items, t);
        let place = if_same(u16_at(boxes, t), b, start + numbers[g], 0);
        out[t] = place;
    }
}

// Puts the first l words of a list into a table, from a place on.
pub fn put_list(list: &[u16], l: usize, start: usize, out: &mut [u16])
    requires { (l ≤ length list.now) × ((start + l ≤ length out.old) × (start + l < 65536)) }
    ensures { out.new ≡ put_at list.now l start out.old }
{
    out[start..start + l].copy_from_slice(&list[..l]);
}

// A span of places: from one up to another.
#[derive(Clone, Copy)]
pub struct Span {
    pub from: usize,
    pub to: usize,
}

// The span of a group of box b, and into a table by places the grocers of the box.
pub fn box_span(
    k: u16,
    m: usize,
    owners: &[u16],
    words: &[u16],
    b: u16,
    group: usize,
    grocers: &mut [u16],
) -> Span
    requires box_in { BoxIn k m b owners.now words.now × (group ≤ k) }
    requires b_in_bounds { start_by m owners.now words.now b + length (list_by k m owners.now words.now b) ≤ length grocers.old }
    ensures from_value { (result.from ≡ group_by k m owners.now words.now b group)
        × (result.to ≡ group_by k m owners.now words.now b (group + 1)) }
    ensures grocers_after { grocers.new ≡ put_at (list_by k m owners.now words.now b)
        (length (list_by k m owners.now words.now b)) (start_by m owners.now words.now b) grocers.old }
{
    let start = usize::from(box_start(m, owners, words, b));
    let mut starts = [0u16; CLASSES];
    let mut list = [0u16; GROCERS];
    let l = box_list(k, m, owners, words, b, &mut starts, &mut list);
    put_list(&list, usize::from(l), start, grocers);
    let next = group + 1;
    let first = usize::from(starts[group]);
    let last = usize::from(starts[next]);
    Span {
        from: start + first,
        to: start + last,
    }
}

// The span of all totals of box b, and the places of the totals of its tallies; 0 for other tallies.
pub fn box_places(
    k: u16,
    m: usize,
    owners: &[u16],
    words: &[u16],
    b: u16,
    n: usize,
    boxes: &[u16],
    items: &[u16],
    places: &mut [u16],
) -> Span
    requires { BoxIn k m b owners.now words.now × (TalliesIn boxes.now items.now n × (n ≤ length places.old)) }
    ensures from_value { (result.from ≡ start_by m owners.now words.now b)
        × (result.to ≡ start_by m owners.now words.now b + length (list_by k m owners.now words.now b)) }
    ensures places_after { places.new ≡ overwrite n (spot_by k m owners.now words.now b boxes.now items.now)
        places.old }
{
    let start = box_start(m, owners, words, b);
    let mut starts = [0u16; CLASSES];
    let mut list = [0u16; GROCERS];
    let l = box_list(k, m, owners, words, b, &mut starts, &mut list);
    let by_grocer = numbers(&list, l);
    put_places(n, boxes, items, &by_grocer, b, start, places);
    let end = start + l;
    Span {
        from: usize::from(start),
        to: usize::from(end),
    }
}
