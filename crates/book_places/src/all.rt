// The lists and the places of all boxes at once, for a run: the numbers are sorted by owner once, and each box takes its own from them.
ghost use Rattle.std.specs.Prelude.{◌≡◌, true, ℕ, ◌+◌, ◌-◌, ◌*◌, ◌≤◌, ◌<◌, length, set};
ghost use Rattle.laws.specs.Below.{count};
ghost use Rattle.laws.specs.Tables.{overwrite};
ghost use Rattle.book_sort.specs.Sort.{at};
ghost use Rattle.book_places.specs.Spots.{start_by};
ghost use Rattle.book_places.specs.Boxes.{place_at, takes, group_owner, group_size, ByOwner, TakeIn, BoxTold, HeadsTold};
ghost use Rattle.book_places.specs.Boxes.{ListsIn, HalfIn, HalfPlaces, NumbersIn, RowsIn, RowsTold, AllIn, AllPlaces};

use crate::{CLASSES, is_local};
use book_sort::sort;
use slices::casts::word_of;
use slices::limits::{BOXES, GROCERS, OFFERS};
use slices::{index_at, u16_at};

// Where each group of each box begins, CLASSES words a box.
pub const GROUP_STARTS: usize = BOXES * CLASSES;

// The places of the totals of half the boxes, by box and grocer.
const HALF_PLACES: usize = BOXES / 2 * GROCERS;

// Puts a word at a place, where there is one.
fn put_word(out: &mut [u16], i: usize, word: u16)
    ensures { out.new ≡ set out.old i word }
{
    if i < out.len() {
        out[i] = word;
    }
}

// The numbers of one owner: so many of a list, from a place on. No `Span`, since an empty part has no place where it ends, and what is taken is counted.
#[derive(Clone, Copy)]
struct Part {
    from: usize,
    size: usize,
}

// The owner of group d of box b: the box itself, and then each box in turn.
fn group_owner(b: usize, d: usize) -> usize
    requires { d ≤ 16 }
    ensures { result ≡ group_owner b d }
{
    if d == 0 {
        return b;
    }
    d - 1
}

// Numbers of k boxes sorted by owner: where those of each owner begin, and the numbers; and of each number its owner and its word of holders.
#[derive(Clone, Copy)]
struct Sorted<'a> {
    k: u16,
    starts: &'a [u16],
    list: &'a [u16],
    owners: &'a [u16],
    words: &'a [u16],
    ghost by_owner: { ByOwner k (at starts.now k) owners.now words.now starts.now list.now },
}

impl<'a> Sorted<'a> {
    // Of a part of the numbers those that box b has, put from a start on. Where the next one goes. A number that the box does not have is written over;
    // behind the last word of `out` it is not written.
    fn take(&self, part: Part, b: u16, start: usize, out: &mut [u16]) -> usize
        requires take_in { TakeIn self.now.list.now part.from part.size (length self.now.owners.now) (length self.now.words.now) ×
            ((b < 16) × (start ≤ 8_000)) }
        requires from_in_bounds { start + count part.size (takes self.now.owners.now self.now.words.now b self.now.list.now part.from) ≤ length out.old }
        ensures value { result ≡ start + count part.size (takes self.now.owners.now self.now.words.now b self.now.list.now part.from) }
        ensures by_index { (i : ℕ) → i < part.size → takes self.now.owners.now self.now.words.now b self.now.list.now part.from i ≡ true →
            at out.new (start + count i (takes self.now.owners.now self.now.words.now b self.now.list.now part.from))
            ≡ at self.now.list.now (part.from + i) }
        ensures by_index_2 { (i : ℕ) → i < start → at out.new i ≡ at out.old i }
    {
        let mut next = start;
        for i in 0..part.size {
            let x = u16_at(self.list, part.from + i);
            put_word(out, next, x);
            let number = usize::from(x);
            next += is_local(u16_at(self.owners, number), u16_at(self.words, number), b) as usize;
        }
        next
    }

    // The numbers of the owner of group d of box b. The group of the box among the others is empty.
    fn group_part(&self, b: usize, d: usize) -> Part
        requires { (b < self.now.k) × (d ≤ self.now.k) }
        ensures { (result.from ≡ at self.now.starts.now (group_owner b d)) × (result.size ≡ group_size self.now.starts.now b d) }
    {
        let owner = group_owner(b, d);
        let from = index_at(self.starts, owner);
        if d == b + 1 {
            return Part {
                from: from,
                size: 0,
            };
        }
        Part {
            from: from,
            size: index_at(self.starts, owner + 1) - from,
        }
    }

    // One box more: where its groups begin, and its numbers. Where the next box begins.
    fn put_box(&self, b: u16, start: usize, heads: &mut [u16], out: &mut [u16]) -> usize
        requires box_in { (b < self.now.k) × (self.now.k * 18 ≤ length heads.old) }
        requires start_value { (start ≡ start_by (at self.now.starts.now self.now.k) self.now.owners.now self.now.words.now b)
            × (start_by (at self.now.starts.now self.now.k) self.now.owners.now self.now.words.now self.now.k ≤ length out.old) }
        ensures value { (result ≡ start_by (at self.now.starts.now self.now.k) self.now.owners.now self.now.words.now (b + 1))
            × BoxTold self.now.k (at self.now.starts.now self.now.k) self.now.owners.now self.now.words.now b heads.new out.new }
        ensures by_index { ((i : ℕ) → i < b * 18 → at heads.new i ≡ at heads.old i)
            × ((i : ℕ) → i < start → at out.new i ≡ at out.old i) }
    {
        let turn = usize::from(b);
        let row = turn * CLASSES;
        heads[row] = word_of(start);
        let groups = usize::from(self.k) + 1;
        let mut next = start;
        for d in 0..groups {
            let part = self.group_part(turn, d);
            next = self.take(part, b, next, out);
            let h = row + d + 1;
            heads[h] = word_of(next);
        }
        next
    }

    // All boxes, one after the other. The number of words listed.
    fn put_lists(&self, heads: &mut [u16], out: &mut [u16]) -> usize
        requires { (self.now.k * 18 ≤ length heads.old)
            × (start_by (at self.now.starts.now self.now.k) self.now.owners.now self.now.words.now self.now.k ≤ length out.old) }
        ensures { (result ≡ start_by (at self.now.starts.now self.now.k) self.now.owners.now self.now.words.now self.now.k)
            × HeadsTold self.now.k (at self.now.starts.now self.now.k) self.now.owners.now self.now.words.now self.now.k heads.new out.new }
    {
        let mut next: usize = 0;
        for b in 0..self.k {
            next = self.put_box(b, next, heads, out);
        }
        next
    }
}

// The local lists of all boxes, of n numbers with these owners and words of holders: where each group of each box begins, CLASSES words a box, and the
// numbers, box after box. The numbers are sorted by owner once, and each box takes its own from them. The number of words listed.
pub fn all_lists(
    k: u16,
    n: usize,
    owners: &[u16],
    words: &[u16],
    heads: &mut [u16],
    out: &mut [u16],
) -> u16
    requires { ListsIn k n owners.now words.now (length heads.old) (length out.old) }
    ensures { (result ≡ start_by n owners.now words.now k)
        × HeadsTold k n owners.now words.now k heads.new out.new }
{
    let mut starts = [0u16; CLASSES];
    let mut list = [0u16; OFFERS];
    sort(owners, n, usize::from(k), &mut starts, &mut list);
    let sorted = Sorted {
        k: k,
        starts: &starts,
        list: &list,
        owners: owners,
        words: words,
    };
    word_of(sorted.put_lists(heads, out))
}

// Puts the place of each grocer from one place of a list up to another, by grocer from a word on.
fn put_numbers(list: &[u16], from: usize, to: usize, row: usize, table: &mut [u16])
    requires { NumbersIn list.now from to × ((row + 255 ≤ length table.old) × (row ≤ 10_000)) }
    ensures by_index { (i : ℕ) → from ≤ i → i < to → at table.new (row + at list.now i) ≡ i }
    ensures by_index_2 { (x : ℕ) → x < row → at table.new x ≡ at table.old x }
{
    for i in from..to {
        let g = row + index_at(list, i);
        table[g] = word_of(i);
    }
}

// At most 8 of the boxes: those from a first up to a last.
#[derive(Clone, Copy)]
struct Half {
    first: u16,
    last: u16,
    ghost few: { last ≤ first + 8 },
}

impl Half {
    // Puts the places of these boxes, by box and grocer.
    fn put_rows(self, k: u16, heads: &[u16], grocers: &[u16], table: &mut [u16])
        requires { RowsIn k heads.now grocers.now × (HalfIn k self.first self.last × (2_040 ≤ length table.old)) }
        ensures { RowsTold k self.first self.last heads.now grocers.now table.new }
    {
        for b in self.first..self.last {
            let row = usize::from(b) * CLASSES;
            let from = index_at(heads, row);
            let to = index_at(heads, row + (usize::from(k) + 1));
            put_numbers(
                grocers,
                from,
                to,
                usize::from(b - self.first) * GROCERS,
                table,
            );
        }
    }

    // The row of box b in the table of these boxes, and some row for a box of the other half or of none.
    fn row_of(self, b: u16) -> u16
        ensures { (self.first ≤ b → b < self.last → result ≡ b - self.first) × (result < 8) }
    {
        if (b < self.first) | (b >= self.last) {
            return 0;
        }
        b - self.first
    }

    // The place of a tally of box b and grocer g: the old one for a box before the first, and 0 for a box behind the last. The table is read in either
    // case, so that no branch has to be foretold.
    fn place_at(self, b: u16, g: usize, old: u16, table: &[u16]) -> u16
        requires { (g < 255) × (2_040 ≤ length table.now) }
        ensures { result ≡ place_at self.first self.last table.now b g old }
    {
        let row = usize::from(self.row_of(b));
        let told = u16_at(table, row * GROCERS + g);
        if b < self.first {
            return old;
        }
        if b >= self.last {
            return 0;
        }
        told
    }

    // Puts the place of each of n tallies of these boxes.
    fn look_places(self, n: usize, boxes: &[u16], items: &[u16], table: &[u16], places: &mut [u16])
        requires n_in_bounds { (n ≤ length boxes.now) × ((n ≤ length items.now) × ((2_040 ≤ length table.now) × (n ≤ length places.old))) }
        requires by_index { (t : ℕ) → t < n → at items.now t < 255 }
        ensures { places.new ≡ overwrite n (λ t. place_at self.first self.last table.now (at boxes.now t) (at items.now t)
            (at places.old t)) places.old }
    {
        for t in 0..n {
            places[t] = self.place_at(u16_at(boxes, t), index_at(items, t), places[t], table);
        }
    }

    // The places of the tallies of these boxes, from where their groups begin and their grocers by place.
    fn put_half(
        self,
        k: u16,
        heads: &[u16],
        grocers: &[u16],
        n: usize,
        boxes: &[u16],
        items: &[u16],
        places: &mut [u16],
    )
        requires rows_in { RowsIn k heads.now grocers.now × (HalfIn k self.first self.last
            × ((n ≤ length boxes.now) × ((n ≤ length items.now) × (n ≤ length places.old)))) }
        requires by_index { (t : ℕ) → t < n → at items.now t < 255 }
        ensures { HalfPlaces k self.first self.last n boxes.now items.now heads.now grocers.now
            places.old places.new }
    {
        let mut table = [0u16; HALF_PLACES];
        self.put_rows(k, heads, grocers, &mut table);
        self.look_places(n, boxes, items, &table, places);
    }
}

// What the steps of a run look up: where each group of each box begins, CLASSES words a box, the grocer of each place, and the place of each
// tally's total; 0 for a tally of no box. Half the boxes at a time, so that a small table by box and grocer is enough.
pub fn all_boxes(
    k: u16,
    m: usize,
    owners: &[u16],
    words: &[u16],
    n: usize,
    boxes: &[u16],
    items: &[u16],
    heads: &mut [u16],
    grocers: &mut [u16],
    places: &mut [u16],
)
    requires { AllIn k m n owners.now words.now boxes.now items.now (length heads.old) (length grocers.old) (length places.old) }
    ensures { AllPlaces k m n owners.now words.now boxes.now items.now heads.new
        grocers.new places.new }
{
    all_lists(k, m, owners, words, heads, grocers);
    let half = k / 2;
    let before = Half {
        first: 0,
        last: half,
    };
    before.put_half(k, heads, grocers, n, boxes, items, places);
    let behind = Half {
        first: half,
        last: k,
    };
    behind.put_half(k, heads, grocers, n, boxes, items, places);
}
