// The words of an entry, one for each price list, side by side.
#![tactic(auto)]

ghost use Rattle.std.specs.Prelude.{◌≡◌, cond, ℕ, ◌+◌, ◌-◌, ◌≤◌, length, get_or};
ghost use Rattle.model.specs.Spans.{in_span};

// Copies the words of an entry, from a place of one table to a place of another.
pub fn copy_words(words: &mut [u32], to: usize, source: &[u32], from: usize, width: usize)
    requires { (to + width ≤ length words.old) × (from + width ≤ length source.now) }
    ensures { (k : ℕ) → get_or words.new k 0 ≡ cond (in_span to (to + width) k) (get_or source.now (from + (k - to)) 0)
        (get_or words.old k 0) }
{
    // A copy of the library's is compiled to memmove, which the archive for C does not ask of its callers.
    for i in 0..width {
        words[to + i] = slices::u32_at(source, from + i);
    }
}

// Takes the words of an entry out of transit into the same places of those known. They become 0 in transit. It is one pass over both tables: a copy and
// a fill would be two, for the one to eight words of each entry.
pub fn take_words(known: &mut [u32], transit: &mut [u32], at: usize, width: usize)
    requires { (at + width ≤ length known.old) × (at + width ≤ length transit.old) }
    ensures { ((k : ℕ) → get_or known.new k 0 ≡ cond (in_span at (at + width) k) (get_or transit.old k 0)
        (get_or known.old k 0)) ×
        ((k : ℕ) → get_or transit.new k 0 ≡ cond (in_span at (at + width) k) 0 (get_or transit.old k 0)) }
{
    for i in 0..width {
        let p = at + i;
        let word = transit[p];
        known[p] = word;
        transit[p] = 0;
    }
}
