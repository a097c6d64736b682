// Loops over places, of which the body is passed: a test of each place, or what is read for each.
ghost use Rattle.std.specs.Prelude.{ℕ, ◌≤◌, ◌<◌, length};
ghost use Rattle.file_blocks.specs.ByPlace.{AnyBy, FilledBy};

// Whether one of the first n places passes a test. Each is tested, without a branch.
pub fn any_by<F: Fn(usize) -> bool>(n: usize, test: F) -> bool
    requires { (i : ℕ) → i < n → F.pre test i }
    ensures { AnyBy (F.post test) n result }
{
    let mut found = false;
    for i in 0..n {
        found = found | test(i);
    }
    found
}

// The first n words of a table become what is read for each; words past those are not touched. (n stands beside the table, since tables are
// lent as long as the largest job needs.)
pub fn fill_by<T: Copy, F: Fn(usize) -> T>(table: &mut [T], n: usize, read: F)
    requires n_in_bounds { n ≤ length table.old }
    requires by_index { (i : ℕ) → i < n → F.pre read i }
    ensures { FilledBy (F.post read) n table.old table.new }
{
    for (i, word) in table[..n].iter_mut().enumerate() {
        *word = read(i);
    }
}
