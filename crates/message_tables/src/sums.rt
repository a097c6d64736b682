// The sums of a table of messages: what a box sends, what it receives, and all words.
ghost use Rattle.std.specs.Prelude.{◌≡◌, cond, ◌≤◌};
ghost use Rattle.message_tables.specs.Sums.{row_sum, column_sum, table_sum};

use slices::limits::BOXES;

// The sum of row x of a table, or where `back` of column x; 0 where it has none.
fn line_sum(table: [[u16; BOXES]; BOXES], back: bool, x: usize) -> u32
    ensures { (result ≡ cond back (column_sum table x) (row_sum table x)) × (result ≤ 1048560) }
{
    if x >= BOXES {
        return 0;
    }
    let mut sum = 0;
    for y in 0..BOXES {
        let (from, to) = if back { (y, x) } else { (x, y) };
        sum += u32::from(table[from][to]);
    }
    sum
}

// The words that box a sends: its row of a table, 0 from box 16 on.
pub fn row_sum(table: [[u16; BOXES]; BOXES], a: usize) -> u32
    ensures { result ≡ row_sum table a }
{
    line_sum(table, false, a)
}

// The words that box b receives: its column of a table, 0 from box 16 on.
pub fn column_sum(table: [[u16; BOXES]; BOXES], b: usize) -> u32
    ensures { result ≡ column_sum table b }
{
    line_sum(table, true, b)
}

// The words of a table in all.
pub fn table_sum(table: [[u16; BOXES]; BOXES]) -> u32
    ensures { result ≡ table_sum table }
{
    let mut sum = 0;
    for a in 0..BOXES {
        sum += line_sum(table, false, a);
    }
    sum
}
