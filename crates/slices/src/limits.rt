// The limits of "Terms and sizes", as crates/laws/specs/Limits.antt names them, and the lengths of tables for the most.

// Boxes, K: 1 to 16.
pub const MAX_BOXES: u16 = 16;

// Grocers, M: 1 to 255.
pub const MAX_GROCERS: u16 = 255;

// Offers, N: 1 to 500.
pub const MAX_OFFERS: u16 = 500;

// Tallies, T: 0 to 1,000.
pub const MAX_TALLIES: u16 = 1_000;

// Additional price lists: 0 to 7.
pub const MAX_LISTS: u16 = 7;

// Prices, in tenths of a cent: 0 to 9,999,999.
pub const MAX_PRICE: u32 = 9_999_999;

// The largest count,
pub const MAX_COUNT: i32 = 99_999;

// and the least.
pub const MIN_COUNT: i32 = -99_999;

// The largest amount, in tenths of a cent,
pub const MAX_AMOUNT: i64 = 1_000_000_000_000_000;

// and the least.
pub const MIN_AMOUNT: i64 = -1_000_000_000_000_000;

// Words sent: 0 to 1,000,000.
pub const MAX_SENT: u32 = 1_000_000;

// The length of a table with a word for each box,
pub const BOXES: usize = MAX_BOXES as usize;

// for each grocer,
pub const GROCERS: usize = MAX_GROCERS as usize;

// for each offer,
pub const OFFERS: usize = MAX_OFFERS as usize;

// and for each tally.
pub const TALLIES: usize = MAX_TALLIES as usize;
