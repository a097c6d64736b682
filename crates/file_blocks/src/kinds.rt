// The kinds of block.
ghost use Rattle.std.specs.Prelude.{◌≡◌, ℕ};
ghost use Rattle.format.specs.Blocks.{BlockKind as FormatKind, block_kind_number, record_size, field_size};
ghost use Rattle.file_blocks.specs.Kinds.{kind_number};

// What a block holds: the header, or records of one kind.
#[derive(Clone, Copy, Debug, PartialEq, Eq)]
pub enum BlockKind {
    Header,
    Offers,
    Grocers,
    Tallies,
    Prices,
}

// (A match for each fact of a kind: the three have no value in common.)
impl BlockKind {
    // The kind as byte 0 of a block says it.
    pub fn number(self) -> usize
        ensures { result ≡ kind_number self }
    {
        match self {
            BlockKind::Header => 0,
            BlockKind::Offers => 1,
            BlockKind::Grocers => 2,
            BlockKind::Tallies => 3,
            BlockKind::Prices => 4,
        }
    }

    // The bytes of a record.
    pub fn record_size(self) -> usize
        ensures { (b : FormatKind) → kind_number self ≡ block_kind_number b → result ≡ record_size b }
    {
        match self {
            BlockKind::Header => 504,
            BlockKind::Offers => 24,
            BlockKind::Grocers => 1,
            BlockKind::Tallies => 24,
            BlockKind::Prices => 4,
        }
    }

    // The bytes of a record that its fields take.
    pub fn field_size(self) -> usize
        ensures { (b : FormatKind) → kind_number self ≡ block_kind_number b → result ≡ field_size b }
    {
        match self {
            BlockKind::Header => 11,
            BlockKind::Offers => 18,
            BlockKind::Grocers => 1,
            BlockKind::Tallies => 24,
            BlockKind::Prices => 4,
        }
    }
}
