// Where a record stands.
ghost use Rattle.std.specs.Prelude.{◌≡◌, ◌≤◌, ◌<◌};
ghost use Rattle.format.specs.File.{record_at, price_at};

// Where record i stands, of the records of 24 bytes whose first block is `first`. Each block has 8 bytes that are of no record, and the
// product over 2^16 is i / 21, without a division.
pub fn record_at(first: usize, i: usize) -> usize
    requires { (first ≤ 100) × (i < 1000) }
    ensures { result ≡ record_at first i }
{
    512 * first + 4 + 24 * i + 8 * (i * 3121 / 65536)
}

// Where price i stands, of the list whose first block is `first`: eight bytes of each block are of no price, and the product over 2^16 is
// i / 126.
pub fn price_at(first: usize, i: usize) -> usize
    requires { (first ≤ 100) × (i < 500) }
    ensures { result ≡ price_at first i }
{
    512 * first + 4 + 4 * i + 8 * (i * 521 / 65536)
}
