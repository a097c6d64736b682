// Step 3 on the price tables.
ghost use Rattle.std.specs.Prelude.{◌≡◌, Bool, ℕ, ◌*◌, ◌/◌};
ghost use Rattle.laws.specs.Listed.{Listed};
ghost use Rattle.step_prices.specs.Prices.{PriceRows, PricesIn, received_known, received_transit};

use slices::amounts::row_start;
use slices::index_at;
use slices::lists::words_at;
use step_entries::take_words;

// Box a receives the prices of the offers listed from one place up to another, on every list. They are known to it, and no longer in transit.
pub fn receive_prices(
    n: usize,
    width: usize,
    a: u16,
    from: usize,
    to: usize,
    offers: &[u16],
    known: &mut [u32],
    transit: &mut [u32],
)
    requires { PriceRows n width a a from to offers.now known.old transit.old }
    ensures { (k : ℕ) (passes : ℕ → Bool) → PricesIn k (n * width) a a known.old transit.old →
        Listed n passes from to offers.now →
        (known.new ≡ received_known k (n * width) a (λ w. passes (w / width)) known.old transit.old) ×
        (transit.new ≡ received_transit k (n * width) a (λ w. passes (w / width)) transit.old) }
{
    let row = row_start(words_at(n, width), a);
    for i in from..to {
        let at = words_at(index_at(offers, i), width);
        take_words(known, transit, row + at, width);
    }
}
