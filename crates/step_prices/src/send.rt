// Step 1 on the price tables.
ghost use Rattle.std.specs.Prelude.{◌≡◌, Bool, ℕ, ◌*◌, ◌/◌};
ghost use Rattle.laws.specs.Listed.{Listed};
ghost use Rattle.step_prices.specs.Prices.{PriceRows, PricesIn, sent_transit};

use slices::amounts::row_start;
use slices::index_at;
use slices::lists::words_at;
use step_entries::copy_words;

// Box a sends to box b the prices of the offers listed from one place up to another, on every list.
pub fn send_prices(
    n: usize,
    width: usize,
    a: u16,
    b: u16,
    from: usize,
    to: usize,
    offers: &[u16],
    known: &[u32],
    transit: &mut [u32],
)
    requires { PriceRows n width a b from to offers.now known.now transit.old }
    ensures { (k : ℕ) (passes : ℕ → Bool) → PricesIn k (n * width) a b known.now transit.old →
        Listed n passes from to offers.now →
        transit.new ≡ sent_transit k (n * width) a b (λ w. passes (w / width)) known.now transit.old }
{
    let words = words_at(n, width);
    let sender = row_start(words, a);
    let receiver = row_start(words, b);
    for i in from..to {
        let at = words_at(index_at(offers, i), width);
        copy_words(transit, receiver + at, known, sender + at, width);
    }
}
