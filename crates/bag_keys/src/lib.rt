// A count of a bag as one number: its key, and what two keys tell.
#![tactic(auto)]

ghost use Rattle.std.specs.Prelude.{◌≡◌, ◌+◌, ◌*◌, ◌/◌, ◌%◌, not, eqb};
ghost use Rattle.bag_keys.specs.Keys.{twice_keys, bag_keys};

// Grocer, offer, bag and revision of a count as one number.
pub fn count_key(grocer: u16, offer: u16, bag: u16, revision: u16) -> u64
    ensures { result ≡ ((grocer * 512 + offer) * 65536 + bag) * 65536 + revision }
{
    ((u64::from(grocer) * 512 + u64::from(offer)) * 65536 + u64::from(bag)) * 65536
        + u64::from(revision)
}

// Whether a key is of a bag, and not of loose coupons.
pub fn of_bag(key: u64) -> bool
    ensures { result ≡ not (eqb (key / 65536 % 65536) 0) }
{
    (key / 65536) % 65536 != 0
}

// Whether two keys are of one bag and revision; loose coupons are of none.
#[tactic(auto, unfolding(crate::specs::Keys::twice_keys))]
pub fn same_count(key: u64, next: u64) -> bool
    ensures { result ≡ twice_keys key next }
{
    of_bag(key) & (key == next)
}

// Whether two keys are of one bag.
#[tactic(auto, unfolding(crate::specs::Keys::bag_keys))]
pub fn same_bag(key: u64, next: u64) -> bool
    ensures { result ≡ bag_keys key next }
{
    of_bag(key) & (key / 65536 == next / 65536)
}
