// The count of words sent, with those of a message.
#![tactic(auto)]

ghost use Rattle.std.specs.Prelude.{◌≡◌, ◌+◌, ◌≤◌, leb, length, get_or, set};
ghost use Rattle.laws.specs.Limits.{max_sent};

use slices::limits::MAX_SENT;

// Whether the count of words sent stays in range with the words of a message.
pub fn sent_fits(sent: &[u32], more: u32) -> bool
    requires in_bounds { (1 ≤ length sent.now) × (get_or sent.now 0 0 ≤ max_sent) }
    requires more_bound { more ≤ 4_000 }
    ensures { result ≡ leb (get_or sent.now 0 0 + more) max_sent }
{
    sent[0] + more <= MAX_SENT
}

// Raises the count of words sent by the words of a message.
pub fn raise(sent: &mut [u32], more: u32)
    requires in_bounds { (1 ≤ length sent.old) × (get_or sent.old 0 0 ≤ max_sent) }
    requires more_bound { more ≤ 4_000 }
    ensures { sent.new ≡ set sent.old 0 (get_or sent.old 0 0 + more) }
{
    sent[0] += more;
}
