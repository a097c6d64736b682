// The reconciliation desk: what one grocer is owed, from a lent list of tally records.
#![tactic(auto)]

ghost use Rattle.std.specs.Prelude.{◌≡◌, ◌≤◌, take};
ghost use Rattle.recount.specs.Recount.{Counted};
ghost use Rattle.index.specs.Bags.{KeysOf};
ghost use Rattle.model.specs.Reconcile.{reconciled};
ghost use Rattle.desk.specs.Records.{records_of, answer_of};
ghost use Rattle.desk.specs.Serial.{settled, Summable};

pub use desk_records::Tally;
use desk_records::{Asked, Entries, head_refusal, standing_sum, take_record};
use index::bags::strike;
use refusals::Refusal;
use slices::limits::TALLIES;

// The most records that are lent by value.
pub const FEW: usize = 1_024;

// The answer where no record is refused: 9 where one bag and revision is there twice, or the sum of the shares that stand.
fn settle(entries: &Entries, len: usize) -> Result<i64, Refusal>
    requires { Summable len entries.now.keys entries.now.shares }
    ensures { (c : Counted) → KeysOf c entries.now.keys len → result ≡ settled c entries.now.shares }
{
    let mut marks = [0; TALLIES];
    if strike(&entries.keys, len, &mut marks) {
        return Err(Refusal::CountedTwice);
    }
    Ok(standing_sum(&entries.shares, &marks, len))
}

// What the records say that the grocer wanted is owed, in tenths of a cent, or the refusal; sizes, prices and records may be anything.
pub fn reconcile(
    records: &[Tally],
    price: &[u32],
    grocers: u16,
    offers: u16,
    wanted: u16,
) -> Result<i64, Refusal>
    ensures { answer_of result ≡ reconciled grocers offers wanted price.now (records_of records.now) }
{
    let asked = Asked {
        price,
        grocers,
        offers,
        wanted,
    };
    head_refusal(records.len(), &asked)?;
    let mut entries = Entries {
        keys: [0; TALLIES],
        shares: [0; TALLIES],
    };
    for (i, tally) in records.iter().enumerate() {
        take_record(i, *tally, &asked, &mut entries)?;
    }
    settle(&entries, records.len())
}

// The same of the first len of 1,024 records by value, for callers that hold no slice; a larger len counts as 1,024.
pub fn reconcile_few(
    records: [Tally; FEW],
    len: usize,
    price: &[u32],
    grocers: u16,
    offers: u16,
    wanted: u16,
) -> Result<i64, Refusal>
    ensures { answer_of result ≡ reconciled grocers offers wanted price.now (records_of (take len records)) }
{
    reconcile(&records[..len.min(FEW)], price, grocers, offers, wanted)
}
