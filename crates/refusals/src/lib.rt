// Why a call is refused: the conditions of the specification, each with its number.
#![tactic(auto)]

ghost use Rattle.std.specs.Prelude.{◌≡◌};
ghost use Rattle.refusals.specs.Numbers.{number_of, number};

// The condition under which a call is refused. 0 is no condition: an accepted call has it for its number.
#[derive(Clone, Copy, Debug, PartialEq, Eq)]
pub enum Refusal {
    // 1: a file of no length that a job has.
    BadLength,
    // 2: the sums of a block are not as stored.
    SumsDiffer,
    // 3: kind, block number or record count of a block is not as due.
    NotDue,
    // 4: K, M, N, T or the number of lists is outside its values.
    BadSizes,
    // 5: a spare byte is not 0.
    SpareUsed,
    // 6: a record has a field outside its range.
    BadRecord,
    // 7: two offers share a number under one issuer.
    SharedNumber,
    // 8: a tally's code names no offer of its issuer.
    UnknownOffer,
    // 9: one bag and revision is there twice.
    CountedTwice,
    // 20: a table is lent shorter than it has to be.
    LentShort,
    // 21: a number or a word is outside its range, or would be.
    OutOfRange,
    // 22: no such kind of step.
    NoSuchKind,
    // 23: boxes that a step of this kind, or a book, does not have.
    NoSuchBoxes,
    // 24: an empty message: the job has no such step.
    NoSuchStep,
    // 25: the step is done already.
    AlreadyDone,
    // 26: the step is not ready.
    NotReady,
    // 30: the state is not the one that a finished run leaves.
    NotFinished,
    // 31: there is no room for one more tally.
    NoRoom,
    // 32: the edited job would be refused, or there is no such tally.
    EditRefused,
    // 33: the preference list is none.
    NoPreference,
    // 34: a line of the forecast is bad.
    BadLine,
    // 35: the cycle is stored already, or past.
    CyclePast,
    // 36: an amount is larger than the store holds.
    AmountTooLarge,
}

impl Refusal {
    // The number of the condition.
    pub fn number(self) -> u16
        ensures { result ≡ number_of self }
    {
        match self {
            Refusal::BadLength => 1,
            Refusal::SumsDiffer => 2,
            Refusal::NotDue => 3,
            Refusal::BadSizes => 4,
            Refusal::SpareUsed => 5,
            Refusal::BadRecord => 6,
            Refusal::SharedNumber => 7,
            Refusal::UnknownOffer => 8,
            Refusal::CountedTwice => 9,
            Refusal::LentShort => 20,
            Refusal::OutOfRange => 21,
            Refusal::NoSuchKind => 22,
            Refusal::NoSuchBoxes => 23,
            Refusal::NoSuchStep => 24,
            Refusal::AlreadyDone => 25,
            Refusal::NotReady => 26,
            Refusal::NotFinished => 30,
            Refusal::NoRoom => 31,
            Refusal::EditRefused => 32,
            Refusal::NoPreference => 33,
            Refusal::BadLine => 34,
            Refusal::CyclePast => 35,
            Refusal::AmountTooLarge => 36,
        }
    }
}

// The number of an answer: 0 where the call is accepted, or that of the condition.
pub fn number(answer: Result<(), Refusal>) -> u16
    ensures { result ≡ number answer }
{
    match answer {
        Ok(()) => 0,
        Err(refusal) => refusal.number(),
    }
}
