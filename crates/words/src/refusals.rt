// The numbers of a refused call (01 Numbers for a refused call). Later requests append; no number is given another meaning.
// Meaning: specs/Refusals.antt. A call that can be refused gives a `Result`; a refusal is its error, and has a number for C and for a line.
ghost use Rattle.std.specs.Prelude.{◌≡◌};
ghost use Rattle.words.specs.Refusals.{number_of};

// Why a call was refused.
#[derive(Clone, Copy, Debug, PartialEq, Eq)]
pub enum Refusal {
    // "a lent word table is not 1,024 words, a lent mask table not 32 masks"
    TableSize,
    // "own address above 30"
    OwnAddress,
    // "fewer than 16 bytes for a record"
    ShortRecord,
    // "record length not 14"
    RecordLength,
    // "a field or a time out of range; in a verdict, a record of another bus than the plan's"
    OutOfRange,
    // "event earlier than the last; returned record not later than the one before (E first) or after Q"
    OutOfOrder,
    // "impossible plan"
    ImpossiblePlan,
    // "version not 1, or no byte"
    WrongVersion,
    // "fewer than 16 bytes to write a record"
    NoRoom,
    // "more messages, another period or an impossible plan" in a schedule (02 j)
    Schedule,
}

impl Refusal {
    // Gives the refusal's number; 0, which none has, is a call that was not refused.
    // Tables: none. Refusals: none.
    pub fn number(self) -> u8
        ensures number { result ≡ number_of self }
    {
        match self {
            Refusal::TableSize => 1,
            Refusal::OwnAddress => 2,
            Refusal::ShortRecord => 3,
            Refusal::RecordLength => 4,
            Refusal::OutOfRange => 5,
            Refusal::OutOfOrder => 6,
            Refusal::ImpossiblePlan => 7,
            Refusal::WrongVersion => 8,
            Refusal::NoRoom => 9,
            Refusal::Schedule => 15,
        }
    }
}
