// The verdicts and their numbers (01 Controller verdicts; 02 i). Later requests append; one that narrows a verdict (10, by 02 i) says so.
// Meaning: specs/Numbers.antt.
ghost use Rattle.std.specs.Prelude.{◌≡◌};
ghost use Rattle.verdict.specs.Numbers.{number_of, last_verdict};

// A verdict, with its number. The judge gives one of those that have a name; whoever hands one in may hand in any number.
#[derive(Clone, Copy, Debug, PartialEq, Eq)]
pub enum Verdict {
    // "0 good"
    Good,
    // "1 no response"
    NoResponse,
    // "2 still waiting"
    Waiting,
    // "Gap below 40: 3 early."
    Early,
    // "Above 120: 4 late."
    Late,
    // "Not valid, sync 2 included: 5."
    NotValid,
    // "Data sync: 6.", of data words "Command sync: 6."
    WrongSync,
    // "Wrong address: 7."
    WrongAddress,
    // "Message error: 8."
    MessageError,
    // "Busy: 9."
    Busy,
    // "not 195 to 205 after the last word, or missing ..: 10", narrowed to "10 separated or missing" (02 i)
    Separated,
    // "A record left over: 11."
    LeftOver,
    // "12 overlapping" (02 i)
    Overlapping,
    // a number to which no document gives a verdict: none is given so, and one that is handed in is taken as any other
    Unnamed(u8),
}

impl Verdict {
    // "verdicts 0 to 12" (02 i): the last one, for whoever goes over them all
    pub const LAST: Verdict = Verdict::Overlapping;

    // Gives the number of the verdict.
    // Tables: none. Refusals: none.
    pub fn number(self) -> u8
        ensures number { result ≡ number_of self }
    {
        match self {
            Verdict::Good => 0,
            Verdict::NoResponse => 1,
            Verdict::Waiting => 2,
            Verdict::Early => 3,
            Verdict::Late => 4,
            Verdict::NotValid => 5,
            Verdict::WrongSync => 6,
            Verdict::WrongAddress => 7,
            Verdict::MessageError => 8,
            Verdict::Busy => 9,
            Verdict::Separated => 10,
            Verdict::LeftOver => 11,
            Verdict::Overlapping => 12,
            Verdict::Unnamed(number) => number,
        }
    }
}

// Gives the number of the last verdict. Nothing calls it: its promise holds the constant to the definition that whatever goes over all verdicts cites.
fn last_number() -> u8
    ensures number { result ≡ last_verdict }
{
    Verdict::LAST.number()
}
