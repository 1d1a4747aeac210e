// The facts that decide a verdict (01 Controller verdicts: "First fact found decides"; 02 i). Meaning: specs/Facts.antt. Inner functions: the
// judge calls them. Refusals: none.
ghost use Rattle.std.specs.Prelude.{◌≡◌};
ghost use Rattle.verdict.specs.Facts.{flag_fact, status_fact, data_fact, fact_of, end_of};

use crate::plans::Expected;
use crate::verdicts::Verdict;
use records::WordRecord;
use words::{COMMAND_SYNC, DATA_SYNC, Flag, Moment, Spacing, StatusWord, Ticks};

// "nothing with a gap up to 140", "Gap below 40", "Above 120"
const RESPONSE_MOST: Ticks = Ticks(140);

const GAP_LEAST: Ticks = Ticks(40);

const GAP_MOST: Ticks = Ticks(120);

// "2 if Q is below the last word plus 220"
const LISTENED_LEAST: Ticks = Ticks(220);

// Gives what the flags of a status show.
#[tactic(auto, unfolding(crate::specs::Facts::flag_fact))]
fn flag_fact(heard: WordRecord) -> Option<Verdict>
    ensures fact { result ≡ flag_fact heard }
{
    let status = StatusWord(heard.word);
    if status.has(Flag::MessageError) {
        return Some(Verdict::MessageError);
    }
    if status.has(Flag::Busy) {
        return Some(Verdict::Busy);
    }
    None
}

// Gives what a record shows where the status of an address is expected, the last word at that moment.
#[tactic(auto, unfolding(crate::specs::Facts::status_fact))]
fn status_fact(address: u16, unjudged: bool, last: Moment, heard: WordRecord) -> Option<Verdict>
    ensures fact { result ≡ status_fact address unjudged last.0 heard }
{
    let gap = words::gap(last, heard.time);
    if gap > RESPONSE_MOST {
        return Some(Verdict::NoResponse);
    }
    if gap < GAP_LEAST {
        return Some(Verdict::Early);
    }
    if gap > GAP_MOST {
        return Some(Verdict::Late);
    }
    if !heard.is_valid() {
        return Some(Verdict::NotValid);
    }
    if heard.sync == DATA_SYNC {
        return Some(Verdict::WrongSync);
    }
    if StatusWord(heard.word).address() != address {
        return Some(Verdict::WrongAddress);
    }
    if unjudged {
        return None;
    }
    flag_fact(heard)
}

// Gives what a record shows where a data word is expected.
#[tactic(auto, unfolding(crate::specs::Facts::data_fact))]
pub(crate) fn data_fact(last: Moment, heard: WordRecord) -> Option<Verdict>
    ensures fact { result ≡ data_fact last.0 heard }
{
    match words::spacing_between(last, heard.time) {
        Spacing::Overlapping(_) => Some(Verdict::Overlapping),
        Spacing::Separated(_) => Some(Verdict::Separated),
        Spacing::BackToBack(_) => {
            if !heard.is_valid() {
                return Some(Verdict::NotValid);
            }
            if heard.sync == COMMAND_SYNC {
                return Some(Verdict::WrongSync);
            }
            None
        }
    }
}

// Gives what a record shows where that is expected, none where nothing more is.
#[tactic(auto, unfolding(crate::specs::Facts::fact_of))]
pub(crate) fn fact_of(
    expected: Option<Expected>,
    last: Moment,
    heard: WordRecord,
) -> Option<Verdict>
    ensures fact { result ≡ fact_of expected last.0 heard }
{
    match expected {
        Some(Expected::Status(address, unjudged)) => status_fact(address, unjudged, last, heard),
        Some(Expected::Data) => data_fact(last, heard),
        None => Some(Verdict::LeftOver),
    }
}

// Gives the verdict where no record is left, and that or nothing more is expected.
#[tactic(auto, unfolding(crate::specs::Facts::end_of))]
pub(crate) fn end_of(expected: Option<Expected>, last: Moment, until: Moment) -> Verdict
    ensures verdict { result ≡ end_of expected last.0 until.0 }
{
    let listened = until.since(last);
    match expected {
        Some(Expected::Status(_, _)) if listened >= Ticks::NO_RESPONSE_DISTANCE =>
            Verdict::NoResponse,
        Some(Expected::Data) if listened > Ticks::SPACING_MOST => Verdict::Separated,
        None if listened >= LISTENED_LEAST => Verdict::Good,
        _ => Verdict::Waiting,
    }
}
