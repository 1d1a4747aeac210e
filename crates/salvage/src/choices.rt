// Whether the bytes at a place are kept (02 c). Meaning: specs/Pieces.antt. Refusals: none.
ghost use Rattle.std.specs.Prelude.{◌≡◌};
ghost use Rattle.salvage.specs.Pieces.{in_time};
ghost use Rattle.salvage.specs.Machine.{place_of};

use records::{LAST_BUS, read_record};
use words::{Moment, Ticks};

// "at most 100,000,000 ticks after it"
const STEP_MOST: Ticks = Ticks(100_000_000);

// Says whether a record of that time may be kept behind the one that was kept last, of either bus: "(the first kept may have any time)".
#[tactic(auto, using(words::proofs::Orders::le_test))]
fn allows(last: Option<Moment>, time: Moment) -> bool
    ensures answer { result ≡ in_time last time.0 }
{
    match last {
        Some(before) => (before <= time) & (time.since(before) <= STEP_MOST),
        None => true,
    }
}

// Gives the time of the record that is kept where the bytes begin; or, where a byte is skipped, how many records stand there that are refused for their time alone,
// one or none.
#[tactic(auto, unfolding(crate::specs::Machine::place_of))]
pub(crate) fn choose(last: Option<Moment>, bytes: &[u8]) -> Result<Moment, usize>
    ensures place { result ≡ place_of last bytes.now }
{
    let Ok(record) = read_record(bytes, LAST_BUS) else {
        return Err(0);
    };
    let time = record.time;
    if allows(last, time) {
        return Ok(time);
    }
    Err(1)
}
