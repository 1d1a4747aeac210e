// Stretches of bytes that are kept, and of bytes that are skipped (02 c). Meaning: specs/Machine.antt. Refusals: none.
ghost use Rattle.std.specs.Prelude.{◌≡◌};
ghost use Rattle.salvage.specs.Machine.{kept_from, skips_from};

use crate::choices::choose;
use records::RECORD_BYTES;
use words::Moment;

// How many bytes are kept, and the time of the record that was kept last.
#[derive(Clone, Copy)]
pub(crate) struct Stretch {
    pub(crate) bytes: usize,
    pub(crate) last: Option<Moment>,
}

// Gives the stretch of records at the front of the bytes that are kept, one after the other.
pub(crate) fn keep_stretch(last: Option<Moment>, bytes: &[u8]) -> Stretch
    ensures stretch { result ≡ kept_from last bytes.now }
{
    let mut kept = last;
    let mut at = 0;
    for record in bytes.chunks_exact(RECORD_BYTES) {
        let Ok(time) = choose(kept, record) else {
            return Stretch {
                bytes: at,
                last: kept,
            };
        };
        kept = Some(time);
        at += RECORD_BYTES;
    }
    Stretch {
        bytes: at,
        last: kept,
    }
}

// Both stretches have a function: one goes on by a record and remembers its time, the other by a byte and counts strays, so that one for both would ask which it is at
// each step.

// How many bytes are skipped, and at how many of their places a record stands that is refused for its time alone.
#[derive(Clone, Copy)]
pub(crate) struct Skipped {
    pub(crate) bytes: usize,
    pub(crate) strays: usize,
}

// Gives what is skipped at the front of the bytes, up to a record that is kept or to where fewer than 16 bytes are left.
pub(crate) fn skip_stretch(last: Option<Moment>, bytes: &[u8]) -> Skipped
    ensures skipped { result ≡ skips_from last bytes.now }
{
    let mut at = 0;
    let mut strays = 0;
    for place in bytes.windows(RECORD_BYTES) {
        let Err(stray) = choose(last, place) else {
            return Skipped { bytes: at, strays };
        };
        strays += stray;
        at += 1;
    }
    Skipped { bytes: at, strays }
}
