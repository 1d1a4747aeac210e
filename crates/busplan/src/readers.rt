// The reading of a plan from a file, chunk by chunk (docs/LINES.md, busplan FILE). What its text says `plans` tells. Refusals: none.
use plans::{Draft, Reading};

// Reads a plan to its end or up to a bad line, or gives the system's number for why a read has failed. A proved loop has to end, and nothing says that the file does:
// it makes no more turns than a number that no run uses up.
pub(crate) fn read_plan(input: lines::Source<'_>) -> Result<Draft, i32> {
    let mut reading = Reading::start();
    let mut chunk = io::large_buffer();
    for _ in 0..u64::MAX {
        if !reading.more {
            break;
        }
        let count = input.read(&mut chunk)?;
        if count == 0 {
            break;
        }
        reading = reading.take(&chunk[..count]);
    }
    Ok(reading.end())
}
