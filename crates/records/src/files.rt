// A file of word records (01 Word records on file; Numbers for a refused call: "Reading a file"). Meaning: specs/Files.antt.
// Refusals: 8, then record by record 3, 4, 5.
ghost use Rattle.std.specs.Prelude.{◌≡◌, length};
ghost use Rattle.records.specs.Files.{last_bus_of, open_of, next_of, walk_from, counts, counted_of};

use crate::forms::{LAST_BUS, RECORD_BYTES, WordRecord, read_record};
use words::Refusal;

// "One version byte, 1, opens the file."
pub const VERSION: u8 = 1;

// A place in a file, counted in bytes, and the last bus that a record there may name.
#[derive(Clone, Copy)]
pub struct Cursor {
    pub at: usize,
    pub last_bus: u8,
}

// Gives the last bus of a record in a file of the version that the byte says: one for all so far, asked where another will differ.
fn last_bus_of(version: u8) -> u8
    ensures bus { result ≡ last_bus_of version }
{
    LAST_BUS
}

// Gives the place of the first record.
// Tables: file is only read. Refusals: 8, version not 1, or no byte.
pub fn open_file(file: &[u8]) -> Result<Cursor, Refusal>
    ensures opened { result ≡ open_of file.now }
{
    match file.first() {
        Some(&first) if first == VERSION => Ok(Cursor {
            at: 1,
            last_bus: last_bus_of(first),
        }),
        _ => Err(Refusal::WrongVersion),
    }
}

impl Cursor {
    // Gives the record at this place and the place after it, or none where no byte is left.
    // Tables: file is only read. Refusals: 3, 4, 5, as reading a record.
    pub fn next(self, file: &[u8]) -> Result<Option<(WordRecord, Cursor)>, Refusal>
        ensures next { result ≡ next_of file.now self }
    {
        let at = self.at;
        let last_bus = self.last_bus;
        if file.len() <= at {
            return Ok(None);
        }
        let record = read_record(&file[at..], last_bus)?;
        let at = at + RECORD_BYTES;
        Ok(Some((record, Cursor { at, last_bus })))
    }
}

// Gives how many records the bytes hold, the bus at most the last one, or the first refusal. It reads by itself and not by the cursor, so that the
// loop carries one number.
fn count_in(bytes: &[u8], last_bus: u8) -> Result<u64, Refusal>
    ensures counted { result ≡ counts (walk_from last_bus (length bytes.now) bytes.now) }
{
    let mut records = 0;
    for record in bytes.chunks(RECORD_BYTES) {
        read_record(record, last_bus)?;
        records += 1;
    }
    Ok(records)
}

// Gives how many records the file holds, all of them read, or the first refusal.
// Tables: file is only read. Refusals: 8, then record by record 3, 4, 5.
pub fn count_records(file: &[u8]) -> Result<u64, Refusal>
    ensures counted { result ≡ counted_of file.now }
{
    let start = open_file(file)?;
    count_in(&file[start.at..], start.last_bus)
}
