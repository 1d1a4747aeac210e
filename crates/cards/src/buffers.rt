// The byte buffer of the bench: back, bytes, and what judge, looked and file read.
use crate::benches::Problem;
use crate::reasons::Reason;
use lines::read_digit;
use records::{RECORD_BYTES, WordRecord};

// "a byte buffer of 65,536 bytes, room for 4,096 records"
const BUFFER_BYTES: usize = 65536;

// The bytes and how many of them count: the memory is fixed. What stands behind those is nothing: a text that is no bytes may leave some there.
#[derive(Drop)]
pub(crate) struct Buffer {
    bytes: [u8; BUFFER_BYTES],
    length: usize,
}

// Puts the bytes that a part of a line spells, two digits each, into a room from a place on, and gives the place behind them; or None, where it
// is no pairs of digits or they have no room.
fn fill_part(part: &[u8], room: &mut [u8], start: usize) -> Option<usize> {
    let mut place = start;
    for pair in part.chunks(2) {
        let &[high, low] = pair else {
            return None;
        };
        *room.get_mut(place)? = (read_digit(high)? << 4) | read_digit(low)?;
        place += 1;
    }
    Some(place)
}

// Puts the bytes of all parts of a text there, likewise.
fn fill(text: &[u8], room: &mut [u8], start: usize) -> Option<usize> {
    let mut place = start;
    for part in text.split(|byte| *byte == b' ') {
        place = fill_part(part, room, place)?;
    }
    Some(place)
}

impl Buffer {
    pub(crate) fn empty() -> Buffer {
        Buffer {
            bytes: [0; BUFFER_BYTES],
            length: 0,
        }
    }

    pub(crate) fn clear(&mut self) {
        self.length = 0;
    }

    // The bytes that count.
    pub(crate) fn filled(&self) -> &[u8] {
        &self.bytes[..self.length.min(BUFFER_BYTES)]
    }

    // Puts a record at the end. Without room it is no call, whatever the record.
    pub(crate) fn append(&mut self, heard: WordRecord) -> Result<(), Problem> {
        let start = self.length.min(BUFFER_BYTES);
        if BUFFER_BYTES - start < RECORD_BYTES {
            return Err(Problem::NoCall(Reason::NoRoom));
        }
        heard.write(&mut self.bytes[start..])?;
        self.length = start + RECORD_BYTES;
        Ok(())
    }

    // Puts the bytes that a text spells at the end. The text "none" empties it.
    pub(crate) fn append_spelled(&mut self, text: &[u8]) -> Result<(), Problem> {
        if text == b"none".as_slice() {
            self.clear();
            return Ok(());
        }
        let end = fill(text, &mut self.bytes, self.length);
        self.length = end.ok_or(Reason::NoBytes)?;
        Ok(())
    }
}
