// One word record: its range, its 16 bytes, read and written (01 Word records on file). Meaning: specs/Records.antt.
// Refusals: 3, 4, 5 reading; 9, 5 writing.
ghost use Rattle.std.specs.Prelude.{◌≡◌, take};
ghost use Rattle.records.specs.Numbers.{number_of};
ghost use Rattle.words.specs.Words.{is_valid};
ghost use Rattle.records.specs.Records.{in_range, form_of, record_at, read_of, writes, written_of};

use words::{Moment, Refusal};

// "length (2 bytes, always 14)", and the bytes of a record in all.
const LENGTH: u16 = 14;

pub const RECORD_BYTES: usize = 16;

// "bus (1: 0 is A, 1 is B)"
pub const BUS_A: u8 = 0;

pub const BUS_B: u8 = 1;

// The last bus of a record that is in no file.
pub const LAST_BUS: u8 = BUS_B;

// A word as the receiver handed it over. Any numbers fit; `in_range` says which can be written and read.
#[derive(Clone, Copy)]
pub struct WordRecord {
    pub time: Moment,
    pub bus: u8,
    pub sync: u8,
    pub faults: u8,
    pub word: u16,
    pub parity: u8,
}

impl WordRecord {
    // Says whether the time and every field are in range, the bus at most the last one.
    // Tables: none. Refusals: none.
    pub fn in_range(self, last_bus: u8) -> bool
        ensures answer { result ≡ in_range last_bus self }
    {
        self.time.on_clock()
            & (self.bus <= last_bus)
            & (self.sync <= 2)
            & (self.faults <= 3)
            & (self.parity <= 1)
    }

    // Says whether its word is valid; any numbers are taken.
    // Tables: none. Refusals: none.
    pub fn is_valid(self) -> bool
        ensures answer { result ≡ is_valid self.sync self.faults self.word self.parity }
    {
        words::is_valid(self.sync, self.faults, self.word, self.parity)
    }

    // Gives the 16 bytes.
    fn form(self) -> [u8; RECORD_BYTES]
        ensures bytes { result ≡ form_of self }
    {
        let [l1, l0] = LENGTH.to_be_bytes();
        let [t7, t6, t5, t4, t3, t2, t1, t0] = self.time.0.to_be_bytes();
        let [w1, w0] = self.word.to_be_bytes();
        [
            l1,
            l0,
            t7,
            t6,
            t5,
            t4,
            t3,
            t2,
            t1,
            t0,
            self.bus,
            self.sync,
            self.faults,
            w1,
            w0,
            self.parity,
        ]
    }

    // Writes the record at the front of the bytes, or gives the refusal.
    // Tables: the first 16 of bytes are the record's form, all others as before; after a refusal every byte is as before.
    // Refusals: 9, fewer than 16 bytes; 5, a field or the time out of range.
    pub fn write(self, bytes: &mut [u8]) -> Result<(), Refusal>
        ensures refusal { result ≡ writes self bytes.old }
        ensures bytes { bytes.new ≡ written_of self bytes.old }
    {
        if bytes.len() < RECORD_BYTES {
            return Err(Refusal::NoRoom);
        }
        if !self.in_range(LAST_BUS) {
            return Err(Refusal::OutOfRange);
        }
        let form = self.form();
        bytes[..RECORD_BYTES].copy_from_slice(&form);
        Ok(())
    }
}

// Gives the length field of 16 bytes.
fn length_in(form: &[u8; RECORD_BYTES]) -> u16
    ensures number { result ≡ number_of (take 2 form.now) }
{
    u16::from_be_bytes([form[0], form[1]])
}

// Gives the record that 16 bytes spell, in range or not.
fn spelled(form: &[u8; RECORD_BYTES]) -> WordRecord
    ensures record { result ≡ record_at form.now }
{
    let [
        _,
        _,
        t7,
        t6,
        t5,
        t4,
        t3,
        t2,
        t1,
        t0,
        bus,
        sync,
        faults,
        w1,
        w0,
        parity,
    ] = *form;
    WordRecord {
        time: Moment(u64::from_be_bytes([t7, t6, t5, t4, t3, t2, t1, t0])),
        bus,
        sync,
        faults,
        word: u16::from_be_bytes([w1, w0]),
        parity,
    }
}

// Gives the record at the front of the bytes, the bus at most the last one; what stands after it is not looked at.
// Tables: bytes is only read. Refusals: 3, fewer than 16 bytes; 4, length not 14; 5, a field or the time out of range.
pub fn read_record(bytes: &[u8], last_bus: u8) -> Result<WordRecord, Refusal>
    ensures read { result ≡ read_of last_bus bytes.now }
{
    let Some(form) = bytes.first_chunk::<RECORD_BYTES>() else {
        return Err(Refusal::ShortRecord);
    };
    if length_in(form) != LENGTH {
        return Err(Refusal::RecordLength);
    }
    let record = spelled(form);
    if !record.in_range(last_bus) {
        return Err(Refusal::OutOfRange);
    }
    Ok(record)
}
