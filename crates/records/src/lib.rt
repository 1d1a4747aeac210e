// Word records: one record and a file of records, read and written (01 Word records on file). Meaning: specs/. Refusals: 3, 4, 5 of one
// record read, 8 and these of a file, 9 and 5 of one written. It knows no state; above it a record is a struct.
#![tactic(auto)]

mod files;
mod forms;

pub use files::{Cursor, VERSION, count_records, open_file};
pub use forms::{BUS_A, BUS_B, LAST_BUS, RECORD_BYTES, WordRecord, read_record};
