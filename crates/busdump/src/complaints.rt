// The program's name, with which all begins that it says on standard error; what is wrong with an argument or with a file; the usage. Refusals: none.
use lines::{Block, Sink, Target, begin_complaint, between};
use status::{Status, typed_number};
use words::Refusal;

pub(crate) const PROGRAM: [u8; 7] = *b"busdump";

// Writes what the program does and how it is called, where that was asked for or it was called wrongly.
pub(crate) fn show_usage(rt: HostRuntime, asked: bool) -> Status {
    status::show_usage(
        rt,
        &PROGRAM,
        b"busdump - print the log of record files: every message, and every word outside one
usage: bus dump [-b A|B] [-a ADDRESS] [-f FROM] [-t TO] [-e] [-v] [--] FILE..
  -b A|B      show that bus alone
  -a ADDRESS  show the messages with a command word to that address alone, 0 to 31
  -f FROM     show nothing that begins before that time; -t TO: nothing that begins after it (ticks)
  -e          show what is to be looked at: the messages whose verdict is not 0, and every word outside one
  -v          add the command words' fields to each message, c1=rt5,receive,sa2,count2; and to each word outside one what is bad in it, bad=parity
Each FILE is read twice at once, so it cannot be a pipe or standard input. The last line of each is '# end ..' where all went well.
Exit status through bus: 0 all is well, 1 not, 2 called wrongly. Without bus: --status-fd N, in front of all, writes that digit to descriptor N.
example: bus dump -b A -e flight07.rec
",
        asked,
    )
}

// Says what is wrong with an argument: "busdump: argument 2: -b wants A or B, not C".
pub(crate) fn refuse(rt: HostRuntime, place: usize, what: &[u8], why: &[u8], shown: &[u8]) {
    let mut block = io::large_buffer();
    let begun = Sink::to(Target::Errors).put_text(&mut block, &PROGRAM);
    let placed = begun
        .put_number(&mut block, b": argument ", typed_number(rt, place) as u64)
        .put_text(&mut block, b": ");
    let told = placed.put_name(&mut block, what);
    told.put_text(&mut block, why)
        .put_name(&mut block, shown)
        .put(&mut block, b'\n')
        .flush(&block);
}

// Ends what is said of a refusal: " (refusal N)".
fn end_refusal(said: Sink, block: &mut Block, refusal: Refusal) {
    said.put_number(block, b" (refusal ", u64::from(refusal.number()))
        .put_text(block, b")\n")
        .flush(block);
}

// Gives why a record is refused (01 Numbers for a refused call).
fn reason_of(refusal: Refusal) -> &'static [u8] {
    match refusal {
        Refusal::ShortRecord => b"fewer than 16 bytes are left for a record",
        Refusal::RecordLength => b"its length is not 14",
        Refusal::OutOfRange => b"a field or its time is out of range",
        Refusal::OutOfOrder => b"it is earlier than the record before it",
        _ => b"it is refused",
    }
}

// Says why the reading of a file stopped at a record: "busdump: NAME: record 11 at byte 177: fewer than 16 bytes are left for a record (refusal 3)".
pub(crate) fn explain_record(name: &[u8], refusal: Refusal, record: u64, byte: u64) {
    let mut block = io::large_buffer();
    begin_complaint(&PROGRAM, name);
    let said = Sink::to(Target::Errors)
        .put_number(&mut block, b": record ", record)
        .put_number(&mut block, b" at byte ", byte)
        .put_text(&mut block, b": ")
        .put_text(&mut block, reason_of(refusal));
    end_refusal(said, &mut block, refusal);
}

// Says whether bytes begin as a record does, by its length.
fn begins_record(bytes: &[u8]) -> bool {
    bytes.starts_with(&[0, 14])
}

// Says whether the first byte is a version: a record begins behind it, or nothing does.
fn is_versioned(start: &[u8]) -> bool {
    (start.len() == 1) | begins_record(between(start, 1, start.len()))
}

// Puts what a file is that begins with no version that is read: empty, a record file without its version or of another, or none at all.
fn put_beginning(sink: Sink, block: &mut Block, start: &[u8]) -> Sink {
    let Some(&first) = start.first() else {
        return sink.put_text(
            block,
            b": it is empty, and a record file has a version byte",
        );
    };
    let first = u64::from(first);
    if begins_record(start) {
        return sink.put_text(
            block,
            b": its version byte is missing, and a record begins in its place",
        );
    }
    if is_versioned(start) {
        return sink
            .put_number(block, b": its version is ", first)
            .put_text(block, b", and only version 1 is read");
    }
    sink.put_number(block, b": it is no record file: its first byte is ", first)
        .put_text(block, b", and no record begins behind it")
}

// Says why a file that begins so was refused as a whole.
pub(crate) fn explain_beginning(name: &[u8], refusal: Refusal, start: &[u8]) {
    let mut block = io::large_buffer();
    begin_complaint(&PROGRAM, name);
    let said = put_beginning(Sink::to(Target::Errors), &mut block, start);
    end_refusal(said, &mut block, refusal);
}
