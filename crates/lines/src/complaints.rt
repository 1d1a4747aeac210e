// What goes to standard error, and the line that closes what failed (02 a, c, j). What the system takes of it no contract can say: a function that gives nothing promises
// that what it is lent is as before, to which its type holds it too, and what waits for standard error is that of `put_sentence`. Meaning of the rest: specs/Sinks.antt,
// specs/Names.antt. Refusals: none.
ghost use Rattle.std.specs.Prelude.{◌≡◌, ◌≤◌, length};
ghost use Rattle.lines.specs.Sinks.{Goes};
ghost use Rattle.lines.specs.Names.{error_text, block_after_named, place_after_sentence, block_after_sentence};

use crate::sinks::{Block, ERRORS, Sink, Target};
use std::fs::File;
use std::io::{Cursor, Error, Write};
use std::os::fd::{AsRawFd, IntoRawFd};

// The program is a constant of each tool and the name another at each call, so they are handed on as two.
// Begins a sentence on standard error: "PROGRAM: NAME", with no line end.
// Tables: program and name are only read. Refusals: none.
pub fn begin_complaint(program: &[u8], name: &[u8])
    ensures program { program.exit.now ≡ program.entry.now }
    ensures name { name.exit.now ≡ name.entry.now }
{
    let mut block = io::large_buffer();
    Sink::to(Target::Errors)
        .put_sentence(&mut block, program, name)
        .flush(&block);
}

// Gives how many bytes of a text stand before " (os error": the words of a failure without its number.
fn words_end(text: &[u8]) -> usize
    ensures within { result ≤ length text.now }
{
    match text.iter().position(|byte| *byte == b'(') {
        Some(place) => place.saturating_sub(1),
        None => text.len(),
    }
}

// Says what failed, with the system's reason, by its number: "PROGRAM: NAME: REASON".
// Tables: program and name are only read. Refusals: none.
pub fn complain(program: &[u8], name: &[u8], why: i32)
    ensures program { program.exit.now ≡ program.entry.now }
    ensures name { name.exit.now ≡ name.entry.now }
{
    let mut reason = Cursor::new([0u8; 128]);
    let _ = write!(reason, ": {}", Error::from_raw_os_error(why));
    let text = reason.into_inner();
    remark(program, name, &text[..words_end(&text)]);
}

// Says something of a file, as ": not whole": "PROGRAM: NAME: not whole".
// Tables: program, name and what are only read. Refusals: none.
pub fn remark(program: &[u8], name: &[u8], what: &[u8])
    ensures program { program.exit.now ≡ program.entry.now }
    ensures name { name.exit.now ≡ name.entry.now }
    ensures what { what.exit.now ≡ what.entry.now }
{
    begin_complaint(program, name);
    io::write_all(ERRORS, what);
    io::write_all(ERRORS, b"\n");
}

// Keeps standard error's number from the next file that is made: where standard error is closed, that file would get it, and with it what is said of a failure. To
// be called once the other two numbers are in use.
// Tables: none. Refusals: none.
pub fn hold_errors(rt: HostRuntime) {
    if let Ok(held) = File::open(&rt, "/dev/null") {
        if held.as_raw_fd() <= ERRORS {
            let _kept = held.into_raw_fd();
        }
    }
}

impl Sink {
    // Gives the sink with the beginning of a sentence more: "PROGRAM: NAME".
    fn put_sentence(self, block: &mut Block, program: &[u8], name: &[u8]) -> Sink
        ensures place { result.at ≡ place_after_sentence self.at program.now name.now }
        ensures block { block.new ≡ block_after_sentence block.old self.at program.now name.now }
        ensures goes { Goes self result }
    {
        self.put_text(block, program)
            .put_text(block, b": ")
            .put_name(block, name)
    }

    // Gives the sink with all that waited written, and says a failure of this flush, as one of standard output. Who puts lines must have flushed, or looked at
    // `failure`, before: a failure of a put is not said here.
    // Tables: block and program are only read. Refusals: none; `failure` says whether a write has failed.
    pub fn flush_told(self, block: &Block, program: &[u8]) -> Sink
        ensures place { result.at ≡ 0 }
        ensures goes { Goes self result }
    {
        let after = self.flush(block);
        if let (None, Some(why)) = (self.failure, after.failure) {
            complain(program, b"standard output", why);
        }
        after
    }

    // Ends the lines by the name of the file that failed: "# error NAME". Those that wait go out first, so that a failure of theirs is seen.
    // Tables: block holds that line where it waits, from the front on; program and name are only read. Refusals: none; `failure` says whether a write has failed.
    pub fn end_in_error(self, block: &mut Block, program: &[u8], name: &[u8]) -> Sink
        ensures place { result.at ≡ 0 }
        ensures block { block.new ≡ block_after_named block.old 0 error_text name.now }
        ensures goes { Goes self result }
    {
        let flushed = self.flush_told(block, program);
        let ended = flushed.put_named(block, b"# error ", name);
        ended.flush_told(block, program)
    }

    // Says what failed, by the system's number for it, and ends the lines by its name.
    // Tables: block holds that line where it waits, from the front on; program and name are only read. Refusals: none; `failure` says whether a write has failed.
    pub fn fail(self, block: &mut Block, program: &[u8], name: &[u8], why: i32) -> Sink
        ensures place { result.at ≡ 0 }
        ensures block { block.new ≡ block_after_named block.old 0 error_text name.now }
        ensures goes { Goes self result }
    {
        complain(program, name, why);
        self.end_in_error(block, program, name)
    }
}
