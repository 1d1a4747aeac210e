// Why a line is no call, and what is said of it on standard error (docs/BENCH.md, "A line that is no call"). That goes out before the
// line's `?`, so that who waits for the `?` finds it there. Refusals: none.
use crate::outputs::Output;
use crate::parts::Parts;
use crate::usages::put_wanted;
use lines::Target;
use std::fmt::{self, Write};

#[derive(Clone, Copy)]
pub(crate) enum Reason {
    // it has no form of a call: the line itself tells whether its name or its parts are wrong
    Form,
    // "a place past the end of a table"
    Past,
    // judge or looked before any plan
    NoPlan,
    // "no room left" for a record
    NoRoom,
    // what is behind bytes is none, or has no room
    NoBytes,
}

// the longest call: bytes and 65,536 of them, each with a space before it
const CALL_BYTES: usize = 196613;

// how much is shown of a name that is none
const SHOWN_BYTES: usize = 40;

// Puts what is wrong with a line that has no form of a call.
fn put_formless(out: &mut Output, line: &[u8]) -> fmt::Result {
    let Some(name) = Parts::of(line).take() else {
        return write!(out, "it has nothing but spaces");
    };
    if put_wanted(out, name)? {
        return Ok(());
    }
    write!(out, "no call is named ")?;
    out.put_name(&name[..name.len().min(SHOWN_BYTES)]);
    write!(out, "; help prints them")
}

// Puts why a line is no call.
fn put_reason(out: &mut Output, reason: Reason, line: &[u8]) -> fmt::Result {
    if line.len() > CALL_BYTES {
        return write!(out, "it is longer than any call");
    }
    match reason {
        Reason::Form => put_formless(out, line),
        Reason::Past => write!(
            out,
            "it reaches past the end of the table, which has 1024 words"
        ),
        Reason::NoPlan => write!(out, "there is no plan yet"),
        Reason::NoRoom => write!(out, "the buffer has no room for a record"),
        Reason::NoBytes => write!(
            out,
            "its bytes are no pairs of hexadecimal digits, or the buffer has no room for them"
        ),
    }
}

// Puts the whole sentence: "cards: line 4: mark wants TIME".
fn put_sentence(out: &mut Output, reason: Reason, number: u64, line: &[u8]) -> fmt::Result {
    write!(out, "cards: line {number}: ")?;
    put_reason(out, reason, line)?;
    writeln!(out)
}

// Says why the line of a number is no call.
pub(crate) fn say(reason: Reason, number: u64, line: &[u8]) {
    let mut out = Output::to(Target::Errors);
    let _ = put_sentence(&mut out, reason, number, line);
    let _ = out.flush();
}
