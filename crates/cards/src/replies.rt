// What a call has written: its line.
use crate::benches::Bench;
use crate::outputs::Output;
use std::fmt::{self, Write};
use std::ops::Range;
use terminal::{Answer, SpacingFault, Terminal};
use verdict::Verdict;
use words::Moment;

// What is to be written of a call that was made.
pub(crate) enum Reply {
    Done,
    // an event, with the answer that it carries, and whether it cut off a sending
    Happened { answer: Option<Answer>, cut: bool },
    // places of the receive table
    Words(Range<usize>),
    State,
    // the kind of the terminal's last spacing fault
    Spacing,
    Verdict(Verdict),
    // how many records a verdict looked at
    Looked(u8),
    Records(u64),
}

impl Reply {
    // A call at the terminal has the line of an event that carries nothing.
    pub(crate) const AT_TERMINAL: Reply = Reply::Happened {
        answer: None,
        cut: false,
    };
}

// Puts the next moment, or that there is none.
fn put_next(out: &mut Output, next: Option<Moment>) -> fmt::Result {
    match next {
        Some(moment) => write!(out, " next {}", moment.0),
        None => {
            out.put_text(" next none");
            Ok(())
        }
    }
}

// Puts the line of a state.
fn put_state(out: &mut Output, terminal: Terminal) -> fmt::Result {
    write!(out, "status ")?;
    out.put_word(terminal.status().0);
    write!(out, " last ")?;
    out.put_word(terminal.last_command().0);
    write!(out, " sync ")?;
    out.put_word(terminal.sync_word());
    write!(
        out,
        " selftest {} shut {} {} inhibit {} time {}",
        u8::from(terminal.wants_selftest()),
        u8::from(terminal.is_shut_down(0)),
        u8::from(terminal.is_shut_down(1)),
        u8::from(terminal.is_inhibited()),
        terminal.time.0,
    )?;
    put_next(out, terminal.next_moment())
}

// Puts the line of a last spacing fault.
fn put_spacing(out: &mut Output, fault: Option<SpacingFault>) {
    match fault {
        None => out.put_text("spacing none"),
        Some(SpacingFault::Overlapping) => out.put_text("spacing overlapping"),
        Some(SpacingFault::Separated) => out.put_text("spacing separated"),
    }
}

// Puts the answer that an event carries, with its words: "` answer BUS DUE STATUS N W..W` where an answer is carried".
fn put_answer(out: &mut Output, answer: Answer) -> fmt::Result {
    write!(out, " answer {} {} ", answer.bus, answer.due.0)?;
    out.put_word(answer.status.0);
    write!(out, " {}", answer.count)?;
    let count = usize::from(answer.count).min(answer.words.len());
    out.put_spaced(&answer.words[..count]);
    Ok(())
}

// Puts the line of an event: "`ok`, then ..".
fn put_happened(out: &mut Output, answer: Option<Answer>, cut: bool) -> fmt::Result {
    out.put_text("ok");
    if let Some(answer) = answer {
        put_answer(out, answer)?;
    }
    if cut {
        out.put_text(" cut");
    }
    Ok(())
}

// Puts words, a space before each but the first.
fn put_words(out: &mut Output, words: &[u16]) {
    if let [first, rest @ ..] = words {
        out.put_word(*first);
        out.put_spaced(rest);
    }
}

impl Bench {
    // Puts what a call has written on this bench.
    pub(crate) fn put_reply(&self, out: &mut Output, reply: Reply) -> fmt::Result {
        match reply {
            Reply::Done => write!(out, "ok"),
            Reply::Happened { answer, cut } => put_happened(out, answer, cut),
            Reply::Words(places) => {
                put_words(out, self.receive.words.get(places).unwrap_or(&[]));
                Ok(())
            }
            Reply::State => put_state(out, self.terminal),
            Reply::Spacing => {
                put_spacing(out, self.terminal.last_spacing_fault());
                Ok(())
            }
            Reply::Verdict(verdict) => write!(out, "verdict {}", verdict.number()),
            Reply::Looked(count) => write!(out, "looked {count}"),
            Reply::Records(count) => write!(out, "records {count}"),
        }
    }
}
