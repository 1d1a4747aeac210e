// The calls as `help` prints them, which is also where a line's parts are looked up that are not those of its call (docs/BENCH.md).
// Refusals: none.
use crate::outputs::Output;
use lines::Target;
use std::fmt::{self, Write};

// How a call is written, and what it does.
struct Usage {
    call: &'static str,
    what: &'static str,
}

// A call with two forms has two, one behind the other.
const USAGES: [Usage; 28] = [
    Usage {
        call: "mask r S MASK",
        what: "the receive mask of subaddress S (0 to 31), for later set-ups",
    },
    Usage {
        call: "mask t S MASK",
        what: "the transmit mask of subaddress S, for later set-ups",
    },
    Usage {
        call: "setup A",
        what: "sets the terminal up, fresh, with address A and those masks",
    },
    Usage {
        call: "setup A R T",
        what: "the same, lending R receive and T transmit masks (0 to 64)",
    },
    Usage {
        call: "tables R T",
        what: "later events lend R and T words of the tables (0 to 2048)",
    },
    Usage {
        call: "word TIME BUS SYNC FAULTS WORD PARITY",
        what: "a record as an event",
    },
    Usage {
        call: "mark TIME",
        what: "a time mark as an event",
    },
    Usage {
        call: "service B",
        what: "the host sets the service request (B is 0 or 1)",
    },
    Usage {
        call: "busy B",
        what: "the host sets busy",
    },
    Usage {
        call: "subsystem B",
        what: "the host sets the subsystem flag",
    },
    Usage {
        call: "fault B",
        what: "the host sets the terminal fault",
    },
    Usage {
        call: "vector WORD",
        what: "the host sets the vector word",
    },
    Usage {
        call: "bit WORD",
        what: "the host sets the BIT word",
    },
    Usage {
        call: "selftest",
        what: "the host clears the self-test request",
    },
    Usage {
        call: "restart",
        what: "the host restarts the terminal",
    },
    Usage {
        call: "send I WORD",
        what: "puts a word at place I (0 to 1023) of the transmit table",
    },
    Usage {
        call: "received I",
        what: "writes the word at place I of the receive table",
    },
    Usage {
        call: "received I N",
        what: "writes N words of the receive table from place I on",
    },
    Usage {
        call: "state",
        what: "writes the terminal's state and its next moment",
    },
    Usage {
        call: "spacing",
        what: "writes the kind of the terminal's last spacing fault",
    },
    Usage {
        call: "plan N C1 C2 BUS E Q",
        what: "N commands, the last word sent at E, listened up to Q",
    },
    Usage {
        call: "back TIME BUS SYNC FAULTS WORD PARITY",
        what: "puts a record at the end of the byte buffer",
    },
    Usage {
        call: "bytes HEX..",
        what: "puts bytes at the end of the byte buffer",
    },
    Usage {
        call: "bytes none",
        what: "empties the byte buffer, as plan does",
    },
    Usage {
        call: "judge",
        what: "writes the verdict on the plan, the buffer being what came back",
    },
    Usage {
        call: "looked",
        what: "writes how many records of it the verdict looked at",
    },
    Usage {
        call: "file",
        what: "reads the buffer as a record file, and writes how many it has",
    },
    Usage {
        call: "help",
        what: "prints this to standard error",
    },
];

// how wide the calls stand
const COLUMN: usize = 40;

impl Usage {
    // Gives the name of the call, and the parts that it wants behind it.
    fn name_and_parts(&self) -> (&'static str, &'static str) {
        self.call.split_once(' ').unwrap_or((self.call, ""))
    }
}

// Puts what a form of a call wants behind the name, which stands before the first one's.
fn put_form(out: &mut Output, name: &str, parts: &str, again: bool) -> fmt::Result {
    if again {
        write!(out, ", or")?;
    } else {
        write!(out, "{name} wants")?;
    }
    if parts.is_empty() {
        return write!(out, " nothing behind it");
    }
    write!(out, " {parts}")
}

// Puts what the call of a name wants, "setup wants A, or A R T", or nothing where no call has that name; and says whether one has.
pub(crate) fn put_wanted(out: &mut Output, wanted: &[u8]) -> Result<bool, fmt::Error> {
    let mut known = false;
    for usage in &USAGES {
        let (name, parts) = usage.name_and_parts();
        if name.as_bytes() == wanted {
            put_form(out, name, parts, known)?;
            known = true;
        }
    }
    Ok(known)
}

// Puts the calls, a line for each, in two columns. They are put as they are: formatted, `help` takes half again as long.
fn put_calls(out: &mut Output) {
    out.put_text(
        "The calls, one a line. Numbers are decimal, but a word (WORD, C1, C2) is four hexadecimal digits, a MASK eight, a byte two.\n",
    );
    for usage in &USAGES {
        out.put_text("  ");
        out.put_text(usage.call);
        out.put_spaces(COLUMN.saturating_sub(usage.call.len()));
        out.put_text(usage.what);
        out.put(b'\n');
    }
}

// Writes the calls to standard error: `help`.
pub(crate) fn write_calls() {
    let mut out = Output::to(Target::Errors);
    put_calls(&mut out);
    let _ = out.flush();
}
