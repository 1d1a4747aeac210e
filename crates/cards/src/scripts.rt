// A script: its blocks told into lines, and the line of each call written.
use crate::benches::{Bench, Problem};
use crate::calls::call_of;
use crate::complaints::PROGRAM;
use crate::gatherings::Line;
use crate::outputs::Output;
use crate::reasons::{Reason, say};
use crate::replies::Reply;
use lines::{Target, complain};
use status::Status;
use std::fmt::{self, Write};

// A read or a write has failed, and that has been said. Nothing more is read.
pub(crate) struct Failed;

// What a block leaves to the next: the line that it may cut, where the output goes, and whether a line was no call.
#[derive(Drop)]
pub(crate) struct Script {
    line: Line,
    out: Output,
    missed: bool,
}

// Makes the call that a line is.
fn answer_to(text: &[u8], bench: &mut Bench) -> Result<Reply, Problem> {
    let call = call_of(text).ok_or(Reason::Form)?;
    bench.make(call)
}

impl Script {
    pub(crate) fn start(rt: HostRuntime) -> Script {
        Script {
            line: Line::first(),
            out: Output::to(Target::Output(rt.stdout())),
            missed: false,
        }
    }

    // "A line that is no call .. writes `?` and changes nothing"; why it is none is said first.
    fn miss(&mut self, reason: Reason) -> fmt::Result {
        say(reason, self.line.number, self.line.text());
        self.missed = true;
        write!(self.out, "?")
    }

    // Puts the line of a call.
    fn put(&mut self, answer: Result<Reply, Problem>, bench: &Bench) -> fmt::Result {
        match answer {
            Ok(reply) => bench.put_reply(&mut self.out, reply)?,
            Err(Problem::Refused(refusal)) => write!(self.out, "refused {}", refusal.number())?,
            Err(Problem::NoCall(reason)) => self.miss(reason)?,
        }
        writeln!(self.out)
    }

    // Makes the call of the line that was gathered, and puts its line.
    fn run_line(&mut self, bench: &mut Bench) {
        if self.line.is_silent() {
            return;
        }
        let answer = answer_to(self.line.text(), bench);
        let _ = self.put(answer, bench);
    }

    // Writes the lines that wait. Where that fails, or a put before it did, of which `flush_told` says nothing, it is said; nothing is read after
    // it, so once.
    fn flush(&mut self) -> Result<(), Failed> {
        match self.out.flush() {
            Ok(()) => Ok(()),
            Err(why) => {
                complain(&PROGRAM, b"standard output", why);
                Err(Failed)
            }
        }
    }

    // Takes the bytes of a block, and runs each line that ends in it. What these write goes out with the block, for who waits for it.
    pub(crate) fn run_block(&mut self, block: &[u8], bench: &mut Bench) -> Result<(), Failed> {
        for byte in block {
            if *byte == b'\n' {
                self.run_line(bench);
                self.line.start_next();
            } else {
                self.line.take(*byte);
            }
        }
        self.flush()
    }

    // Runs the last line, which may have no end, and gives how the script ended.
    pub(crate) fn end(&mut self, bench: &mut Bench) -> Result<Status, Failed> {
        self.run_line(bench);
        self.flush()?;
        Ok(Status::of(!self.missed))
    }
}
