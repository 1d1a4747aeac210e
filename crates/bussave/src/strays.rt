// Strays: whole records that are skipped for their time alone (02 c; docs/LINES.md, bussave). The lines list their bytes as any others; of these a person wants to
// know, since nothing is wrong with them but a silence of more than ten seconds, or a time before them that is too late. Refusals: none.
use crate::complaints::PROGRAM;
use lines::{Block, Sink, Target, begin_complaint, between};
use records::{LAST_BUS, RECORD_BYTES, read_record};
use salvage::Progress;
use std::num::{wrapping_add_u64, wrapping_add_usize, wrapping_sub_u64};
use words::Moment;

// How many there are of a kind, and the place of the first in the damaged file.
#[derive(Clone, Copy)]
pub(crate) struct Kind {
    count: u64,
    first: u64,
}

// Those that come too late and those that come too early after the last kept record, and the place up to which the latest of them reaches: the places inside it are
// not looked at.
#[derive(Clone, Copy)]
pub(crate) struct Strays {
    late: Option<Kind>,
    early: Option<Kind>,
    reach: u64,
}

// Gives the kind with one more, at a place.
fn one_more(kind: Option<Kind>, place: u64) -> Option<Kind> {
    let Some(kind) = kind else {
        return Some(Kind {
            count: 1,
            first: place,
        });
    };
    let count = wrapping_add_u64(kind.count, 1);
    Some(Kind { count, ..kind })
}

impl Kind {
    // Says how many there are and why they were skipped.
    fn tell(self, name: &[u8], why: &[u8]) {
        let mut block = io::large_buffer();
        begin_complaint(&PROGRAM, name);
        let counted = put_counted(Sink::to(Target::Errors), &mut block, self.count);
        counted
            .put_number(&mut block, b" skipped from byte ", self.first)
            .put_text(&mut block, b" on: ")
            .put_text(&mut block, why)
            .put_text(&mut block, b"; see LINES\n")
            .flush(&block);
    }
}

// Puts ": 1 whole record", ": 1,000 whole records".
fn put_counted(sink: Sink, block: &mut Block, count: u64) -> Sink {
    if count == 1 {
        return sink.put_text(block, b": 1 whole record");
    }
    let begun = sink.put_text(block, b": ");
    put_grouped(begun, block, count).put_text(block, b" whole records")
}

// Gives a digit of a number: nothing in the library writes numbers in groups.
fn digit(number: u64) -> u8 {
    b'0' + (number % 10) as u8
}

// Puts the last three digits of a number, a comma before them.
fn put_three(sink: Sink, block: &mut Block, number: u64) -> Sink {
    sink.put(block, b',')
        .put(block, digit(number / 100))
        .put(block, digit(number / 10))
        .put(block, digit(number))
}

// Puts a number below a million with a comma before its last three digits.
fn put_thousands(sink: Sink, block: &mut Block, number: u64) -> Sink {
    if number < 1000 {
        return sink.put_decimal(block, number);
    }
    let begun = sink.put_decimal(block, number / 1000);
    put_three(begun, block, number)
}

// Puts a number with commas, as far as a file can have records: a terabyte of them are below 10^12.
fn put_grouped(sink: Sink, block: &mut Block, number: u64) -> Sink {
    let millions = number / 1000000;
    if millions == 0 {
        return put_thousands(sink, block, number);
    }
    let begun = put_thousands(sink, block, millions);
    let middle = put_three(begun, block, number / 1000);
    put_three(middle, block, number)
}

impl Strays {
    // Gives none of either kind.
    pub(crate) fn none() -> Strays {
        Strays {
            late: None,
            early: None,
            reach: 0,
        }
    }

    // Gives the strays with the one that stands at a place, where the bytes there read as a record. They were skipped, so it is its time that was not allowed.
    fn with(self, bytes: &[u8], place: u64, last: Moment) -> Strays {
        if place < self.reach {
            return self;
        }
        let Ok(heard) = read_record(bytes, LAST_BUS) else {
            return self;
        };
        let mut next = self;
        next.reach = wrapping_add_u64(place, RECORD_BYTES as u64);
        if heard.time < last {
            next.early = one_more(self.early, place);
        } else {
            next.late = one_more(self.late, place);
        }
        next
    }

    // Gives the strays with those among the bytes of the room from a place up to another, all of which were skipped. The room's own first byte has the place `base` in
    // the damaged file.
    fn with_all(self, room: &[u8], from: usize, to: usize, base: u64, last: Moment) -> Strays {
        let mut next = self;
        for at in from..to {
            let bytes = between(room, at, room.len());
            next = next.with(bytes, wrapping_add_u64(base, at as u64), last);
        }
        next
    }

    // Gives the strays with those that a question to the machine skipped, behind what it kept. Before the first kept record no time is refused.
    pub(crate) fn after(self, room: &[u8], progress: Progress) -> Strays {
        if progress.strays == 0 {
            return self;
        }
        let settled = progress.salvage.settled;
        let Some(time) = settled.last else {
            return self;
        };
        let to = progress.salvage.window.from;
        let from = wrapping_add_usize(progress.from, progress.kept);
        let end = wrapping_add_u64(settled.run.place, settled.run.length);
        self.with_all(room, from, to, wrapping_sub_u64(end, to as u64), time)
    }

    // Says of both kinds how many were skipped.
    pub(crate) fn tell(self, name: &[u8]) {
        if let Some(late) = self.late {
            late.tell(name, b"more than 10 s after the one before");
        }
        if let Some(early) = self.early {
            early.tell(name, b"earlier than the one before");
        }
    }
}
