// The saving of a file: chunks of it go through the machine of `salvage`, its runs to the lines and its records to the clean file
// (02 c). Refusals: none.
ghost use Rattle.std.specs.Prelude.{◌≡◌, ◌≤◌, true, false, length};
ghost use Rattle.salvage.specs.Machine.{asked_of, is_settled_of};

use crate::strays::Strays;
use lines::{Block, LINE_MOST, Sink, Source, between};
use salvage::{Run, Salvage};
use std::num::{wrapping_add_u64, wrapping_add_usize};
use texts::put_run;

// A chunk, and before it the bytes of a record that wait.
pub(crate) const ROOM_BYTES: usize = 65552;

pub(crate) type Room = [u8; ROOM_BYTES];

// What goes from chunk to chunk: what the last read answered, so many bytes or the system's number for why none, the machine, where lines and records go, how many bytes were read, and the records that were
// skipped for their time.
#[derive(Clone, Copy)]
pub(crate) struct Saving {
    pub(crate) got: Result<usize, i32>,
    pub(crate) salvage: Salvage,
    pub(crate) listed: Sink,
    pub(crate) clean: Sink,
    pub(crate) read: u64,
    pub(crate) strays: Strays,
}

// Puts the line of a run that has ended, where one has. Room for it is asked all the same.
pub(crate) fn put_ended(sink: Sink, block: &mut Block, run: Option<Run>) -> Sink {
    match run {
        Some(run) => put_run(sink, block, run),
        None => sink.with_room(block, LINE_MOST),
    }
}

// Puts bytes, unless something has failed before.
fn put_unless(failed: bool, sink: Sink, block: &mut Block, bytes: &[u8]) -> Sink {
    if failed {
        return sink;
    }
    sink.put_text(block, bytes)
}

impl Saving {
    // Says whether a write has failed. Nothing is written after it.
    fn has_failed(self) -> bool {
        self.listed.failure.is_some() | self.clean.failure.is_some()
    }

    // Says whether there are bytes to settle.
    fn is_unsettled(self) -> bool
        ensures unsettled { result ≡ true → is_settled_of self.salvage ≡ false }
    {
        !self.salvage.is_settled() & !self.has_failed()
    }

    // Says whether there is a chunk to take.
    fn is_reading(self) -> bool {
        self.got.is_ok_and(|count| count > 0) & !self.has_failed()
    }

    // The same saving with the machine fed.
    fn with(self, salvage: Salvage) -> Saving
        ensures salvage { result.salvage ≡ salvage }
    {
        let mut next = self;
        next.salvage = salvage;
        next
    }

    // Asks the machine once: lists the run that has ended, and writes the records behind it.
    fn ask(self, room: &[u8], listing: &mut Block, saved: &mut Block) -> Saving
        ensures salvage { result.salvage ≡ (asked_of self.salvage room.now).salvage }
    {
        let progress = self.salvage.ask(room);
        let bytes = between(
            room,
            progress.from,
            wrapping_add_usize(progress.from, progress.kept),
        );
        let listed = put_ended(self.listed, listing, progress.run);
        let mut next = self;
        next.salvage = progress.salvage;
        next.listed = listed;
        next.clean = put_unless(listed.failure.is_some(), self.clean, saved, bytes);
        next.strays = self.strays.after(room, progress);
        next
    }

    // Asks until all is settled. It ends since each question settles a byte or more (`goes_on`).
    fn settle(self, room: &[u8], listing: &mut Block, saved: &mut Block) -> Saving
        requires { self.salvage.window.to ≤ length room.now }
    {
        let mut next = self;
        while next.is_unsettled() {
            next = next.ask(room, listing, saved);
        }
        next
    }

    // Takes the bytes of a chunk. A room that is full would take none; as it is settled before, it has place for a chunk.
    fn take(self, bytes: &[u8], room: &mut Room, listing: &mut Block, saved: &mut Block) -> Saving {
        let mut next = self;
        let mut rest = bytes;
        while !rest.is_empty() {
            let fed = next.salvage.feed(room, rest);
            if fed.taken == 0 {
                return next;
            }
            rest = &rest[fed.taken..];
            next = next.with(fed.salvage).settle(room, listing, saved);
        }
        next
    }

    // Takes the chunk that was read, and reads the next.
    fn turn(
        self,
        input: Source<'_>,
        chunk: &mut Block,
        room: &mut Room,
        listing: &mut Block,
        saved: &mut Block,
    ) -> Saving {
        let count = self.got.unwrap_or(0);
        let mut next = self.take(between(chunk, 0, count), room, listing, saved);
        next.read = wrapping_add_u64(self.read, count as u64);
        if next.has_failed() {
            return next;
        }
        next.got = input.read(chunk);
        next
    }

    // Takes the file to its end, or up to what fails. A proved loop has to end, and nothing says that the file does: it counts down from
    // a number that no run uses up.
    pub(crate) fn take_all(
        self,
        input: Source<'_>,
        chunk: &mut Block,
        room: &mut Room,
        listing: &mut Block,
        saved: &mut Block,
    ) -> Saving {
        let mut next = self;
        for _ in 0..u64::MAX {
            if !next.is_reading() {
                return next;
            }
            next = next.turn(input, chunk, room, listing, saved);
        }
        next
    }
}
