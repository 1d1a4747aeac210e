// The machine: fed any chunk, asked for what is settled, ended (02 c). Meaning: specs/Machine.antt. Refusals: none.
ghost use Rattle.std.specs.Prelude.{◌≡◌};
ghost use Rattle.windows.specs.Windows.{filled_room};
ghost use Rattle.salvage.specs.Pieces.{after_first, first_in, version_of, run_in};
ghost use Rattle.salvage.specs.Machine.{settled_kept, settled_skipped, run_ended, size_of, gathered_of, begun_of};
ghost use Rattle.salvage.specs.Machine.{start_of, fed_of, room_of, asked_of, is_settled_of, is_changed, totals_of, ended_of};

use crate::stretches::{Stretch, keep_stretch, skip_stretch};
use records::{RECORD_BYTES, VERSION};
use std::num::wrapping_add_u64;
use windows::Window;
use words::Moment;

// The first byte of the file: none has come, it is 1, or it is another.
#[derive(Clone, Copy, Debug, PartialEq, Eq)]
pub enum First {
    Missing,
    Kept,
    Changed,
}

impl First {
    // Says what the first byte is of a file that begins with these bytes.
    // Tables: bytes is only read. Refusals: none.
    pub fn of(bytes: &[u8]) -> First
        ensures first { result ≡ first_in bytes.now }
    {
        if bytes.len() == 0 {
            return First::Missing;
        }
        if bytes[0] == VERSION {
            return First::Kept;
        }
        First::Changed
    }

    // Gives the version byte of the clean file, which goes before the bytes to keep.
    // Tables: none. Refusals: none.
    #[tactic(auto, unfolding(crate::specs::Pieces::version_of))]
    pub fn version(self) -> u8
        ensures version { result ≡ version_of self }
    {
        VERSION
    }

    // Says whether the first byte is listed as changed.
    // Tables: none. Refusals: none.
    #[tactic(auto, unfolding(crate::specs::Machine::is_changed))]
    pub fn is_changed(self) -> bool
        ensures answer { result ≡ is_changed self }
    {
        !matches!(self, First::Kept)
    }
}

// Skipped bytes that stand together: the place of the first, counted from 0 in the damaged file, and how many they are.
#[derive(Clone, Copy)]
pub struct Run {
    pub place: u64,
    pub length: u64,
}

// What is settled so far: the time of the record that was kept last, of either bus; the run that reaches up to here; and how many records were kept and bytes
// skipped. Where a record was kept right before, the run has length 0, and is no Option: its place says up to where all is settled.
#[derive(Clone, Copy)]
pub struct Settled {
    pub last: Option<Moment>,
    pub run: Run,
    pub records: u64,
    pub skipped: u64,
}

// The machine. The bytes that wait stand in a window of the caller's room: it is lent the same room each time, of 16 bytes or more, and
// nobody else writes there.
#[derive(Clone, Copy)]
pub struct Salvage {
    pub first: First,
    pub settled: Settled,
    pub window: Window,
}

// The machine after a chunk, and how many bytes of the chunk it took.
#[derive(Clone, Copy)]
pub struct Fed {
    pub salvage: Salvage,
    pub taken: usize,
}

// The machine after a question; the run that has ended, if one has; where in the room the bytes to keep stand, and how
// many: they come behind the run; and at how many places of the bytes skipped behind those a record stands that is refused for its time
// alone. They all stand there until the next feed.
#[derive(Clone, Copy)]
pub struct Progress {
    pub salvage: Salvage,
    pub run: Option<Run>,
    pub from: usize,
    pub kept: usize,
    pub strays: usize,
}

// What the bytes that were taken came to as a file: its first byte, the run at its end, if it ends in one, records kept, bytes skipped, its size.
#[derive(Clone, Copy)]
pub struct Totals {
    pub first: First,
    pub run: Option<Run>,
    pub records: u64,
    pub skipped: u64,
    pub bytes: u64,
}

impl Run {
    // Gives the run, where it has a byte.
    #[tactic(auto, unfolding(crate::specs::Pieces::run_in))]
    fn some(self) -> Option<Run>
        ensures run { result ≡ run_in self }
    {
        if self.length == 0 {
            return None;
        }
        Some(self)
    }
}

impl Settled {
    // Gives what is settled with a stretch of records more.
    #[tactic(auto, unfolding(crate::specs::Machine::settled_kept))]
    fn keep(self, stretch: Stretch) -> Settled
        ensures settled { result ≡ settled_kept self stretch }
    {
        if stretch.bytes == 0 {
            return self;
        }
        let records = stretch.bytes / RECORD_BYTES;
        let end = wrapping_add_u64(self.run.place, self.run.length);
        let place = wrapping_add_u64(end, stretch.bytes as u64);
        Settled {
            last: stretch.last,
            run: Run { place, length: 0 },
            records: wrapping_add_u64(self.records, records as u64),
            skipped: self.skipped,
        }
    }

    // Gives what is settled with so many skipped bytes more.
    fn skip(self, bytes: u64) -> Settled
        ensures settled { result ≡ settled_skipped self bytes }
    {
        Settled {
            last: self.last,
            run: Run {
                place: self.run.place,
                length: wrapping_add_u64(self.run.length, bytes),
            },
            records: self.records,
            skipped: wrapping_add_u64(self.skipped, bytes),
        }
    }

    // Gives the run that a stretch of records ends.
    #[tactic(auto, unfolding(crate::specs::Machine::run_ended))]
    fn ended(self, stretch: Stretch) -> Option<Run>
        ensures run { result ≡ run_ended self stretch }
    {
        if stretch.bytes == 0 {
            return None;
        }
        self.run.some()
    }
}

// Gives the size of the file at whose end the run stands.
#[tactic(auto, unfolding(crate::specs::Machine::size_of))]
fn file_size(first: First, run: Run) -> u64
    ensures bytes { result ≡ size_of first run }
{
    let size = wrapping_add_u64(run.place, run.length);
    match first {
        First::Missing => 0,
        First::Kept | First::Changed => size,
    }
}

impl Salvage {
    // Gives the machine before any byte.
    // Tables: none. Refusals: none.
    pub fn start() -> Salvage
        ensures salvage { result ≡ start_of }
    {
        Salvage {
            first: First::Missing,
            settled: Settled {
                last: None,
                run: Run {
                    place: 1,
                    length: 0,
                },
                records: 0,
                skipped: 0,
            },
            window: Window::empty(),
        }
    }

    // Puts bytes behind those that wait, as far as the room holds them.
    fn gather(self, first: First, room: &mut [u8], chunk: &[u8]) -> Fed
        ensures fed { result ≡ gathered_of self first room.old chunk.now }
        ensures room { room.new ≡ filled_room self.window room.old chunk.now }
    {
        let filled = self.window.fill(room, chunk);
        Fed {
            salvage: Salvage {
                first,
                settled: self.settled,
                window: filled.window,
            },
            taken: filled.taken,
        }
    }

    // Looks at the file's first byte, where there is one, and puts those behind it into the room.
    fn begin(self, room: &mut [u8], chunk: &[u8]) -> Fed
        ensures fed { result ≡ begun_of self room.old chunk.now }
        ensures room { room.new ≡ filled_room self.window room.old (after_first chunk.now) }
    {
        if chunk.len() == 0 {
            return self.gather(First::Missing, room, chunk);
        }
        let fed = self.gather(First::of(chunk), room, &chunk[1..]);
        Fed {
            salvage: fed.salvage,
            taken: fed.taken + 1,
        }
    }

    // Feeds the next bytes of the file, and gives how many of them were taken: all that the room holds. The others are fed again once
    // `ask` has settled what waits.
    // Tables: room holds the bytes that wait, old and new, at its front, and is else as before; chunk is only read. Refusals: none.
    pub fn feed(self, room: &mut [u8], chunk: &[u8]) -> Fed
        ensures fed { result ≡ fed_of self room.old chunk.now }
        ensures room { room.new ≡ room_of self room.old chunk.now }
    {
        // each state has an arm, as it has a line in the definition
        match self.first {
            First::Missing => self.begin(room, chunk),
            First::Kept => self.gather(First::Kept, room, chunk),
            First::Changed => self.gather(First::Changed, room, chunk),
        }
    }

    // Settles the next bytes that wait: a stretch of records to keep, then bytes to skip. It is asked until `is_settled`. The version byte is
    // no part of what it gives.
    // Tables: room is only read. Refusals: none.
    pub fn ask(self, room: &[u8]) -> Progress
        ensures progress { result ≡ asked_of self room.now }
    {
        let window = self.window;
        let waiting = window.bytes(room);
        let before = self.settled;
        let stretch = keep_stretch(before.last, waiting);
        let behind = stretch.bytes;
        let skipped = skip_stretch(stretch.last, &waiting[behind..]);
        let after = window.after(behind + skipped.bytes);
        let settled = before.keep(stretch).skip(skipped.bytes as u64);
        Progress {
            salvage: Salvage {
                first: self.first,
                settled,
                window: after,
            },
            run: before.ended(stretch),
            from: window.from,
            kept: behind,
            strays: skipped.strays,
        }
    }

    // Says whether everything that can be settled is: fewer than 16 bytes wait.
    // Tables: none. Refusals: none.
    #[tactic(auto, unfolding(crate::specs::Machine::is_settled_of))]
    pub fn is_settled(self) -> bool
        ensures answer { result ≡ is_settled_of self }
    {
        self.window.count() < RECORD_BYTES
    }

    // Gives what the file came to, where the bytes that wait are skipped.
    #[tactic(auto, unfolding(crate::specs::Machine::totals_of))]
    fn total(self) -> Totals
        ensures totals { result ≡ totals_of self }
    {
        let after = self.settled.skip(self.window.count() as u64);
        Totals {
            first: self.first,
            run: after.run.some(),
            records: after.records,
            skipped: after.skipped,
            bytes: file_size(self.first, after.run),
        }
    }

    // Gives what the file came to, where it has no more bytes: those that wait are skipped. While 16 or more wait, it is too early. Whether more of the file would
    // come the caller alone knows.
    // Tables: none. Refusals: none.
    #[tactic(auto, unfolding(crate::specs::Machine::ended_of))]
    pub fn end(self) -> Option<Totals>
        ensures ended { result ≡ ended_of self }
    {
        if self.is_settled() {
            return Some(self.total());
        }
        None
    }
}
