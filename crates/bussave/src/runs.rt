// One run of the program: files opened, saved and closed (02 c). The clean file is made once the damaged one was read from, so that one
// that cannot be read leaves none; it is never a file that exists. Refusals: none.
use crate::complaints::PROGRAM;
use crate::savings::{ROOM_BYTES, Saving, put_ended};
use crate::strays::Strays;
use lines::{
    Block, Sink, Source, Target, between, complain, failure_of, hold_errors, is_dash, make_named,
    number_of, open_named, remark,
};
use records::RECORD_BYTES;
use salvage::{First, Salvage, Totals};
use status::Status;
use std::fs::File;
use std::io::Seek;
use std::os::fd::AsRawFd;
use texts::put_save_end;

// The names that were given, of the damaged file and of the clean one.
#[derive(Clone, Copy)]
pub(crate) struct Names<'a> {
    pub(crate) damaged: &'a [u8],
    pub(crate) clean: &'a [u8],
}

// What stopped a saving before the end of the file; of the lines and of the damaged one it has the system's number.
#[derive(Clone, Copy)]
enum Fault {
    Lines(i32),
    Clean,
    Damaged(i32),
}

// Why the clean file is not whole: it has not the bytes of the records that were kept, or the system refused, with its number for why.
#[derive(Clone, Copy)]
enum Cut {
    Short,
    Failed(i32),
}

// Says that what is in the clean file is not all. It stays: what it has up to its last whole record is good.
fn say_cut(clean: &[u8]) -> Status {
    remark(&PROGRAM, clean, b": not whole");
    Status::Failed
}

// Says whether a file of so many bytes has the version and so many records.
fn is_size(bytes: usize, records: u64) -> bool {
    if bytes == 0 {
        return false;
    }
    let behind = bytes - 1;
    ((behind / RECORD_BYTES) as u64 == records) & (behind % RECORD_BYTES == 0)
}

// Says whether the place in a file, as the system gives it, is behind so many records.
fn is_behind(file: &File, records: u64) -> bool {
    let mut made = file;
    made.stream_position()
        .is_ok_and(|place| is_size(place as usize, records))
}

// Writes what waits for the clean file, says whether all of it is on the disk, and closes it, which it was handed for.
fn close_clean(clean: Sink, made: File, saved: &Block, records: u64) -> Result<(), Cut> {
    let after = clean.flush(saved);
    if after.failure.is_some() {
        return Err(Cut::Failed(failure_of(&made)));
    }
    if !is_behind(&made, records) {
        return Err(Cut::Short);
    }
    made.sync_all()
        .map_err(|error| Cut::Failed(number_of(error)))
}

impl Saving {
    fn check(self) -> Result<(), Fault> {
        if let Some(why) = self.listed.failure {
            return Err(Fault::Lines(why));
        }
        if self.clean.failure.is_some() {
            return Err(Fault::Clean);
        }
        match self.got {
            Ok(0) => Ok(()),
            Ok(_) => Err(Fault::Damaged(0)),
            Err(why) => Err(Fault::Damaged(why)),
        }
    }

    // Ends a saving of which every byte is settled. The clean file is closed first, so that "# end" says that it is whole.
    fn end_whole(
        self,
        made: File,
        totals: Totals,
        listing: &mut Block,
        saved: &Block,
        names: Names<'_>,
    ) -> Status {
        let after = put_ended(self.listed, listing, totals.run).flush(listing);
        if let Some(why) = after.failure {
            complain(&PROGRAM, b"standard output", why);
        }
        match close_clean(self.clean, made, saved, totals.records) {
            Ok(()) => {
                let ended = put_save_end(after, listing, totals).flush_told(listing, &PROGRAM);
                if (totals.records == 0) & (totals.bytes > 1) {
                    remark(&PROGRAM, names.damaged, b": no record in it could be kept");
                }
                self.strays.tell(names.damaged);
                return Status::of(ended.failure.is_none());
            }
            Err(Cut::Short) => remark(
                &PROGRAM,
                names.clean,
                b": its size is not that of the records that were kept",
            ),
            Err(Cut::Failed(why)) => complain(&PROGRAM, names.clean, why),
        }
        after.end_in_error(listing, &PROGRAM, names.clean);
        say_cut(names.clean)
    }

    // Ends a saving that came to the end of the file. Each byte that was read must have been settled.
    fn end_all(self, made: File, listing: &mut Block, saved: &Block, names: Names<'_>) -> Status {
        if let Some(totals) = self.salvage.end() {
            if totals.bytes == self.read {
                return self.end_whole(made, totals, listing, saved, names);
            }
        }
        remark(&PROGRAM, names.damaged, b": not every byte was settled");
        self.listed.end_in_error(listing, &PROGRAM, names.damaged);
        self.clean.flush(saved);
        say_cut(names.clean)
    }

    // Ends a saving, whatever stopped it.
    fn finish(self, made: File, listing: &mut Block, saved: &Block, names: Names<'_>) -> Status {
        match self.check() {
            Ok(()) => {
                return self.end_all(made, listing, saved, names);
            }
            Err(Fault::Lines(why)) => complain(&PROGRAM, b"standard output", why),
            Err(Fault::Clean) => {
                self.listed
                    .fail(listing, &PROGRAM, names.clean, failure_of(&made));
            }
            Err(Fault::Damaged(why)) => {
                self.listed.fail(listing, &PROGRAM, names.damaged, why);
            }
        }
        self.clean.flush(saved);
        say_cut(names.clean)
    }
}

// Saves a file of which the first chunk is read, to one that is open.
fn save_chunks(
    first: Saving,
    input: Source<'_>,
    made: File,
    chunk: &mut Block,
    listing: &mut Block,
    names: Names<'_>,
) -> Status {
    let mut room = [0u8; ROOM_BYTES];
    let mut saved = io::large_buffer();
    let mut begun = first;
    let count = begun.got.unwrap_or(0);
    let version = First::of(between(chunk, 0, count)).version();
    begun.clean = first.clean.put(&mut saved, version);
    let last = begun.take_all(input, chunk, &mut room, listing, &mut saved);
    last.finish(made, listing, &saved, names)
}

// Says what failed, by the system's number for it, and ends the lines by its name.
fn fail(listed: Sink, listing: &mut Block, name: &[u8], why: i32) -> Status {
    listed.fail(listing, &PROGRAM, name, why);
    Status::Failed
}

// Saves the damaged file to the clean one, where the first line is written and the damaged one is open.
fn save_opened(
    rt: HostRuntime,
    input: Source<'_>,
    listed: Sink,
    listing: &mut Block,
    names: Names<'_>,
) -> Status {
    let mut chunk = io::large_buffer();
    let got = input.read(&mut chunk);
    if let Err(why) = got {
        return fail(listed, listing, names.damaged, why);
    }
    // something was read and a line was written, so that only standard error's number can be free
    hold_errors(rt);
    match make_named(rt, names.clean) {
        Ok(made) => {
            let first = Saving {
                got,
                salvage: Salvage::start(),
                listed,
                clean: Sink::to(Target::Made(made.as_raw_fd())),
                read: 0,
                strays: Strays::none(),
            };
            save_chunks(first, input, made, &mut chunk, listing, names)
        }
        Err(why) => fail(listed, listing, names.clean, why),
    }
}

// Saves the damaged file, "-" being standard input, to the clean one, where the first line is written.
fn save_listed(rt: HostRuntime, listed: Sink, listing: &mut Block, names: Names<'_>) -> Status {
    if is_dash(names.damaged) {
        let input = Source::Input(rt.stdin());
        return save_opened(rt, input, listed, listing, names);
    }
    match open_named(rt, names.damaged) {
        Ok(file) => {
            let input = Source::Opened(&file);
            save_opened(rt, input, listed, listing, names)
        }
        Err(why) => fail(listed, listing, names.damaged, why),
    }
}

// Saves the damaged file to the clean one. The first line goes out before a file is opened: where standard output is closed, one that is
// opened would take its number, and with it the lines.
pub(crate) fn save(rt: HostRuntime, names: Names<'_>) -> Status {
    let mut listing = io::large_buffer();
    let sink = Sink::to(Target::Output(rt.stdout()));
    let titled = sink.put_named(&mut listing, b"# bussave ", names.damaged);
    let listed = titled.flush(&listing);
    if let Some(why) = listed.failure {
        complain(&PROGRAM, b"standard output", why);
        return Status::Failed;
    }
    save_listed(rt, listed, &mut listing, names)
}
