// One bus's reading of a file: chunks of it go through a side of `monitor` (02 a). Meaning of a side: monitor's specs/Machine.antt.
// Refusals: 8 of the file, where it begins.
ghost use Rattle.std.specs.Prelude.{◌≤◌, length};

use lines::{Block, Source};
use monitor::Side;
use records::open_file;
use std::fs::File;
use windows::Window;
use words::Refusal;

// A reading: the side, which bytes of the chunk wait, and the system's number for a read that has failed. Each reading has its own descriptor of the file.
// That and the chunk are lent to it.
#[derive(Drop)]
pub(crate) struct Reader<'a> {
    file: &'a File,
    chunk: &'a mut Block,
    window: Window,
    pub(crate) side: Side,
    pub(crate) failure: Option<i32>,
}

// Why no reading begins: the file was refused, with so many bytes in the chunk, or the read failed, with the system's number for that.
#[derive(Clone, Copy)]
pub(crate) enum Unbegun {
    Refused(Refusal, usize),
    Failed(i32),
}

// Reads on behind so many bytes, and gives how many came, or the system's number for why none could.
fn read_behind(file: &File, chunk: &mut [u8], kept: usize) -> Result<usize, i32>
    requires { kept ≤ length chunk.old }
{
    Source::Opened(file).read(&mut chunk[kept..])
}

// Reads the front of a file, and gives what waits in the chunk behind the version: "One version byte, 1, opens the file."
pub(crate) fn open(file: &File, chunk: &mut Block) -> Result<Window, Unbegun> {
    let count = Source::Opened(file).read(chunk).map_err(Unbegun::Failed)?;
    let window = Window::empty().with_more(chunk, count);
    match open_file(window.bytes(chunk)) {
        Ok(cursor) => Ok(window.after(cursor.at)),
        Err(refusal) => Err(Unbegun::Refused(refusal, count)),
    }
}

impl<'a> Reader<'a> {
    // Gives the reading of an opened file, for a bus.
    pub(crate) fn start(file: &'a File, chunk: &'a mut Block, window: Window, bus: u8) -> Self {
        Reader {
            file,
            chunk,
            window,
            side: Side::start(bus),
            failure: None,
        }
    }

    // Reads on, behind the bytes of a record that is not whole yet. At the end of the file these are all that is left.
    fn refill(&mut self) {
        let window = self.window.make_room(self.chunk);
        match read_behind(self.file, self.chunk, window.to) {
            Ok(0) => {
                self.side = self.side.end(window.bytes(self.chunk));
                self.window = window;
            }
            Ok(came) => self.window = window.with_more(self.chunk, came),
            Err(why) => {
                self.failure = Some(why);
                self.window = window;
            }
        }
    }

    // Brings the side to its next entry, or to the end of the chunk; where no record of it waits any more, the next is read.
    pub(crate) fn feed(&mut self) {
        let fed = self.side.feed(self.window.bytes(self.chunk));
        if fed.taken == 0 {
            return self.refill();
        }
        self.side = fed.side;
        self.window = self.window.after(fed.taken);
    }
}
