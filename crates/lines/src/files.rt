// Files by the names that were given, any bytes, and what is read of them or of standard input (02 a, c, j). What the system has no contract can say. Refusals: none; where
// the system refuses, its number for that is given.
ghost use Rattle.std.specs.Prelude.{◌≤◌, IfOk, length};

use std::fs::{File, OpenOptions};
use std::io::{Error, Read, Seek, Stdin, Write};

// the system's number for a name that is no text: files are opened by names in UTF-8 alone
const NO_TEXT: i32 = 84;

// What is read from: standard input, or a file that was opened. Two kinds and no more, so that it is copied where a `dyn` or a parameter of its own would be lent on.
#[derive(Clone, Copy)]
pub enum Source<'a> {
    Input(Stdin),
    Opened(&'a File),
}

// Gives the system's number for a failure, 0 where it has none. It stays a number: the system has many, takes each back for its words, and a sink that holds it is copied.
// Tables: none. Refusals: none.
pub fn number_of(error: Error) -> i32 {
    error.raw_os_error().unwrap_or(0)
}

// Gives a name as the text that files are opened by.
fn text_of(name: &[u8]) -> Result<&str, i32> {
    std::str::from_utf8(name).map_err(|_| NO_TEXT)
}

// Opens the file of a name to read it, or gives the system's number for why it could not.
// Tables: name is only read. Refusals: none.
pub fn open_named(rt: HostRuntime, name: &[u8]) -> Result<File, i32> {
    File::open(&rt, text_of(name)?).map_err(number_of)
}

// Makes the file of a name, which must not exist, to write it, or gives the system's number for why it could not.
// Tables: name is only read. Refusals: none.
pub fn make_named(rt: HostRuntime, name: &[u8]) -> Result<File, i32> {
    OpenOptions::new()
        .write(true)
        .create_new(true)
        .open(&rt, text_of(name)?)
        .map_err(number_of)
}

// Gives the system's number for why a write to a file that was made failed, 0 where it has none: it tries one byte more, and takes it back where the system takes it.
// Tables: none. Refusals: none.
pub fn failure_of(file: &File) -> i32 {
    let mut made = file;
    let place = made.stream_position();
    match made.write(b" ") {
        Ok(_) => {
            if let Ok(end) = place {
                let _ = file.set_len(end);
            }
            0
        }
        Err(error) => number_of(error),
    }
}

impl Source<'_> {
    // Reads some bytes to the front of the chunk and gives how many, 0 at the end, or the system's number for why it could not.
    // Tables: chunk holds what was read at its front. Refusals: none.
    pub fn read(self, chunk: &mut [u8]) -> Result<usize, i32>
        ensures count { IfOk result (λ count. count ≤ length chunk.new) }
    {
        let got = match self {
            Source::Input(mut input) => input.read(chunk),
            Source::Opened(mut file) => file.read(chunk),
        };
        got.map_err(number_of)
    }
}
