// The front of a call: `--status-fd N` and `--version`, before all else (docs/LINES.md, "The status"). What the system hands out and takes no contract can say: what each
// function gives whatever that is, it promises. Meaning: specs/Fronts.antt. Refusals: none.
ghost use Rattle.std.specs.Prelude.{◌≡◌, ℕ, true, false, None, ◌⊎◌, ◌≤◌, length, IfSome};
ghost use Rattle.status.specs.Fronts.{descriptor_of, is_number, front_of, front_in, usage_of};

use crate::arguments::{ask, is_at};
use crate::statuses::Status;
use lines::{Sink, Target, complain, number_of, read_decimal, remark};
use std::fs::{OpenOptions, metadata, symlink_metadata};
use std::io::{Print, Write};
use std::os::unix::fs::{FileTypeExt, MetadataExt};

const STDERR: i32 = 2;

// the system's own numbers, which it gives and gets back for its words, for what fails, for a descriptor that is not open for that, and for a pipe that nobody reads
const IO_ERROR: i32 = 5;

const BAD_DESCRIPTOR: i32 = 9;

const BROKEN_PIPE: i32 = 32;

// that of CHANGELOG.md's first entry
pub const VERSION: [u8; 6] = *b"0.21.0";

// The descriptor to which the run's end is to be told, if it is, and the place of the first argument behind that.
#[derive(Clone, Copy)]
pub struct Front {
    pub fd: Option<i32>,
    pub first: usize,
}

// What the front of a call asks: to go on with the arguments behind it, or nothing more, the run having ended so.
pub type Begun = Result<Front, (Front, Status)>;

// Gives the descriptor that a text spells, if it is one of the system's numbers.
fn descriptor_of(text: &[u8]) -> Option<i32>
    ensures descriptor { result ≡ descriptor_of text.now }
{
    i32::try_from(read_decimal(text)?).ok()
}

// Gives the path under which the system shows a descriptor, and its length: a text of its own would need the heap.
fn path_of(fd: i32) -> ([u8; 28], usize)
    ensures within { result.1 ≤ length result.0 }
{
    let mut path = *b"/dev/fd/                    ";
    let mut digits = [0u8; 20];
    let count = io::decimal(fd.unsigned_abs() as u64, &mut digits);
    path[8..8 + count].copy_from_slice(&digits[..count]);
    (path, 8 + count)
}

// Says whether a descriptor is open. One that is not would become that of the next file that is opened, and the digit would go there. Where the system shows no
// descriptors, each is taken for open.
fn is_open(rt: HostRuntime, fd: i32) -> bool {
    let (path, length) = path_of(fd);
    std::str::from_utf8(&path[..length]).map_or(true, |text| {
        symlink_metadata(&rt, text).is_ok() | metadata(&rt, "/dev/fd").is_err()
    })
}

// Says whether a descriptor is open for writing, as the system shows it: the one who has it may write to it.
fn is_for_writing(rt: HostRuntime, path: &str) -> bool {
    symlink_metadata(&rt, path).map_or(true, |shown| shown.mode() & 0o200 != 0)
}

// Gives the system's number for why a device takes nothing, by a second try: nothing that a device was sent can be lost by it.
fn failure_of_device(rt: HostRuntime, path: &str, digit: u8) -> i32 {
    match OpenOptions::new().write(true).open(&rt, path) {
        Ok(mut device) => match device.write(&[digit]) {
            Ok(_) => IO_ERROR,
            Err(error) => number_of(error),
        },
        Err(error) => number_of(error),
    }
}

// Gives the system's number for why the file at a path took nothing, by what it is: a file is not written to once more.
fn failure_by_kind(rt: HostRuntime, path: &str, digit: u8) -> i32 {
    let Ok(shown) = metadata(&rt, path) else {
        return BAD_DESCRIPTOR;
    };
    let kind = shown.file_type();
    if kind.is_char_device() {
        return failure_of_device(rt, path, digit);
    }
    if kind.is_fifo() | kind.is_socket() {
        return BROKEN_PIPE;
    }
    IO_ERROR
}

// Gives the system's number for why a descriptor took nothing.
fn failure_at(rt: HostRuntime, fd: i32, digit: u8) -> i32 {
    let (path, length) = path_of(fd);
    let Ok(text) = std::str::from_utf8(&path[..length]) else {
        return IO_ERROR;
    };
    if !is_for_writing(rt, text) {
        return BAD_DESCRIPTOR;
    }
    failure_by_kind(rt, text, digit)
}

impl Front {
    // Gives the front of a call that asks for no digit.
    fn untold() -> Front
        ensures front { result ≡ front_of None }
    {
        Front { fd: None, first: 1 }
    }

    // Ends a run: writes the digit, where it is asked for, as the tool's last act.
    // Tables: program is only read. Refusals: none.
    pub fn end(self, rt: HostRuntime, program: &[u8], status: Status)
        ensures program { program.exit.now ≡ program.entry.now }
    {
        let Some(fd) = self.fd else {
            return;
        };
        if !io::write_all(fd, &[status.digit()]) {
            let why = failure_at(rt, fd, status.digit());
            complain(program, b"--status-fd", why);
        }
    }
}

// Says what is wrong with `--status-fd`.
fn refuse(front: Front, program: &[u8], why: &[u8]) -> Begun
    ensures front { front_in result ≡ front }
{
    remark(program, b"--status-fd", why);
    Err((front, Status::Usage))
}

// Writes "PROGRAM VERSION".
fn write_version(rt: HostRuntime, program: &[u8]) -> Status {
    let mut block = io::large_buffer();
    let after = Sink::to(Target::Output(rt.stdout()))
        .put_text(&mut block, program)
        .put(&mut block, b' ')
        .put_text(&mut block, &VERSION)
        .put(&mut block, b'\n')
        .flush_told(&block, program);
    Status::of(after.failure.is_none())
}

// Writes how a program is called: to standard output where that was asked for, and to standard error where it was called wrongly.
// Tables: program and usage are only read. Refusals: none.
pub fn show_usage(rt: HostRuntime, program: &[u8], usage: &[u8], asked: bool) -> Status
    ensures status { (result ≡ usage_of asked true) ⊎ (result ≡ usage_of asked false) }
{
    if !asked {
        io::write_all(STDERR, usage);
        return Status::Usage;
    }
    match Print::write_all(&rt, usage) {
        Ok(()) => Status::of(true),
        Err(error) => {
            complain(program, b"standard output", number_of(error));
            Status::of(false)
        }
    }
}

// Runs a tool as its call asks: what the front of the call asks for, or the tool from the place of the first argument behind it. Then it says how that ended.
// Tables: program is only read. Refusals: none.
pub fn run<T: FnOnce(usize) -> Status>(rt: HostRuntime, program: &[u8], tool: T)
    requires tool { (first : ℕ) → T.pre tool first }
    ensures program { program.exit.now ≡ program.entry.now }
{
    let (front, status) = match begin(rt, program) {
        Ok(front) => (front, tool(front.first)),
        Err(over) => over,
    };
    front.end(rt, program, status);
}

// Gives what is asked behind `--status-fd N`, or where there is none.
fn begin_behind(rt: HostRuntime, front: Front, program: &[u8]) -> Begun
    ensures front { front_in result ≡ front }
{
    if is_at(rt, front.first, b"--status-fd") {
        return refuse(front, program, b" is given twice");
    }
    if is_at(rt, front.first, b"--version") {
        return Err((front, write_version(rt, program)));
    }
    Ok(front)
}

// Gives what the front of a call asks. Where it asks for the version, that is written; where it is wrong, standard error says how.
// Tables: program is only read. Refusals: none.
pub fn begin(rt: HostRuntime, program: &[u8]) -> Begun
    ensures front { front_in result ≡ front_of (front_in result).fd }
    ensures file { IfSome (front_in result).fd (λ fd. is_number fd ≡ true) }
{
    let untold = Front::untold();
    if !is_at(rt, 1, b"--status-fd") {
        return begin_behind(rt, untold, program);
    }
    let mut text = [0u8; 20];
    let length = ask(rt, 2, &mut text).unwrap_or(0);
    let Some(fd) = descriptor_of(&text[..length]) else {
        return refuse(
            untold,
            program,
            b" wants the number of an open descriptor, 0 to 2147483647",
        );
    };
    if !is_open(rt, fd) {
        return refuse(untold, program, b" names a descriptor that is not open");
    }
    let front = Front {
        fd: Some(fd),
        first: 3,
    };
    begin_behind(rt, front, program)
}
