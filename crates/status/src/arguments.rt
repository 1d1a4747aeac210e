// Arguments that all tools read alike: what one is, its number as it was typed, whether it is a name (docs/LINES.md). Which arguments there are the system hands out, and no
// contract can say: what each function gives whichever they are, it promises. Meaning: specs/Arguments.antt. Refusals: none; what is wrong with an argument is said on
// standard error.
ghost use Rattle.std.specs.Prelude.{◌≡◌, true, false, ◌⊎◌, ◌<◌, ◌≤◌, length, IfOk, IsOkAnd};
ghost use Rattle.status.specs.Arguments.{wanted_most, is_help, is_option, typed_of};

use lines::{is_same, remark};
use std::env::{Env, FillError};

// What asking for an argument gave: how many bytes of it stand at the front of the text, or that there is none or that it is longer than the text. The text stays the
// caller's, who cuts it: no library takes memory of its own.
pub type Asked = Result<usize, FillError>;

// Asks for the argument at a place; that at 0 is the program.
// Tables: text holds it at its front. Refusals: none.
pub fn ask(rt: HostRuntime, place: usize, text: &mut [u8]) -> Asked
    ensures length { IfOk result (λ count. count ≤ length text.new) }
{
    rt.arg(place, text)
}

// Says whether there is an argument at a place.
fn is_there(rt: HostRuntime, place: usize) -> bool {
    let mut text = [0u8; 1];
    !matches!(rt.arg(place, &mut text), Err(FillError::NotPresent))
}

// Gives how many arguments there are, the program with them.
// Tables: none. Refusals: none.
pub fn count_arguments(rt: HostRuntime) -> usize {
    for place in 0..usize::MAX {
        if !is_there(rt, place) {
            return place;
        }
    }
    usize::MAX
}

// Says whether the argument at a place is a text of at most 11 bytes. A longer one is read as none.
// Tables: wanted is only read. Refusals: none.
pub fn is_at(rt: HostRuntime, place: usize, wanted: &[u8]) -> bool
    ensures short { result ≡ true → length wanted.now ≤ wanted_most }
{
    let mut text = [0u8; 11];
    let length = ask(rt, place, &mut text).unwrap_or(0);
    is_same(&text[..length], wanted)
}

// Gives the number of the argument at a place as it was typed: `--status-fd N`, which `./bus` puts in front of all others, is not counted.
// Tables: none. Refusals: none.
pub fn typed_number(rt: HostRuntime, place: usize) -> usize
    ensures number { (result ≡ typed_of true place) ⊎ (result ≡ typed_of false place) }
{
    if place < 3 {
        return place;
    }
    if is_at(rt, 1, b"--status-fd") {
        return place - 2;
    }
    place
}

// Says whether a text asks for help.
fn is_help(text: &[u8]) -> bool
    ensures answer { result ≡ is_help text.now }
{
    is_same(text, b"--help") | is_same(text, b"-h")
}

// Says whether the argument at a place asks for help. A longer one is read as none, and does not.
// Tables: none. Refusals: none.
pub fn asks_help(rt: HostRuntime, place: usize) -> bool {
    let mut help = [0u8; 6];
    let length = ask(rt, place, &mut help).unwrap_or(0);
    is_help(&help[..length])
}

// Says whether an argument begins with a dash and has more behind it: then it is no name, unless it stands behind `--`.
// Tables: text is only read. Refusals: none.
pub fn is_option(text: &[u8]) -> bool
    ensures answer { result ≡ is_option text.now }
{
    text.len() >= 2 && text[0] == b'-'
}

// Says whether the argument that was asked for is the name of a file. Where it is none, standard error says why.
// Tables: program and which, the argument's name in the usage, are only read. Refusals: none.
pub fn is_name(program: &[u8], which: &[u8], asked: Asked) -> bool
    ensures empty { result ≡ true → IsOkAnd asked (λ count. 0 < count) }
{
    match asked {
        Err(FillError::TooLong) => {
            remark(program, which, b" is longer than a name can be: 4095 bytes");
            false
        }
        Err(FillError::NotPresent) | Ok(0) => {
            remark(program, which, b" is empty: it must be the name of a file");
            false
        }
        Ok(_) => true,
    }
}
