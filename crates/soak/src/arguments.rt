// The numbers of the program's arguments, in decimal. What is no number of 1 to 20 digits, or does not fit 64 bits, is None.
use std::env::{Env, FillError};

// What the arguments ask for: so many calls of the stream from that seed, with a line every so many.
#[derive(Clone, Copy)]
pub(crate) struct Asked {
    pub(crate) calls: u64,
    pub(crate) seed: u64,
    pub(crate) every: u64,
}

// Gives the argument at a place, or the other number where there is none. One that does not fit the text is no number.
fn argument(rt: HostRuntime, place: usize, other: u64) -> Option<u64> {
    let mut text = [0u8; 32];
    match rt.arg(place, &mut text) {
        Ok(length) => lines::read_decimal(&text[..length]),
        Err(FillError::TooLong) => None,
        Err(FillError::NotPresent) => Some(other),
    }
}

// Says whether there is an argument at a place.
fn is_there(rt: HostRuntime, place: usize) -> bool {
    let mut text = [0u8; 1];
    !matches!(rt.arg(place, &mut text), Err(FillError::NotPresent))
}

// Gives what the arguments ask for, or None where the call is wrong.
pub(crate) fn read_arguments(rt: HostRuntime) -> Option<Asked> {
    let calls = argument(rt, 1, 0)?;
    let seed = argument(rt, 2, 1)?;
    let every = argument(rt, 3, 100000)?;
    if (calls == 0) | (every == 0) | is_there(rt, 4) {
        return None;
    }
    Some(Asked { calls, seed, every })
}
