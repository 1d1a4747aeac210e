// The checksum over every outcome (bench/soak.h, CHECKSUM): "FNV-1a, 64 bits". Each function gives the sum with more added.
use crate::draws::times;
use terminal::{Answer, SpacingFault, Terminal};
use words::Moment;

// "h starts as CBF29CE484222325h"
pub(crate) const START: u64 = 0xCBF2_9CE4_8422_2325;

// "h = (h ^ byte) * 100000001B3h"
const PRIME: u64 = 0x100_0000_01B3;

// what stands for no next moment: "2^64 - 1 for none"
const NEVER: u64 = u64::MAX;

pub(crate) fn add_byte(sum: u64, byte: u8) -> u64 {
    times(sum ^ u64::from(byte), PRIME)
}

fn add_bytes(sum: u64, bytes: &[u8]) -> u64 {
    bytes.iter().fold(sum, |sum, byte| add_byte(sum, *byte))
}

// "Numbers of more than one byte go in highest byte first."
pub(crate) fn add_short(sum: u64, number: u16) -> u64 {
    add_bytes(sum, &number.to_be_bytes())
}

fn add_long(sum: u64, number: u64) -> u64 {
    add_bytes(sum, &number.to_be_bytes())
}

fn add_words(sum: u64, words: &[u16]) -> u64 {
    words.iter().fold(sum, |sum, word| add_short(sum, *word))
}

// 2: "1 byte, 1 if it carries an answer, plus 2 if it cut a sending; then for an answer: bus 1, due time 8, status 2, number of data words
// 1, each word 2 bytes"
pub(crate) fn add_answer(sum: u64, carried: Option<Answer>, cut: bool) -> u64 {
    let kinds = u8::from(carried.is_some()) | u8::from(cut) << 1;
    let told = add_byte(sum, kinds);
    let Some(answer) = carried else {
        return told;
    };
    let bus = add_byte(told, answer.bus);
    let due = add_long(bus, answer.due.0);
    let status = add_short(due, answer.status.0);
    let count = add_byte(status, (answer.count % 256) as u8);
    let given = usize::from(answer.count).min(answer.words.len());
    add_words(count, &answer.words[..given])
}

// "16 last spacing fault overlapping + 32 last spacing fault separated"
fn spacing_bits(fault: Option<SpacingFault>) -> u8 {
    match fault {
        None => 0,
        Some(SpacingFault::Overlapping) => 16,
        Some(SpacingFault::Separated) => 32,
    }
}

// "1 byte (1 self-test request + 2 A shut + 4 B shut + 8 terminal flag inhibited + ..)"
fn flags(terminal: Terminal) -> u8 {
    u8::from(terminal.wants_selftest())
        | u8::from(terminal.is_shut_down(0)) << 1
        | u8::from(terminal.is_shut_down(1)) << 2
        | u8::from(terminal.is_inhibited()) << 3
        | spacing_bits(terminal.last_spacing_fault())
}

fn add_next(sum: u64, next: Option<Moment>) -> u64 {
    add_long(sum, next.map_or(NEVER, |moment| moment.0))
}

// 3: "stored status 2, last command 2, sync word 2, 1 byte (..), last time 8, next moment 8 bytes"
pub(crate) fn add_state(sum: u64, terminal: Terminal) -> u64 {
    let status = add_short(sum, terminal.status().0);
    let command = add_short(status, terminal.last_command().0);
    let sync = add_short(command, terminal.sync_word());
    let flagged = add_byte(sync, flags(terminal));
    let time = add_long(flagged, terminal.time.0);
    add_next(time, terminal.next_moment())
}
