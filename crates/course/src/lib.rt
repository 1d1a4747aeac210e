// A course of calls from bytes, played on one terminal: the bench times it and holds its sum to plain C's (bench/course.c). Nothing of the card
// calls it. Proved: it is safe and ends for any bytes, and leaves them as they are, to which their type holds it too. Refusals: none.
#![tactic(auto)]

ghost use Rattle.std.specs.Prelude.{◌≡◌};

use records::{LAST_BUS, WordRecord, read_record};
use std::num::wrapping_add_u64;
use terminal::{Answer, Event, Happened, Setup, Terminal};
use words::Refusal;

// A call: its kind, then the 16 bytes of a record, from which it takes what it needs.
const CALL_BYTES: usize = 17;

// The kinds that are no set-up or host call: the record as an event, a mark of its time, its word into the transmit table at the place that is its
// time. The others stand in `host`.
const RECORD: u8 = 1;

const MARK: u8 = 2;

const SEND: u8 = 10;

// Gives the sum turned left by one bit.
fn turned(sum: u64) -> u64 {
    (sum << 1) | (sum >> 63)
}

// Gives the sum with an event's refusal.
fn refused(sum: u64, refusal: Refusal) -> u64 {
    wrapping_add_u64(turned(sum), refusal.number() as u64)
}

// Gives the sum with the answer that an event carries, if any.
fn answered(sum: u64, answer: Option<Answer>) -> u64 {
    let Some(answer) = answer else {
        return sum;
    };
    let words = answer.words;
    let numbers = ((answer.status.0 as u64) << 48)
        ^ ((answer.count as u64) << 32)
        ^ (words[0] as u64);
    wrapping_add_u64(turned(sum), answer.due.0 ^ numbers)
}

// Gives the sum with the next moment, that of none being 0, where the host asks for it.
fn asked(sum: u64, terminal: Terminal, ask: bool) -> u64 {
    if !ask {
        return sum;
    }
    let next = terminal.next_moment();
    match next {
        Some(moment) => wrapping_add_u64(turned(sum), moment.0),
        None => turned(sum),
    }
}

// As after an event that did nothing, on a terminal with every mask on.
fn start(address: u16) -> Happened {
    let setup = Setup::build(address, [0xFFFF_FFFF; 32], [0xFFFF_FFFF; 32]);
    let terminal = Terminal::fresh(setup);
    Happened {
        terminal,
        answer: None,
        refusal: None,
        cut: false,
    }
}

fn set_up(before: Terminal, address: u16) -> Terminal {
    let masks = [0xFFFF_FFFFu32; 32];
    match terminal::set_up(address, &masks, &masks) {
        Ok(terminal) => terminal,
        Err(_) => before,
    }
}

// A set-up or a host call with the record's word: an address, a flag in its lowest bit, or the word itself.
fn host(terminal: Terminal, kind: u8, word: u16) -> Terminal {
    let on = word & 1 == 1;
    match kind {
        0 => set_up(terminal, word),
        3 => terminal.set_service(on),
        4 => terminal.set_busy(on),
        5 => terminal.set_subsystem(on),
        6 => terminal.set_terminal_fault(on),
        7 => terminal.set_vector_word(word),
        8 => terminal.set_bit_word(word),
        9 => terminal.clear_selftest(),
        11 => terminal.restart(),
        _ => terminal,
    }
}

// The host writes the transmit table.
fn send(heard: WordRecord, transmit: &mut [u16; 1024]) {
    if let Some(word) = transmit.get_mut(heard.time.0 as usize) {
        *word = heard.word;
    }
}

fn event_of(kind: u8, heard: WordRecord) -> Event {
    if kind == MARK {
        let time = heard.time;
        return Event::Mark(time);
    }
    Event::Word(heard)
}

// Plays the calls up to one whose record is refused, and gives the sum. The terminal stays in the event's result from call to call, which saves a
// copy of it.
fn play(calls: &[u8], ask: bool, receive: &mut [u16; 1024], transmit: &mut [u16; 1024]) -> u64 {
    let mut happened = start(5);
    let mut sum = 0;
    for call in calls.chunks_exact(CALL_BYTES) {
        let kind = call[0];
        let Ok(heard) = read_record(&call[1..], LAST_BUS) else {
            return sum;
        };
        let terminal = happened.terminal;
        match kind {
            RECORD | MARK => {
                happened = terminal.event(event_of(kind, heard), receive, transmit);
                sum = match happened.refusal {
                    Some(refusal) => refused(sum, refusal),
                    None => answered(sum, happened.answer),
                };
                sum = asked(sum, happened.terminal, ask);
            }
            SEND => send(heard, transmit),
            _ => {
                let next = host(terminal, kind, heard.word);
                happened.terminal = next;
            }
        }
    }
    sum
}

// Gives the sum of the course on a terminal of address 5 and tables of zeros; `ask` says whether the host asks for the next moment after each event.
// Tables: calls is only read. Refusals: none.
#[unsafe(no_mangle)]
pub extern "C" fn course_play(calls: &[u8], ask: bool) -> u64
    ensures calls { calls.exit.now ≡ calls.entry.now }
{
    let mut receive = [0u16; 1024];
    let mut transmit = [0u16; 1024];
    play(calls, ask, &mut receive, &mut transmit)
}
