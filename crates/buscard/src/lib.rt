// What the C bench program calls (01: "must also be callable from the C bench program on numbers and bytes"). Each function wraps one
// of `words`, `records` or `verdict` and says the same definition. Nothing is allocated, nothing is kept between calls, every call returns for any
// argument. A call that may be refused gives the refusal's number, or 0. Types for C: include/buscard.h.
#![tactic(auto)]

ghost use Rattle.std.specs.Prelude.{◌≡◌};
ghost use Rattle.buscard.specs.Answers.{one_if, spacing_number, record_of, field_or, plan_of};
ghost use Rattle.records.specs.Records.{last_bus, read_of, refusal_of, write_refusal, written_of};
ghost use Rattle.records.specs.Files.{counted_of};
ghost use Rattle.records.specs.declared.forms.WordRecord.{WordRecord};
ghost use Rattle.verdict.specs.Verdicts.{judged_of, refusal_in, verdict_or, looked_or};
ghost use Rattle.words.specs.Words.{parity_of, is_valid, is_spaced, spacing_of, distance_in, command_of, address_of, transmit_of, subaddress_of, count_of, words_of, is_mode, status_of, flags_of};

use records::{LAST_BUS, WordRecord};
use verdict::Plan;
use words::{CommandWord, Moment, Spacing, StatusWord};

// "overlapping (below 195), back to back, or separated (above 205)" (02 i): 0, 1, 2 in this order (house)
const OVERLAPPING: u8 = 0;

const BACK_TO_BACK: u8 = 1;

const SEPARATED: u8 = 2;

// the number of a call that was not refused
const NOT_REFUSED: u8 = 0;

// Gives the parity bit that makes the 17 bits odd.
// Tables: none. Refusals: none.
#[unsafe(no_mangle)]
pub extern "C" fn bus_word_parity(word: u16) -> u8
    ensures bit { result ≡ parity_of word }
{
    words::parity_bit(word)
}

// Gives 1 if the word is valid, else 0; any number out of range gives 0.
// Tables: none. Refusals: none.
#[unsafe(no_mangle)]
pub extern "C" fn bus_word_valid(sync: u8, faults: u8, word: u16, parity: u8) -> u8
    ensures answer { result ≡ one_if (is_valid sync faults word parity) }
{
    u8::from(words::is_valid(sync, faults, word, parity))
}

// Gives 1 if the second word is 195 to 205 ticks past the first, else 0.
// Tables: none. Refusals: none.
#[unsafe(no_mangle)]
pub extern "C" fn bus_word_spaced(before: u64, after: u64) -> u8
    ensures answer { result ≡ one_if (is_spaced before after) }
{
    u8::from(words::is_spaced(Moment(before), Moment(after)))
}

// Gives 0 if the second word overlaps the first, 1 if it is back to back, 2 if it is separated from it, and how many ticks past the first it comes.
// Each arm has its ticks: one binding for all would match twice. Tables: distance holds the ticks, 0 where the second is not later. Refusals: none.
#[unsafe(no_mangle)]
pub extern "C" fn bus_word_spacing(before: u64, after: u64, distance: &mut u64) -> u8
    ensures kind { result ≡ spacing_number (spacing_of before after) }
    ensures distance { distance.new ≡ distance_in (spacing_of before after) }
{
    match words::spacing_between(Moment(before), Moment(after)) {
        Spacing::Overlapping(ticks) => {
            *distance = ticks.0;
            OVERLAPPING
        }
        Spacing::BackToBack(ticks) => {
            *distance = ticks.0;
            BACK_TO_BACK
        }
        Spacing::Separated(ticks) => {
            *distance = ticks.0;
            SEPARATED
        }
    }
}

// Gives the command word of the low 5, 1, 5 and 5 bits.
// Tables: none. Refusals: none.
#[unsafe(no_mangle)]
pub extern "C" fn bus_command_build(address: u16, transmit: u16, subaddress: u16, count: u16) -> u16
    ensures word { result ≡ command_of address transmit subaddress count }
{
    let built = CommandWord::build(address, transmit, subaddress, count);
    built.0
}

// Gives the address field as it stands in the word.
// Tables: none. Refusals: none.
#[unsafe(no_mangle)]
pub extern "C" fn bus_command_address(word: u16) -> u16
    ensures field { result ≡ address_of word }
{
    CommandWord(word).address()
}

// Gives the T/R field as it stands in the word.
// Tables: none. Refusals: none.
#[unsafe(no_mangle)]
pub extern "C" fn bus_command_transmit(word: u16) -> u16
    ensures field { result ≡ transmit_of word }
{
    CommandWord(word).transmit()
}

// Gives the subaddress field as it stands in the word.
// Tables: none. Refusals: none.
#[unsafe(no_mangle)]
pub extern "C" fn bus_command_subaddress(word: u16) -> u16
    ensures field { result ≡ subaddress_of word }
{
    CommandWord(word).subaddress()
}

// Gives the count field as it stands in the word.
// Tables: none. Refusals: none.
#[unsafe(no_mangle)]
pub extern "C" fn bus_command_count(word: u16) -> u16
    ensures field { result ≡ count_of word }
{
    CommandWord(word).count()
}

// Gives the count, 0 read as 32.
// Tables: none. Refusals: none.
#[unsafe(no_mangle)]
pub extern "C" fn bus_command_words(word: u16) -> u16
    ensures count { result ≡ words_of word }
{
    CommandWord(word).words()
}

// Gives 1 for a mode command, else 0.
// Tables: none. Refusals: none.
#[unsafe(no_mangle)]
pub extern "C" fn bus_command_is_mode(word: u16) -> u8
    ensures answer { result ≡ one_if (is_mode word) }
{
    u8::from(CommandWord(word).is_mode())
}

// Gives the status word of the low 5 bits of the address and, of the flags, the bits 0400 0100 0010 0008 0004 0001.
// Tables: none. Refusals: none.
#[unsafe(no_mangle)]
pub extern "C" fn bus_status_build(address: u16, flags: u16) -> u16
    ensures word { result ≡ status_of address flags }
{
    let built = StatusWord::build(address, flags);
    built.0
}

// Gives the address of a status word.
// Tables: none. Refusals: none.
#[unsafe(no_mangle)]
pub extern "C" fn bus_status_address(word: u16) -> u16
    ensures field { result ≡ address_of word }
{
    StatusWord(word).address()
}

// Gives the six flag bits of a status word, 0 elsewhere.
// Tables: none. Refusals: none.
#[unsafe(no_mangle)]
pub extern "C" fn bus_status_flags(word: u16) -> u16
    ensures flags { result ≡ flags_of word }
{
    StatusWord(word).flags()
}

// Gives 0 and the record at the front of the bytes in the six numbers, or gives the number of the refusal.
// Tables: each number is the record's; after a refusal all are as before. Refusals: 3, 4, 5.
#[unsafe(no_mangle)]
pub extern "C" fn bus_record_read(
    bytes: &[u8],
    time: &mut u64,
    bus: &mut u8,
    sync: &mut u8,
    faults: &mut u8,
    word: &mut u16,
    parity: &mut u8,
) -> u8
    ensures refusal { result ≡ refusal_of (read_of last_bus bytes.now) }
    ensures time { time.new ≡ field_or (read_of last_bus bytes.now) (λ r. r.time.0) time.old }
    ensures bus { bus.new ≡ field_or (read_of last_bus bytes.now) (λ r. r.bus) bus.old }
    ensures sync { sync.new ≡ field_or (read_of last_bus bytes.now) (λ r. r.sync) sync.old }
    ensures faults { faults.new ≡ field_or (read_of last_bus bytes.now) (λ r. r.faults) faults.old }
    ensures word { word.new ≡ field_or (read_of last_bus bytes.now) (λ r. r.word) word.old }
    ensures parity { parity.new ≡ field_or (read_of last_bus bytes.now) (λ r. r.parity) parity.old }
{
    match records::read_record(bytes, LAST_BUS) {
        Ok(record) => {
            *time = record.time.0;
            *bus = record.bus;
            *sync = record.sync;
            *faults = record.faults;
            *word = record.word;
            *parity = record.parity;
            NOT_REFUSED
        }
        Err(refusal) => refusal.number(),
    }
}

// Gives 0 and writes the record of the six numbers at the front of the bytes, or gives the number of the refusal.
// Tables: the first 16 of bytes are the record's form, all others as before; after a refusal all are as before. Refusals: 9, 5.
#[unsafe(no_mangle)]
pub extern "C" fn bus_record_write(
    bytes: &mut [u8],
    time: u64,
    bus: u8,
    sync: u8,
    faults: u8,
    word: u16,
    parity: u8,
) -> u8
    ensures refusal { result ≡ write_refusal (record_of time bus sync faults word parity) bytes.old }
    ensures bytes { bytes.new ≡ written_of (record_of time bus sync faults word parity) bytes.old }
{
    let made = WordRecord {
        time: Moment(time),
        bus,
        sync,
        faults,
        word,
        parity,
    };
    match made.write(bytes) {
        Ok(()) => NOT_REFUSED,
        Err(refusal) => refusal.number(),
    }
}

// Gives 0 and how many records the bytes hold as a file, or gives the number of the refusal.
// Tables: records is their number; after a refusal it is as before. Refusals: 8, then record by record 3, 4, 5.
#[unsafe(no_mangle)]
pub extern "C" fn bus_file_check(bytes: &[u8], records: &mut u64) -> u8
    ensures refusal { result ≡ refusal_of (counted_of bytes.now) }
    ensures records { records.new ≡ field_or (counted_of bytes.now) (λ count. count) records.old }
{
    match records::count_records(bytes) {
        Ok(count) => {
            *records = count;
            NOT_REFUSED
        }
        Err(refusal) => refusal.number(),
    }
}

// Gives 0, the verdict on a plan of one or two commands and how many returned records were looked at for it, or the number of the refusal. last is
// E, until is Q; of one command the second word is not read.
// Tables: records is only read; verdict holds 0 to 12, looked 0 to 35, after a refusal both are as before.
// Refusals: 7, impossible plan; 5, bus, E, Q, Q below E; then record by record 3, 4, 5, 6.
#[unsafe(no_mangle)]
pub extern "C" fn bus_verdict_looked(
    commands: u8,
    first: u16,
    second: u16,
    bus: u8,
    last: u64,
    until: u64,
    records: &[u8],
    verdict: &mut u8,
    looked: &mut u8,
) -> u8
    ensures refusal { result ≡ refusal_in (judged_of (plan_of commands first second bus last until) records.now) }
    ensures verdict { verdict.new ≡ verdict_or (judged_of (plan_of commands first second bus last until) records.now) verdict.old }
    ensures looked { looked.new ≡ looked_or (judged_of (plan_of commands first second bus last until) records.now) looked.old }
{
    let plan = Plan {
        commands,
        first: CommandWord(first),
        second: CommandWord(second),
        bus,
        last: Moment(last),
        until: Moment(until),
    };
    match plan.judge(records) {
        Ok(finding) => {
            *verdict = finding.verdict.number();
            *looked = finding.looked;
            NOT_REFUSED
        }
        Err(refusal) => refusal.number(),
    }
}

// Gives 0 and the verdict as bus_verdict_looked does, without the number looked at, or the number of the refusal.
// Tables: records is only read; verdict holds 0 to 12, after a refusal it is as before. Refusals: as bus_verdict_looked.
#[unsafe(no_mangle)]
pub extern "C" fn bus_verdict_give(
    commands: u8,
    first: u16,
    second: u16,
    bus: u8,
    last: u64,
    until: u64,
    records: &[u8],
    verdict: &mut u8,
) -> u8
    ensures refusal { result ≡ refusal_in (judged_of (plan_of commands first second bus last until) records.now) }
    ensures verdict { verdict.new ≡ verdict_or (judged_of (plan_of commands first second bus last until) records.now) verdict.old }
{
    let mut looked = 0;
    bus_verdict_looked(
        commands,
        first,
        second,
        bus,
        last,
        until,
        records,
        verdict,
        &mut looked,
    )
}
