// Why a message is refused, in words of document 01 (01 Controller verdicts, Mode codes; 02 j). The check has refused it; this only explains, and
// names the first part that is wrong. Refusals: none.
use lines::{Block, Sink};
use schedule::{Message, is_period};
use words::CommandWord;

// what the check refuses and nothing here explains: there is none
const IMPOSSIBLE: [u8; 26] = *b": it is an impossible plan";

// Says whether the code table lists the T/R bit and the code of a mode command.
fn is_listed(command: CommandWord) -> bool {
    words::look_up(command).is_some()
}

// Gives the other T/R bit.
fn other_bit(command: CommandWord) -> u16 {
    u16::from(!command.is_transmit())
}

// Puts what the code table has against a mode command.
fn put_mode(sink: Sink, block: &mut Block, command: CommandWord) -> Sink {
    let named = sink.put_number(block, b": mode code ", command.count() as u64);
    if is_listed(command) {
        return named.put_text(block, b" may not be sent to all terminals");
    }
    let bit = other_bit(command);
    let turned = CommandWord::build(
        command.address(),
        bit,
        command.subaddress(),
        command.count(),
    );
    if is_listed(turned) {
        return named.put_number(block, b" must be sent with T/R ", bit as u64);
    }
    named.put_text(block, b" is reserved")
}

// "One: not a broadcast transmit unless a mode command; a mode command as in the code table."
fn put_single(sink: Sink, block: &mut Block, command: CommandWord) -> Sink {
    if command.is_mode() {
        return put_mode(sink, block, command);
    }
    if command.is_transmit() & command.is_broadcast() {
        return sink.put_text(
            block,
            b": its command word transmits to all terminals and is no mode command",
        );
    }
    sink.put_text(block, &IMPOSSIBLE)
}

// The second of two commands "transmits, to another address than ours and 31, no mode command, equal count field".
fn put_second(sink: Sink, block: &mut Block, first: CommandWord, second: CommandWord) -> Sink {
    if !second.is_transmit() {
        return sink.put_text(block, b": its second command word receives");
    }
    if second.is_broadcast() {
        return sink.put_text(
            block,
            b": its second command word transmits to all terminals",
        );
    }
    if second.address() == first.address() {
        return sink.put_number(
            block,
            b": both command words are to address ",
            first.address() as u64,
        );
    }
    if second.is_mode() {
        return sink.put_text(block, b": its second command word is a mode command");
    }
    if second.count() != first.count() {
        return sink.put_text(block, b": the counts of its command words differ");
    }
    sink.put_text(block, &IMPOSSIBLE)
}

// "Two commands: a receive and a transmit as above": the first is "a receive command that is no mode command".
fn put_pair(sink: Sink, block: &mut Block, first: CommandWord, second: CommandWord) -> Sink {
    if first.is_transmit() {
        return sink.put_text(block, b": its first command word transmits");
    }
    if first.is_mode() {
        return sink.put_text(block, b": its first command word is a mode command");
    }
    put_second(sink, block, first, second)
}

// Puts what is wrong with a message that is refused: ": its second command word receives".
pub(crate) fn put_flaw(sink: Sink, block: &mut Block, message: Message) -> Sink {
    let first = message.first;
    let second = message.second;
    if !is_period(message.period) {
        return sink
            .put_number(block, b": its period is ", message.period)
            .put_text(block, b", and must be 1, 2, 4, 8, 16, 32 or 64");
    }
    if message.commands == 1 {
        return put_single(sink, block, first);
    }
    put_pair(sink, block, first, second)
}
