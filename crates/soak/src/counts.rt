// How many data words a command awaits or has sent (bench/soak.h: awaited, sent). Written anew from there: `words` and the terminal, which are
// tried here, are not asked for theirs.
use words::CommandWord;

// "awaited(c)": 0 to 32.
pub(crate) fn awaited(command: CommandWord) -> u16 {
    if command.is_transmit() {
        return 0;
    }
    if command.is_mode() {
        return u16::from(command.count() >= 16);
    }
    command.words()
}

// "sent(c)": 0 to 32.
pub(crate) fn sent(command: CommandWord) -> u16 {
    if !command.is_transmit() {
        return 0;
    }
    if command.is_mode() {
        return u16::from(matches!(command.count(), 16 | 18 | 19));
    }
    command.words()
}
