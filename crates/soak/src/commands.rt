// C, the new commands of the mixed part (bench/soak.h). What is drawn and in which order is fixed there.
use crate::counts::{awaited, sent};
use crate::draws::{draw, draw_from, draw_step, one_in};
use crate::streams::{Made, Stage, Stream, other_bus};
use words::CommandWord;

// "CODE[16]"
const CODES: [u16; 16] = [0, 1, 2, 3, 4, 5, 6, 7, 8, 16, 17, 18, 19, 20, 21, 2];

// "count = draw(32) if one in 4, else CODE[draw(16)]"
fn choose_code(seed: &mut u64) -> u16 {
    if one_in(seed, 4) {
        return draw(seed, 32) as u16;
    }
    draw_from(seed, &CODES)
}

// "T/R = 0 for count 17, 20 or 21, else 1; if one in 8, T/R turns"
fn choose_transmit(seed: &mut u64, code: u16) -> u16 {
    let receives = matches!(code, 17 | 20 | 21);
    let turns = one_in(seed, 8);
    u16::from(receives == turns)
}

// Gives a mode command of that address.
fn mode_word(seed: &mut u64, address: u16) -> CommandWord {
    let subaddress = 31 * draw(seed, 2) as u16;
    let code = choose_code(seed);
    let transmit = choose_transmit(seed, code);
    CommandWord::build(address, transmit, subaddress, code)
}

// "count = draw(32) if one in 4, else 1 + draw(4)"
fn choose_count(seed: &mut u64) -> u16 {
    if one_in(seed, 4) {
        return draw(seed, 32) as u16;
    }
    1 + draw(seed, 4) as u16
}

// Gives a command of that address which is, but for a drawn subaddress 0 or 31, no mode command.
fn data_word(seed: &mut u64, address: u16) -> CommandWord {
    let subaddress = draw(seed, 32) as u16;
    let transmit = draw(seed, 2) as u16;
    let count = choose_count(seed);
    CommandWord::build(address, transmit, subaddress, count)
}

impl Stream {
    // "its address is the variable address if a is below 10, else 31 if a is below 13, else draw(32)"
    fn command_address(self, seed: &mut u64) -> u16 {
        match draw(seed, 16) {
            0..=9 => self.address,
            10..=12 => CommandWord::BROADCAST,
            _ => draw(seed, 32) as u16,
        }
    }

    fn command_word(self, seed: &mut u64) -> CommandWord {
        let address = self.command_address(seed);
        if one_in(seed, 4) {
            return mode_word(seed, address);
        }
        data_word(seed, address)
    }

    // "Its bus is 1 - bus if one in 3, else bus."
    fn command_bus(self, seed: &mut u64) -> u8 {
        if one_in(seed, 3) {
            return other_bus(self.bus);
        }
        self.bus
    }

    // "If one in 4, time = later(from + 259 + 200 * (1 + sent(command)) + draw(3)), else time = now + STEP[draw(16)]."
    fn command_time(self, seed: &mut u64) -> u64 {
        if one_in(seed, 4) {
            let lasts = 200 * (1 + u64::from(sent(self.command)));
            return self.after(259 + lasts + draw(seed, 3));
        }
        self.now.wrapping_add(draw_step(seed))
    }

    // Gives the stream at the first word of a message.
    fn begun(self, command: CommandWord, bus: u8, from: u64) -> Stream {
        let left = awaited(command);
        let stage = if left == 0 { Stage::Full } else { Stage::Data };
        Stream {
            command,
            bus,
            from,
            left,
            first: true,
            stage,
            ..self
        }
    }

    // "C, new command."
    pub(crate) fn new_command(self, seed: &mut u64) -> Made {
        let word = self.command_word(seed);
        let bus = self.command_bus(seed);
        let time = self.command_time(seed);
        let made = self.plan(seed, time, bus, 0, word.0);
        if (word.address() == self.address) | word.is_broadcast() {
            let stream = made.stream.begun(word, bus, time);
            return Made { stream, ..made };
        }
        made
    }
}
