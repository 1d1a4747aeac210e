// The tables (bench/soak.h, TABLES), and the copy of the receive table that the checksum compares it with.
use crate::calls::{Lending, TABLE};
use crate::draws::draw_word;
use crate::sums::add_short;
use terminal::{Happened, Terminal};

// the most words that an event is lent; what it is lent past a table's words is only a length
const MOST: usize = 2048;

#[derive(Drop)]
pub(crate) struct Tables {
    receive: [u16; MOST],
    transmit: [u16; MOST],
    copy: [u16; TABLE],
}

impl Tables {
    // "The receive table starts as 1,024 zeros. The transmit table starts with draw(65536) at each place, 0 to 1,023"; "The copy starts as
    // zeros."
    pub(crate) fn start(seed: &mut u64) -> Tables {
        let mut transmit = [0; MOST];
        for word in &mut transmit[..TABLE] {
            *word = draw_word(seed);
        }
        Tables {
            receive: [0; MOST],
            transmit,
            copy: [0; TABLE],
        }
    }

    // Hands the event over with as many words of the tables as it says.
    pub(crate) fn lend(&mut self, terminal: Terminal, call: Lending) -> Happened {
        let transmit = &self.transmit[..call.transmit.min(MOST)];
        let receive = &mut self.receive[..];
        let received = &mut receive[..call.receive.min(MOST)];
        terminal.event(call.event, received, transmit)
    }

    // The host writes the transmit table.
    pub(crate) fn send(&mut self, place: usize, word: u16) {
        if let Some(sent) = self.transmit.get_mut(place) {
            *sent = word;
        }
    }

    // Says whether the receive table differs from its copy.
    fn is_changed(&self) -> bool {
        &self.receive[..TABLE] != &self.copy[..]
    }

    // 4: "for each place of the receive table, rising, whose word is another than in a copy of the table: place 2, word 2 bytes; then the
    // copy is made anew". Gives the sum with these more.
    pub(crate) fn add_received(&mut self, sum: u64) -> u64 {
        if !self.is_changed() {
            return sum;
        }
        let mut next = sum;
        for (place, (word, kept)) in self.receive.iter().zip(&mut self.copy).enumerate() {
            if *word != *kept {
                next = add_short(add_short(next, place as u16), *word);
                *kept = *word;
            }
        }
        next
    }
}
