// Where lines go: a sink and the block in which its bytes wait. What is put never fails here; the sink keeps that a write has failed.
use lines::{Block, Sink, Target, spell_word};
use std::fmt;

// the last place behind which a space and a word have room
const LAST_PLACE: usize = 65531;

// as wide as the widest column
const SPACES: [u8; 40] = *b"                                        ";

#[derive(Drop)]
pub(crate) struct Output {
    sink: Sink,
    block: Block,
}

impl Output {
    pub(crate) fn to(target: Target) -> Output {
        Output {
            sink: Sink::to(target),
            block: io::large_buffer(),
        }
    }

    // Puts a byte.
    pub(crate) fn put(&mut self, byte: u8) {
        self.sink = self.sink.put(&mut self.block, byte);
    }

    // Puts a text whole: where it does not fit behind what waits, that is written first.
    pub(crate) fn put_text(&mut self, text: &str) {
        self.sink = self.sink.put_text(&mut self.block, text.as_bytes());
    }

    // Puts a word whole, as four hexadecimal capitals.
    pub(crate) fn put_word(&mut self, word: u16) {
        self.sink = self.sink.put_word(&mut self.block, word);
    }

    // Puts words, a space before each. A table has a thousand of them: they are spelled in their place where it has room, and formatting each takes
    // six times as long.
    pub(crate) fn put_spaced(&mut self, words: &[u16]) {
        let mut sink = self.sink;
        for word in words {
            if sink.at <= LAST_PLACE {
                self.block[sink.at] = b' ';
                sink.at = spell_word(&mut self.block, sink.at + 1, *word);
            } else {
                sink = sink.put(&mut self.block, b' ');
                sink = sink.put_word(&mut self.block, *word);
            }
        }
        self.sink = sink;
    }

    // Puts so many spaces, at most those of a column.
    pub(crate) fn put_spaces(&mut self, count: usize) {
        let spaces = &SPACES[..count.min(SPACES.len())];
        self.sink = self.sink.put_text(&mut self.block, spaces);
    }

    // Says whether a text fits behind what waits.
    fn fits(&self, text: &str) -> bool {
        text.len() <= self.block.len().saturating_sub(self.sink.at)
    }

    // Puts a name as it was given, with control bytes as `?`.
    pub(crate) fn put_name(&mut self, name: &[u8]) {
        self.sink = self.sink.put_name(&mut self.block, name);
    }

    // Writes what waits. Gives the system's number for why a write has failed, this one or one before it, as `complain` takes it.
    pub(crate) fn flush(&mut self) -> Result<(), i32> {
        self.sink = self.sink.flush(&self.block);
        match self.sink.failure {
            Some(why) => Err(why),
            None => Ok(()),
        }
    }
}

// Says whether a text is a number in decimal.
fn is_number(text: &str) -> bool {
    text.bytes().all(|byte| byte.is_ascii_digit())
}

// A number goes into one block whole, and what stands between numbers fills a block up: who hears standard error too finds what it says of a line at one place.
impl fmt::Write for Output {
    fn write_str(&mut self, text: &str) -> fmt::Result {
        if self.fits(text) || is_number(text) {
            self.put_text(text);
            return Ok(());
        }
        for byte in text.bytes() {
            self.put(byte);
        }
        Ok(())
    }
}
