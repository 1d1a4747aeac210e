// A sink: where the bytes go, and how many of them wait (01 Bench cards; 02 c). Any value of it is taken. Meaning: specs/Sinks.antt. Refusals: none.
ghost use Rattle.std.specs.Prelude.{◌≡◌, None, [], ◌∷◌, ◌≤◌, ◌+◌, length, take};
ghost use Rattle.lines.specs.Sinks.{block_bytes, fits_behind, place_after, put_at, block_after, word_text, decimal_text, Goes};
ghost use Rattle.lines.specs.Spells.{room_at};
ghost use Rattle.lines.specs.Names.{place_after_name, block_after_name, place_after_named, block_after_named};

use crate::files::number_of;
use crate::names::shown;
use crate::spells::{spell_byte, spell_text, word_digits};
use std::io::{Error, ErrorKind, Print, Result, Stdout};

// the number of standard error, which needs no handle: what is said there is said whatever becomes of it
pub(crate) const ERRORS: i32 = 2;

// The bytes that wait, from the front on.
pub type Block = [u8; 65536];

const BLOCK_BYTES: usize = 65536;

// An open file: standard output, standard error, or one that was made, by its descriptor's number. Three kinds and no more, so that a sink is copied.
#[derive(Clone, Copy)]
pub enum Target {
    Output(Stdout),
    Errors,
    Made(i32),
}

impl Target {
    // Writes all bytes, or gives why it could not; of a file that was made its owner finds that out (`failure_of`).
    fn write(self, bytes: &[u8]) -> Result<()> {
        match self {
            Target::Output(output) => Print::write_all(&output, bytes),
            Target::Errors => write_to(ERRORS, bytes),
            Target::Made(number) => write_to(number, bytes),
        }
    }
}

// Writes all bytes to an open file.
fn write_to(number: i32, bytes: &[u8]) -> Result<()> {
    if io::write_all(number, bytes) {
        Ok(())
    } else {
        Err(Error::from(ErrorKind::Other))
    }
}

// Where bytes go, how many wait in the block, and the system's number for why a write has failed, if one has: then the others are dropped. The block is lent with each
// call: no library takes memory of its own, and a sink that kept the loan would keep those that spell into the block from it.
#[derive(Clone, Copy)]
pub struct Sink {
    pub fd: Target,
    pub at: usize,
    pub failure: Option<i32>,
}

impl Sink {
    // Gives a sink for an open file, with no byte waiting.
    // Tables: none. Refusals: none.
    pub fn to(fd: Target) -> Sink
        ensures place { result.at ≡ 0 }
        ensures file { result.fd ≡ fd }
        ensures unfailed { result.failure ≡ None }
    {
        Sink {
            fd,
            at: 0,
            failure: None,
        }
    }

    // Writes bytes at once, with none waiting behind them. Nothing follows what failed, so that a file never has a hole.
    fn write(self, bytes: &[u8]) -> Sink
        ensures place { result.at ≡ 0 }
        ensures goes { Goes self result }
    {
        let mut next = self;
        next.at = 0;
        if self.failure.is_none() {
            next.failure = self.fd.write(bytes).err().map(number_of);
        }
        next
    }

    // Gives the sink with all that waited written.
    // Tables: block is only read. Refusals: none; `failure` says whether a write has failed.
    pub fn flush(self, block: &Block) -> Sink
        ensures place { result.at ≡ 0 }
        ensures goes { Goes self result }
    {
        self.write(front(block, self.at))
    }

    // Gives the sink with one byte more. A full block is written first. It is no text of one, which would be copied as any other.
    // Tables: block holds what was put where it waits, and is else as before. Refusals: none; `failure` says whether a write has failed.
    pub fn put(self, block: &mut Block, byte: u8) -> Sink
        ensures place { result.at ≡ place_after self.at 1 }
        ensures block { block.new ≡ block_after block.old self.at (byte ∷ []) }
        ensures goes { Goes self result }
    {
        let mut next = self;
        let at = self.at;
        if at < BLOCK_BYTES {
            next.at = spell_byte(block, at, byte);
            return next;
        }
        next = self.flush(block);
        next.at = spell_byte(block, 0, byte);
        next
    }

    // Gives the sink with room for so many bytes, at most a block: where they do not fit behind what waits, that is written first.
    // Tables: block is only read. Refusals: none; `failure` says whether a write has failed.
    pub fn with_room(self, block: &Block, count: usize) -> Sink
        ensures place { result.at ≡ room_at self.at count }
        ensures goes { Goes self result }
    {
        if fits(self.at, count) {
            return self;
        }
        self.flush(block)
    }

    // Puts a text behind what waits, where it fits.
    fn append(self, block: &mut Block, text: &[u8]) -> Sink
        requires { self.at + length text.now ≤ block_bytes }
        ensures place { result.at ≡ self.at + length text.now }
        ensures block { block.new ≡ put_at block.old self.at text.now }
        ensures goes { Goes self result }
    {
        let mut next = self;
        next.at = spell_text(block, self.at, text);
        next
    }

    // Gives the sink with a text more. Where it does not fit behind what waits, that is written first, and a text of a block or more with it.
    // Tables: block holds the text where it waits, and is else as before; text is only read. Refusals: none; `failure` says whether a write has failed.
    pub fn put_text(self, block: &mut Block, text: &[u8]) -> Sink
        ensures place { result.at ≡ place_after self.at (length text.now) }
        ensures block { block.new ≡ block_after block.old self.at text.now }
        ensures goes { Goes self result }
    {
        if fits(self.at, text.len()) {
            return self.append(block, text);
        }
        let flushed = self.flush(block);
        if text.len() < BLOCK_BYTES {
            return flushed.append(block, text);
        }
        flushed.write(text)
    }

    // Gives the sink with a number more, in decimal. It asks for the room of its digits; `spell_decimal` has room, and is quicker.
    // Tables: block holds what was put where it waits, and is else as before. Refusals: none; `failure` says whether a write has failed.
    pub fn put_decimal(self, block: &mut Block, number: u64) -> Sink
        ensures place { result.at ≡ place_after self.at (length (decimal_text number)) }
        ensures block { block.new ≡ block_after block.old self.at (decimal_text number) }
        ensures goes { Goes self result }
    {
        let mut digits = [0u8; 20];
        let count = io::decimal(number, &mut digits);
        self.put_text(block, &digits[..count])
    }

    // Gives the sink with a word more, as four hexadecimal capitals.
    // Tables: block holds what was put where it waits, and is else as before. Refusals: none; `failure` says whether a write has failed.
    pub fn put_word(self, block: &mut Block, word: u16) -> Sink
        ensures place { result.at ≡ place_after self.at 4 }
        ensures block { block.new ≡ block_after block.old self.at (word_text word) }
        ensures goes { Goes self result }
    {
        let digits = word_digits(word);
        self.put_text(block, &digits)
    }

    // Gives the sink with a text more, and the number behind it, in decimal.
    // Tables: block holds what was put where it waits, and is else as before; text is only read. Refusals: none; `failure` says whether a write has failed.
    pub fn put_number(self, block: &mut Block, text: &[u8], number: u64) -> Sink
        ensures place { result.at ≡ place_after (place_after self.at (length text.now)) (length (decimal_text number)) }
        ensures block { block.new ≡ block_after (block_after block.old self.at text.now) (place_after self.at (length text.now)) (decimal_text number) }
        ensures goes { Goes self result }
    {
        self.put_text(block, text).put_decimal(block, number)
    }

    // Gives the sink with a name more, each byte as it is shown.
    // Tables: block holds what was put where it waits, and is else as before; name is only read. Refusals: none; `failure` says whether a write has failed.
    pub fn put_name(self, block: &mut Block, name: &[u8]) -> Sink
        ensures place { result.at ≡ place_after_name self.at name.now }
        ensures block { block.new ≡ block_after_name block.old self.at name.now }
        ensures goes { Goes self result }
    {
        let mut after = self;
        for byte in name {
            after = after.put(block, shown(*byte));
        }
        after
    }

    // Gives the sink with a line more that ends in a name: "# error NAME".
    // Tables: block holds what was put where it waits, and is else as before; begin and name are only read. Refusals: none; `failure` says whether a write has failed.
    pub fn put_named(self, block: &mut Block, begin: &[u8], name: &[u8]) -> Sink
        ensures place { result.at ≡ place_after_named self.at begin.now name.now }
        ensures block { block.new ≡ block_after_named block.old self.at begin.now name.now }
        ensures goes { Goes self result }
    {
        let begun = self.put_text(block, begin);
        begun.put_name(block, name).put(block, b'\n')
    }
}

// Says whether so many bytes fit behind those that wait.
fn fits(at: usize, count: usize) -> bool
    ensures fits { result ≡ fits_behind at count }
{
    at <= BLOCK_BYTES && count <= BLOCK_BYTES - at
}

// Gives the first so many bytes, or all where there are fewer. Taking a slice lets a part of the block be lent on.
fn front(block: &[u8], count: usize) -> &[u8]
    ensures bytes { result.now ≡ take count block.now }
{
    &block[..count.min(block.len())]
}
