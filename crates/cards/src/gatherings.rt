// A line as it comes in, byte by byte: runs of spaces are made one, and those in front and at the end are dropped.

// What a line is by its first byte.
#[derive(Clone, Copy, PartialEq, Eq)]
enum Kind {
    Empty,
    // it begins with #
    Remark,
    Call,
}

// the longest line that is kept
const LINE_BYTES: usize = 262144;

// The line so far. One that fills it is longer than any call. Its memory is fixed, so that its length stands beside it.
#[derive(Drop)]
pub(crate) struct Line {
    bytes: [u8; LINE_BYTES],
    // how many bytes were kept
    length: usize,
    // its number, counted from 1
    pub(crate) number: u64,
    kind: Kind,
    // a space stands before the next byte
    spaced: bool,
}

impl Line {
    // Gives the first line before its first byte.
    pub(crate) fn first() -> Line {
        Line {
            bytes: [0; LINE_BYTES],
            length: 0,
            number: 1,
            kind: Kind::Empty,
            spaced: false,
        }
    }

    // Makes it the next line before its first byte.
    pub(crate) fn start_next(&mut self) {
        self.length = 0;
        self.number = self.number.wrapping_add(1);
        self.kind = Kind::Empty;
        self.spaced = false;
    }

    // "A line that is empty or begins with `#` writes nothing."
    pub(crate) fn is_silent(&self) -> bool {
        self.kind != Kind::Call
    }

    // The bytes that were kept.
    pub(crate) fn text(&self) -> &[u8] {
        &self.bytes[..self.length.min(LINE_BYTES)]
    }

    // Keeps a byte at the end, where there is room.
    fn keep(&mut self, byte: u8) {
        if self.length < LINE_BYTES {
            self.bytes[self.length] = byte;
            self.length += 1;
        }
    }

    // Takes one byte of the line. A space waits for the byte behind it, and is not kept in front.
    pub(crate) fn take(&mut self, byte: u8) {
        if self.kind == Kind::Empty {
            self.kind = if byte == b'#' {
                Kind::Remark
            } else {
                Kind::Call
            };
        }
        if byte == b' ' {
            self.spaced = true;
            return;
        }
        if self.spaced & (self.length > 0) {
            self.keep(b' ');
        }
        self.keep(byte);
        self.spaced = false;
    }
}
