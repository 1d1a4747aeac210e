// The parts of a line, one after the other: "Words on a line are separated by spaces", here by one each, since a line is gathered so. And
// what they spell: "Numbers are decimal, but for 16-bit words (4 hexadecimal digits), masks (8) and bytes (2 each)". A part that is missing,
// is no number or does not fit is None.
use crate::tables::Side;
use lines::{read_decimal, read_hexadecimal};
use records::WordRecord;
use std::num::TryFromIntError;
use verdict::Plan;
use words::{CommandWord, Moment};

// What is left of a line.
#[derive(Drop)]
pub(crate) struct Parts<'a> {
    rest: &'a [u8],
}

impl<'a> Parts<'a> {
    pub(crate) fn of(line: &'a [u8]) -> Parts<'a> {
        Parts { rest: line }
    }

    // Gives all that is left, where anything is.
    pub(crate) fn take_rest(&mut self) -> Option<&'a [u8]> {
        let rest = self.rest;
        if rest.is_empty() {
            return None;
        }
        self.rest = b"";
        Some(rest)
    }

    // Gives the next part, and leaves what is behind the space at its end.
    pub(crate) fn take(&mut self) -> Option<&'a [u8]> {
        let rest = self.take_rest()?;
        match rest.iter().position(|byte| *byte == b' ') {
            Some(end) => {
                self.rest = &rest[end + 1..];
                Some(&rest[..end])
            }
            None => Some(rest),
        }
    }

    // Says whether no part is left.
    pub(crate) fn is_empty(&self) -> bool {
        self.rest.is_empty()
    }

    // Gives a decimal number that fits its type. What is out of a narrower range than that is for the call to refuse.
    pub(crate) fn take_number<T: TryFrom<u64, Error = TryFromIntError> + Drop>(
        &mut self,
    ) -> Option<T> {
        T::try_from(read_decimal(self.take()?)?).ok()
    }

    // Gives what so many hexadecimal digits spell, likewise.
    fn take_hexadecimal<T: TryFrom<u64, Error = TryFromIntError> + Drop>(
        &mut self,
        digits: usize,
    ) -> Option<T> {
        T::try_from(read_hexadecimal(self.take()?, digits)?).ok()
    }

    pub(crate) fn take_at_most(&mut self, most: usize) -> Option<usize> {
        self.take_number().filter(|size| *size <= most)
    }

    pub(crate) fn take_flag(&mut self) -> Option<bool> {
        match self.take_number::<u64>()? {
            0 => Some(false),
            1 => Some(true),
            _ => None,
        }
    }

    pub(crate) fn take_word(&mut self) -> Option<u16> {
        self.take_hexadecimal(4)
    }

    pub(crate) fn take_mask(&mut self) -> Option<u32> {
        self.take_hexadecimal(8)
    }

    pub(crate) fn take_side(&mut self) -> Option<Side> {
        match self.take()? {
            b"r" => Some(Side::Receive),
            b"t" => Some(Side::Transmit),
            _ => None,
        }
    }

    // TIME BUS SYNC FAULTS WORD PARITY. What is out of range is for the call to refuse.
    pub(crate) fn take_record(&mut self) -> Option<WordRecord> {
        Some(WordRecord {
            time: Moment(self.take_number()?),
            bus: self.take_number()?,
            sync: self.take_number()?,
            faults: self.take_number()?,
            word: self.take_word()?,
            parity: self.take_number()?,
        })
    }

    // N C1 C2 BUS E Q
    pub(crate) fn take_plan(&mut self) -> Option<Plan> {
        Some(Plan {
            commands: self.take_number()?,
            first: CommandWord(self.take_word()?),
            second: CommandWord(self.take_word()?),
            bus: self.take_number()?,
            last: Moment(self.take_number()?),
            until: Moment(self.take_number()?),
        })
    }
}
