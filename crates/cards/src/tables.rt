// The tables and masks that calls lend to the terminal: mask, tables, send, received.
use crate::benches::{Bench, Problem};
use crate::reasons::Reason;
use crate::replies::Reply;

// "receive and transmit table of 1,024 zeros"
const TABLE_WORDS: usize = 1024;

// "words of the tables that later events lend (0 to 2,048 each)"
pub(crate) const LENT_WORDS_MOST: usize = 2048;

// "lending R and T masks (0 to 64 each)"
pub(crate) const LENT_MASKS_MOST: usize = 64;

// "the receive or transmit mask" of a mask line
#[derive(Clone, Copy)]
pub(crate) enum Side {
    Receive,
    Transmit,
}

// What one side lends: the masks for later set-ups and the words, each with what a line can lend past its end, and how many of the words events
// lend.
#[derive(Drop)]
pub(crate) struct Table {
    pub(crate) masks: [u32; LENT_MASKS_MOST],
    pub(crate) words: [u16; LENT_WORDS_MOST],
    pub(crate) lent: usize,
}

impl Table {
    // "every mask FFFFFFFF ..; both tables lent whole"
    pub(crate) fn start() -> Table {
        Table {
            masks: [0xFFFF_FFFF; LENT_MASKS_MOST],
            words: [0; LENT_WORDS_MOST],
            lent: TABLE_WORDS,
        }
    }

    fn set_mask(&mut self, subaddress: usize, mask: u32) {
        if subaddress < LENT_MASKS_MOST {
            self.masks[subaddress] = mask;
        }
    }
}

impl Bench {
    // mask r S MASK, mask t S MASK
    pub(crate) fn set_mask(&mut self, side: Side, subaddress: usize, mask: u32) -> Reply {
        match side {
            Side::Receive => self.receive.set_mask(subaddress, mask),
            Side::Transmit => self.transmit.set_mask(subaddress, mask),
        }
        Reply::Done
    }

    // tables R T
    pub(crate) fn lend_later(&mut self, receive: usize, transmit: usize) -> Reply {
        self.receive.lent = receive;
        self.transmit.lent = transmit;
        Reply::Done
    }

    // send I WORD
    pub(crate) fn send(&mut self, place: usize, word: u16) -> Result<Reply, Problem> {
        if place >= TABLE_WORDS {
            return Err(Problem::NoCall(Reason::Past));
        }
        self.transmit.words[place] = word;
        Ok(Reply::Done)
    }

    // received I, received I N
    pub(crate) fn received(&self, place: usize, count: usize) -> Result<Reply, Problem> {
        if (place >= TABLE_WORDS) || (count > TABLE_WORDS - place) {
            return Err(Problem::NoCall(Reason::Past));
        }
        Ok(Reply::Words(place..place + count))
    }
}
