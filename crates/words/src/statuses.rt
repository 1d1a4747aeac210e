// Status words built and read (01 Time and words). Meaning: specs/Words.antt. Refusals: none.
ghost use Rattle.std.specs.Prelude.{◌≡◌};
ghost use Rattle.words.specs.Words.{address_of, bit_of, has_flag, with_flag, flags_of, status_of};

use crate::fields::{field, placed};

// A word read as a status: "neither must a command word and a status word" be mixable.
#[derive(Clone, Copy, Debug, PartialEq, Eq)]
pub struct StatusWord(pub u16);

// The flags that the card sets. Instrumentation, the reserved bits and bus control acceptance are not among them.
#[derive(Clone, Copy, Debug, PartialEq, Eq)]
pub enum Flag {
    MessageError,
    ServiceRequest,
    BroadcastReceived,
    Busy,
    Subsystem,
    Terminal,
}

impl Flag {
    // Gives the flag's bit: "message error 0400, .. service request 0100, .. broadcast received 0010, busy 0008, subsystem flag 0004, ..
    // terminal flag 0001 (hexadecimal)". They are no numbers in a row, so each stands in its arm.
    // Tables: none. Refusals: none.
    pub fn bit(self) -> u16
        ensures bit { result ≡ bit_of self }
    {
        match self {
            Flag::MessageError => 0x0400,
            Flag::ServiceRequest => 0x0100,
            Flag::BroadcastReceived => 0x0010,
            Flag::Busy => 0x0008,
            Flag::Subsystem => 0x0004,
            Flag::Terminal => 0x0001,
        }
    }
}

impl StatusWord {
    // All six flags.
    const FLAGS: u16 = 0x051D;

    // Gives the status word of the low 5 bits of the address and of those bits of the flags that are flags.
    // Tables: none. Refusals: none.
    pub fn build(address: u16, flags: u16) -> StatusWord
        ensures word { result.0 ≡ status_of address flags }
    {
        let among = StatusWord(flags);
        StatusWord(placed(address, 11, 5) | among.flags())
    }

    // Gives the address field, 0 to 31. The command word has one too: C names both, and a trait over two such lines would be longer.
    // Tables: none. Refusals: none.
    pub fn address(self) -> u16
        ensures field { result ≡ address_of self.0 }
    {
        field(self.0, 11, 5)
    }

    // Gives the six flags, each at its own bit, and 0 elsewhere.
    // Tables: none. Refusals: none.
    pub fn flags(self) -> u16
        ensures flags { result ≡ flags_of self.0 }
    {
        self.0 & Self::FLAGS
    }

    // Says whether the flag is set.
    // Tables: none. Refusals: none.
    pub fn has(self, flag: Flag) -> bool
        ensures answer { result ≡ has_flag flag self.0 }
    {
        self.0 & flag.bit() != 0
    }

    // Gives the word with the flag set and all else as it was.
    // Tables: none. Refusals: none.
    pub fn with(self, flag: Flag) -> StatusWord
        ensures word { result.0 ≡ with_flag flag self.0 }
    {
        StatusWord(self.0 | flag.bit())
    }
}
