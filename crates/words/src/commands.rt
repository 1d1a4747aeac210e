// Command words taken apart and put together (01 Time and words). Meaning: specs/Words.antt. Refusals: none.
ghost use Rattle.std.specs.Prelude.{◌≡◌};
ghost use Rattle.words.specs.Words.{address_of, transmit_of, subaddress_of, count_of, command_of, words_of, is_transmit, is_broadcast, is_mode, awaited_of};

use crate::fields::{field, placed};

// A word read as a command: "neither must a command word and a status word" be mixable.
#[derive(Clone, Copy, Debug, PartialEq, Eq)]
pub struct CommandWord(pub u16);

impl CommandWord {
    // "Address 31 is broadcast."
    pub const BROADCAST: u16 = 31;

    // Gives the command word of the low 5, 1, 5 and 5 bits of the four parts.
    // Tables: none. Refusals: none.
    pub fn build(address: u16, transmit: u16, subaddress: u16, count: u16) -> CommandWord
        ensures word { result.0 ≡ command_of address transmit subaddress count }
    {
        CommandWord(
            placed(address, 11, 5)
                | placed(transmit, 10, 1)
                | placed(subaddress, 5, 5)
                | placed(count, 0, 5),
        )
    }

    // Gives the address field, 0 to 31.
    // Tables: none. Refusals: none.
    pub fn address(self) -> u16
        ensures field { result ≡ address_of self.0 }
    {
        field(self.0, 11, 5)
    }

    // Gives the T/R field, 0 or 1.
    // Tables: none. Refusals: none.
    pub fn transmit(self) -> u16
        ensures field { result ≡ transmit_of self.0 }
    {
        field(self.0, 10, 1)
    }

    // Gives the subaddress field, 0 to 31.
    // Tables: none. Refusals: none.
    pub fn subaddress(self) -> u16
        ensures field { result ≡ subaddress_of self.0 }
    {
        field(self.0, 5, 5)
    }

    // Gives the count field as it stands, 0 to 31. In a mode command it is the code.
    // Tables: none. Refusals: none.
    pub fn count(self) -> u16
        ensures field { result ≡ count_of self.0 }
    {
        field(self.0, 0, 5)
    }

    // Gives how many data words the count field asks for, 1 to 32: "Count 0 means 32."
    // Tables: none. Refusals: none.
    pub fn words(self) -> u16
        ensures count { result ≡ words_of self.0 }
    {
        let count = self.count();
        if count == 0 { 32 } else { count }
    }

    // Says whether the terminal transmits: "T/R 1 means the terminal transmits."
    // Tables: none. Refusals: none.
    pub fn is_transmit(self) -> bool
        ensures answer { result ≡ is_transmit self.0 }
    {
        self.transmit() == 1
    }

    // Says whether the command goes to all terminals.
    // Tables: none. Refusals: none.
    pub fn is_broadcast(self) -> bool
        ensures answer { result ≡ is_broadcast self.0 }
    {
        self.address() == Self::BROADCAST
    }

    // Says whether it is a mode command: "Subaddress 0 or 31 marks a mode command". Every mode test of the card asks this one.
    // Tables: none. Refusals: none.
    pub fn is_mode(self) -> bool
        ensures answer { result ≡ is_mode self.0 }
    {
        let subaddress = self.subaddress();
        (subaddress == 0) | (subaddress == 31)
    }

    // Gives how many data words come behind the command on its bus, 0 to 32: "the count for receive, one for a T/R 0 mode code of 16 or more,
    // else none."
    // Tables: none. Refusals: none.
    pub fn awaited(self) -> u16
        ensures count { result ≡ awaited_of self.0 }
    {
        if self.is_transmit() {
            return 0;
        }
        if self.is_mode() {
            return u16::from(self.count() >= 16);
        }
        self.words()
    }
}
