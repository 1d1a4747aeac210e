// What a command is to the terminal: own, exempt, legal (01 The terminal). Meaning:
// specs/Commands.antt. Refusals: none.
ghost use Rattle.std.specs.Prelude.{◌≡◌};
ghost use Rattle.terminal.specs.Commands.{is_valid_record, is_own, is_exempt, mask_of, is_held_illegal, is_legal};

use crate::states::{Own, Setup};
use records::WordRecord;
use words::{COMMAND_SYNC, CommandWord};

// The mode codes by their names in 01's table. Numbers and no enum: any of 32 comes, reserved ones too, and is answered.
pub(crate) const SYNCHRONIZE: u16 = 1;

pub(crate) const TRANSMIT_STATUS_WORD: u16 = 2;

pub(crate) const SELF_TEST: u16 = 3;

pub(crate) const SHUTDOWN: u16 = 4;

pub(crate) const SHUTDOWN_OVERRIDE: u16 = 5;

pub(crate) const INHIBIT: u16 = 6;

pub(crate) const INHIBIT_OVERRIDE: u16 = 7;

pub(crate) const RESET: u16 = 8;

pub(crate) const TRANSMIT_VECTOR_WORD: u16 = 16;

pub(crate) const SYNCHRONIZE_WITH_DATA: u16 = 17;

pub(crate) const TRANSMIT_LAST_COMMAND: u16 = 18;

pub(crate) const TRANSMIT_BIT_WORD: u16 = 19;

pub(crate) const SELECTED_SHUTDOWN: u16 = 20;

pub(crate) const SELECTED_OVERRIDE: u16 = 21;

// Says whether the record's word is valid.
pub(crate) fn is_valid_record(heard: WordRecord) -> bool
    ensures answer { result ≡ is_valid_record heard }
{
    heard.is_valid()
}

// Says whether the record is an own command.
pub(crate) fn is_own(own: Own, heard: WordRecord) -> bool
    ensures answer { result ≡ is_own own heard }
{
    let command = CommandWord(heard.word);
    is_valid_record(heard)
        & (heard.sync == COMMAND_SYNC)
        & ((command.address() == own.address) | command.is_broadcast())
}

// Says whether the command leaves the stored status as it is: transmit status word and transmit last command, to the own address.
pub(crate) fn is_exempt(own: Own, command: CommandWord) -> bool
    ensures answer { result ≡ is_exempt own command.0 }
{
    let code = command.count();
    (command.address() == own.address)
        & command.is_transmit()
        & command.is_mode()
        & ((code == TRANSMIT_STATUS_WORD) | (code == TRANSMIT_LAST_COMMAND))
}

// Gives the mask of the command's T/R bit and subaddress.
fn mask(setup: Setup, command: CommandWord) -> u32
    ensures mask { result ≡ mask_of setup command.0 }
{
    let at = command.subaddress() as usize;
    if command.is_transmit() {
        setup.transmit[at]
    } else {
        setup.receive[at]
    }
}

// Says whether the terminal holds the mode command illegal, whatever the masks.
fn is_held_illegal(command: CommandWord) -> bool
    ensures answer { result ≡ is_held_illegal command.0 }
{
    let code = command.count();
    (code == SELECTED_SHUTDOWN) | (code == SELECTED_OVERRIDE) | !words::is_allowed(command)
}

// Says whether the command is legal: by one bit of its mask, and by what is illegal besides.
pub(crate) fn is_legal(setup: Setup, command: CommandWord) -> bool
    ensures answer { result ≡ is_legal setup command.0 }
{
    let allowed = words::mask_allows(mask(setup, command), command.count());
    if command.is_mode() {
        allowed & !is_held_illegal(command)
    } else {
        allowed & !(command.is_transmit() & command.is_broadcast())
    }
}
