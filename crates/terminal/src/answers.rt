// Settling: the answer's status, its data words, whether it is withheld, its sending, and the data words stored (01 The terminal: "Settling: ..").
// Meaning: specs/Settling.antt, specs/Rules.antt. Inner functions: rule 1 calls `settle`. Refusals: none.
ghost use Rattle.std.specs.Prelude.{◌≡◌, ◌+◌, ◌^◌, ◌<◌, length};
ghost use Rattle.words.specs.Words.{due_distance};
ghost use Rattle.terminal.specs.Commands.{is_legal};
ghost use Rattle.terminal.specs.Settling.{stored_of, with_if, settled_status, no_words, one_word, table_words, mode_words, legal_reply, reply_of, stores_data, is_withheld, answer_of, sending_of};
ghost use Rattle.terminal.specs.Rules.{status_now, reply_now, settled_of};
ghost use Rattle.terminal.specs.Works.{work_of};

use crate::commands::{
    TRANSMIT_BIT_WORD, TRANSMIT_LAST_COMMAND, TRANSMIT_VECTOR_WORD, is_exempt, is_legal,
};
use crate::rules::Passed;
use crate::states::{Message, Sending, Terminal, Work};
use crate::tables::{SUBADDRESS_WORDS, fetch, is_shut, store};
use words::{CommandWord, Flag, Moment, StatusWord};

// What an event carries: "(bus, due time, status, number of data words, words)", the words past the number 0.
#[derive(Clone, Copy)]
pub struct Answer {
    pub due: Moment,
    pub words: [u16; 32],
    pub status: StatusWord,
    pub count: u16,
    pub bus: u8,
}

// The data words of an answer, those past the number 0.
#[derive(Clone, Copy)]
pub struct Reply {
    pub words: [u16; 32],
    pub count: u16,
}

impl Reply {
    // No data words.
    fn none() -> Reply
        ensures reply { result ≡ no_words }
    {
        Reply {
            count: 0,
            words: [0; 32],
        }
    }

    // One data word.
    fn one(word: u16) -> Reply
        ensures reply { result ≡ one_word word }
    {
        let mut words = [0u16; 32];
        words[0] = word;
        Reply { count: 1, words }
    }

    // The words of the command's subaddress, so many as it asks for.
    fn from_table(table: &[u16], command: CommandWord) -> Reply
        requires { length table.now ≡ 1024 }
        ensures reply { result ≡ table_words table.now command.0 }
    {
        let count = command.words();
        let at = SUBADDRESS_WORDS * (command.subaddress() as usize);
        let words = fetch(table, at, count as usize);
        Reply { count, words }
    }
}

// Gives the status with the flag where it is on.
fn with_if(status: StatusWord, flag: Flag, on: bool) -> StatusWord
    ensures status { result.0 ≡ with_if on flag status.0 }
{
    if on { status.with(flag) } else { status }
}

impl Terminal {
    // Gives the status that the answer to the command has, and that is stored then.
    fn settled_status(self, command: CommandWord, legal: bool) -> StatusWord
        requires { legal ≡ is_legal self.setup command.0 }
        ensures status { result.0 ≡ settled_status self command.0 }
    {
        let own = self.setup.own;
        let host = self.host;
        let stored = self.held.status;
        if is_exempt(own, command) {
            return stored;
        }
        let service = with_if(stored, Flag::ServiceRequest, host.service);
        let busy = with_if(service, Flag::Busy, host.busy);
        let subsystem = with_if(busy, Flag::Subsystem, host.subsystem);
        let terminal = with_if(subsystem, Flag::Terminal, host.defect & !self.held.inhibit);
        with_if(terminal, Flag::MessageError, !legal)
    }

    // Gives the data word that a legal mode command asks for.
    fn mode_words(self, command: CommandWord) -> Reply
        ensures reply { result ≡ mode_words self command.0 }
    {
        let code = command.count();
        if code == TRANSMIT_VECTOR_WORD {
            return Reply::one(self.host.vectorword);
        }
        if code == TRANSMIT_LAST_COMMAND {
            return Reply::one(self.held.command.0);
        }
        if code == TRANSMIT_BIT_WORD {
            return Reply::one(self.host.bitword);
        }
        Reply::none()
    }

    // Gives the data words of the answer to a legal command.
    fn legal_reply(self, command: CommandWord, table: &[u16]) -> Reply
        requires { length table.now ≡ 1024 }
        ensures reply { result ≡ legal_reply self command.0 table.now }
    {
        if command.is_mode() {
            return self.mode_words(command);
        }
        if command.is_transmit() & !self.host.busy {
            return Reply::from_table(table, command);
        }
        Reply::none()
    }

    // Gives the data words of the answer to the command.
    fn reply(self, command: CommandWord, legal: bool, table: &[u16]) -> Reply
        requires { (legal ≡ is_legal self.setup command.0) × (length table.now ≡ 1024) }
        ensures reply { result ≡ reply_of self command.0 table.now }
    {
        if legal {
            self.legal_reply(command, table)
        } else {
            Reply::none()
        }
    }

    // Says whether the message's data words are stored.
    fn stores_data(self, command: CommandWord, legal: bool) -> bool
        requires { legal ≡ is_legal self.setup command.0 }
        ensures answer { result ≡ stores_data self command.0 }
    {
        legal & !command.is_mode() & !command.is_transmit() & !self.host.busy
    }

    // Says whether the answer is withheld.
    fn is_withheld(self) -> bool
        ensures answer { result ≡ is_withheld self }
    {
        let shut = self.held.shut;
        let message = self.message;
        message.command.is_broadcast() | is_shut(shut, message.bus)
    }

    // Gives the answer with that status and these words, or none where it is withheld.
    fn answer(self, status: StatusWord, reply: Reply) -> Option<Answer>
        requires { self.message.last.0 + due_distance < 2 ^ 64 }
        ensures answer { result ≡ answer_of self status.0 reply }
    {
        if self.is_withheld() {
            return None;
        }
        let message = self.message;
        let due = message.last.plus(Self::DUE_DISTANCE);
        let words = reply.words;
        Some(Answer {
            due,
            words,
            status,
            count: reply.count,
            bus: message.bus,
        })
    }

    // Gives the sending of that answer, or none where it is withheld.
    fn sending(self, count: u16) -> Option<Sending>
        requires due_distance_bound { self.message.last.0 + due_distance < 2 ^ 64 }
        requires count_bound { count < 65535 }
        ensures sending { result ≡ sending_of self count }
    {
        if self.is_withheld() {
            return None;
        }
        let message = self.message;
        let from = message.last.plus(Self::DUE_DISTANCE);
        Some(Sending {
            from,
            words: count + 1,
            bus: message.bus,
        })
    }

    // Stores the message's data words where they are to be stored.
    fn store_data(self, legal: bool, receive: &mut [u16])
        requires { (legal ≡ is_legal self.setup self.message.command.0) × (length receive.old ≡ 1024) }
        ensures receive { receive.new ≡ stored_of self receive.old }
    {
        let message = self.message;
        let command = message.command;
        if self.stores_data(command, legal) {
            let words = message.words;
            let at = SUBADDRESS_WORDS * (command.subaddress() as usize);
            store(receive, at, words, command.words() as usize);
        }
    }

    // The message that is due is settled: its answer, its data words stored, the work after it. The masks are asked once.
    pub(crate) fn settle(self, receive: &mut [u16], transmit: &[u16]) -> Passed
        requires { (length receive.old ≡ 1024) × (length transmit.now ≡ 1024) × (self.message.last.0 + due_distance < 2 ^ 64) }
        ensures answer { result.answer ≡ answer_of self (status_now self) (reply_now self transmit.now) }
        ensures work { result.work ≡ work_of (settled_of self transmit.now) }
        ensures receive { receive.new ≡ stored_of self receive.old }
    {
        let setup = self.setup;
        let command = self.message.command;
        let legal = is_legal(setup, command);
        let status = self.settled_status(command, legal);
        let reply = self.reply(command, legal, transmit);
        self.store_data(legal, receive);
        let sending = self.sending(reply.count);
        let held = self.held_after(status, legal);
        let message = Message::none();
        let answer = self.answer(status, reply);
        // with no message there is no next moment
        let work = Work {
            message,
            sending,
            next: None,
            held,
        };
        Passed { work, answer }
    }
}
