// The bench: what one line leaves to the next. And the calls made on it, which stand in terminals, tables and verdicts.
use crate::buffers::Buffer;
use crate::calls::Call;
use crate::reasons::Reason;
use crate::replies::Reply;
use crate::tables::Table;
use crate::terminals::first_terminal;
use crate::usages::write_calls;
use terminal::Terminal;
use verdict::Plan;
use words::Refusal;

#[derive(Drop)]
pub(crate) struct Bench {
    pub(crate) terminal: Terminal,
    pub(crate) receive: Table,
    pub(crate) transmit: Table,
    pub(crate) buffer: Buffer,
    pub(crate) plan: Option<Plan>,
}

// Why a call has not been made: it was refused, or its line is none. Either leaves all as it was.
pub(crate) enum Problem {
    Refused(Refusal),
    NoCall(Reason),
}

impl From<Refusal> for Problem {
    fn from(refusal: Refusal) -> Problem {
        Problem::Refused(refusal)
    }
}

impl From<Reason> for Problem {
    fn from(reason: Reason) -> Problem {
        Problem::NoCall(reason)
    }
}

impl Bench {
    // "At the start: .. every mask FFFFFFFF ..; both tables lent whole; an empty byte buffer; no plan."
    pub(crate) fn start() -> Bench {
        Bench {
            terminal: first_terminal(),
            receive: Table::start(),
            transmit: Table::start(),
            buffer: Buffer::empty(),
            plan: None,
        }
    }

    // Makes a call, and gives what is to be written of it.
    pub(crate) fn make(&mut self, call: Call) -> Result<Reply, Problem> {
        match call {
            Call::Event(event) => self.happen(event),
            Call::SetUp {
                address,
                receive,
                transmit,
            } => self.set_up(address, receive, transmit),
            Call::Host(setting) => Ok(self.set(setting)),
            Call::Mask {
                side,
                subaddress,
                mask,
            } => Ok(self.set_mask(side, subaddress, mask)),
            Call::Tables { receive, transmit } => Ok(self.lend_later(receive, transmit)),
            Call::Send { place, word } => self.send(place, word),
            Call::Received { place, count } => self.received(place, count),
            Call::State => Ok(Reply::State),
            Call::Spacing => Ok(Reply::Spacing),
            Call::Plan(plan) => Ok(self.take_plan(plan)),
            Call::Back(heard) => self.back(heard),
            Call::Bytes(text) => self.bytes(text),
            Call::Judge => Ok(Reply::Verdict(self.judge()?.verdict)),
            Call::Looked => Ok(Reply::Looked(self.judge()?.looked)),
            Call::File => self.file(),
            Call::Help => {
                write_calls();
                Ok(Reply::Done)
            }
        }
    }
}
