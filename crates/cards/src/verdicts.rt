// The calls about a plan and the byte buffer: plan, back, bytes, judge, looked, file.
use crate::benches::{Bench, Problem};
use crate::reasons::Reason;
use crate::replies::Reply;
use records::WordRecord;
use verdict::{Finding, Plan};

impl Bench {
    // plan N C1 C2 BUS E Q
    pub(crate) fn take_plan(&mut self, plan: Plan) -> Reply {
        self.plan = Some(plan);
        self.buffer.clear();
        Reply::Done
    }

    // back TIME BUS SYNC FAULTS WORD PARITY
    pub(crate) fn back(&mut self, heard: WordRecord) -> Result<Reply, Problem> {
        self.buffer.append(heard)?;
        Ok(Reply::Done)
    }

    // bytes HEX.., bytes none
    pub(crate) fn bytes(&mut self, text: &[u8]) -> Result<Reply, Problem> {
        self.buffer.append_spelled(text)?;
        Ok(Reply::Done)
    }

    // Judges the plan, the buffer being what came back: judge, looked
    pub(crate) fn judge(&self) -> Result<Finding, Problem> {
        let plan = self.plan.ok_or(Reason::NoPlan)?;
        Ok(plan.judge(self.buffer.filled())?)
    }

    // file
    pub(crate) fn file(&self) -> Result<Reply, Problem> {
        let count = records::count_records(self.buffer.filled())?;
        Ok(Reply::Records(count))
    }
}
