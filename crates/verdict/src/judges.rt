// The verdict on a plan: the returned records checked and judged in one walk (01 Controller verdicts). Meaning: specs/Verdicts.antt.
// Refusals: 7; 5 for bus, E, Q, Q below E; then record by record 3, 4, 5, 6.
ghost use Rattle.std.specs.Prelude.{◌≡◌};
ghost use Rattle.verdict.specs.Facts.{fact_of};
ghost use Rattle.verdict.specs.Verdicts.{expected_at, sent_first, record_checks, finish_of, returned_of, decide, judged_of};

use crate::facts::{data_fact, end_of, fact_of};
use crate::plans::Plan;
use crate::verdicts::Verdict;
use records::{LAST_BUS, RECORD_BYTES, WordRecord, read_record};
use words::{Moment, Refusal};

// A verdict, and how many returned records were looked at for it, at most 35. The checks before the verdict are not counted.
#[derive(Clone, Copy, Debug, PartialEq, Eq)]
pub struct Finding {
    pub verdict: Verdict,
    pub looked: u8,
}

// What stands beside a refusal that is passed on: nobody gets it.
const NOTHING_FOUND: Finding = Finding {
    verdict: Verdict::Good,
    looked: 0,
};

impl Plan {
    // Checks a returned record, the one before it at that moment.
    #[tactic(auto, unfolding(crate::specs::Verdicts::record_checks))]
    fn check_record(self, before: Moment, heard: WordRecord) -> Result<(), Refusal>
        ensures checks { result ≡ record_checks self before.0 heard }
    {
        if heard.bus != self.bus {
            return Err(Refusal::OutOfRange);
        }
        if (before < heard.time) & (heard.time <= self.until) {
            return Ok(());
        }
        Err(Refusal::OutOfOrder)
    }

    // Gives the fact that the returned record at that place shows, counted from 0, the word before it at that time, or none. So a verdict is
    // found record by record (`look_by_look`).
    // Tables: none. Refusals: none; a plan is taken as it is.
    pub fn fact_at(self, place: u64, last: Moment, heard: WordRecord) -> Option<Verdict>
        ensures fact { result ≡ fact_of (expected_at self place) last.0 heard }
    {
        fact_of(self.expected(place), last, heard)
    }

    // Gives what the record at this place shows. Most are data words: for them the plan is not asked again.
    #[tactic(auto, using(crate::proofs::Places::first_data), unfolding(crate::specs::Facts::fact_of))]
    fn look(self, sent: u64, place: u64, last: Moment, heard: WordRecord) -> Option<Verdict>
        requires { sent ≡ sent_first self }
        ensures fact { result ≡ fact_of (expected_at self place) last.0 heard }
    {
        if (place != 0) & (place <= sent) {
            return data_fact(last, heard);
        }
        self.fact_at(place, last, heard)
    }

    // Gives the verdict: the fact that was found, or where none was, what the plan says where no record is left after so many, the last at that
    // moment.
    // Tables: none. Refusals: none; a plan is taken as it is.
    #[tactic(auto, unfolding(crate::specs::Verdicts::finish_of))]
    pub fn finish(self, found: Option<Verdict>, place: u64, last: Moment) -> Verdict
        ensures verdict { result ≡ finish_of self found place last.0 }
    {
        match found {
            Some(fact) => fact,
            None => end_of(self.expected(place), last, self.until),
        }
    }

    // Gives the verdict on the returned records of a plan that is not refused, or the first refusal among them. The checks run to the last
    // record; a record is looked at while no fact is found, and as long as that is so its place is the number looked at before it.
    fn walk(self, records: &[u8]) -> Result<Finding, Refusal>
        ensures judged { result ≡ decide self (returned_of self records.now) }
    {
        let sent = self.sent_first();
        let mut looked: u64 = 0;
        let mut last = self.last;
        let mut found: Option<Verdict> = None;
        for bytes in records.chunks(RECORD_BYTES) {
            let read = read_record(bytes, LAST_BUS);
            // document 01 names this form for the place where a refusal of the reader is passed on
            let Ok(heard) = read else {
                return read.map(|_| NOTHING_FOUND);
            };
            self.check_record(last, heard)?;
            if found.is_none() {
                found = self.look(sent, looked, last, heard);
                looked += 1;
            }
            last = heard.time;
        }
        let verdict = self.finish(found, looked, last);
        // No plan, possible or not, expects more than 66 records: the number fits.
        Ok(Finding {
            verdict,
            looked: looked as u8,
        })
    }

    // Gives the verdict on the returned records, 16 bytes each, and how many were looked at, or the refusal.
    // Tables: records is only read. Refusals: 7; 5 for bus, E, Q, Q below E; then record by record 3, 4, 5, 6.
    #[tactic(auto, unfolding(crate::specs::Verdicts::judged_of))]
    pub fn judge(self, records: &[u8]) -> Result<Finding, Refusal>
        ensures judged { result ≡ judged_of self records.now }
    {
        self.check()?;
        self.walk(records)
    }
}
