// One run of the program: the plan read, checked or proposed, its lines written and its file made (02 j). Each function says whether the schedule
// was accepted and all of that was written. The plan is opened to read alone, so that one which gets the number of a closed standard error takes
// none of what is said. Refusals: 15, as the closing line says it.
use crate::complaints::{PROGRAM, complain_of_line, say_proposed};
use crate::explanations::{explain_first, explain_frame, explain_none, explain_refusal};
use crate::files::save;
use crate::outputs::{write_closing, write_named, write_schedule};
use crate::readers::read_plan;
use lines::{complain, is_dash, open_named};
use plans::Draft;
use schedule::Rejection;
use texts::Closing;
use words::Refusal;

// What is asked: the name of the plan, that of the new file, if one is asked for, and whether the command words are.
#[derive(Clone, Copy)]
pub(crate) struct Job<'a> {
    pub(crate) name: &'a [u8],
    pub(crate) out: Option<&'a [u8]>,
    pub(crate) in_words: bool,
}

// Ends the lines by the name of a file that failed.
fn end_named(rt: HostRuntime, name: &[u8]) -> bool {
    write_named(rt, b"# error ", name);
    false
}

// Ends the lines of what was not accepted.
fn end(rt: HostRuntime, closing: Closing) -> bool {
    write_closing(rt, closing);
    false
}

impl<'a> Job<'a> {
    // Says what failed, by the system's number for it, and ends the lines by the name of the file.
    fn fail(self, rt: HostRuntime, why: i32) -> bool {
        complain(&PROGRAM, self.name, why);
        end_named(rt, self.name)
    }

    // Writes all messages and frames.
    fn list(self, rt: HostRuntime, draft: Draft) -> bool {
        let schedule = draft.schedule;
        let firsts = draft.firsts;
        let capacities = draft.capacities;
        write_schedule(rt, self.in_words, schedule, &firsts, &capacities)
    }

    // "more messages, another period or an impossible plan is refused with 15": that line alone.
    fn refuse(self, rt: HostRuntime, draft: Draft, refusal: Refusal) -> bool {
        explain_refusal(draft, self.name);
        end(rt, Closing::Refused(refusal.number()))
    }

    // Ends the lines of a plan that overloads a frame, behind all messages and frames.
    fn reject_frame(self, rt: HostRuntime, draft: Draft, frame: u64) -> bool {
        if !self.list(rt, draft) {
            return false;
        }
        explain_frame(draft, self.name, frame);
        end(rt, Closing::RejectedFrame(frame))
    }

    // Ends the lines of a plan that does not hold. Of a first frame that is not below its period that line stands alone.
    fn reject(self, rt: HostRuntime, draft: Draft, rejection: Rejection) -> bool {
        match rejection {
            Rejection::Refused(refusal) => self.refuse(rt, draft, refusal),
            Rejection::Message(number) => {
                explain_first(draft, self.name, number);
                end(rt, Closing::RejectedMessage(number))
            }
            Rejection::Frame(frame) => self.reject_frame(rt, draft, frame),
        }
    }

    // Ends the lines of a plan that holds, behind all messages and frames and once its file is on the disk, where one is asked for.
    fn accept(self, rt: HostRuntime, draft: Draft) -> bool {
        if !self.list(rt, draft) {
            return false;
        }
        let schedule = draft.schedule;
        let firsts = draft.firsts;
        let capacities = draft.capacities;
        if let Some(out) = self.out {
            if !save(rt, out, schedule, &firsts, &capacities) {
                return end_named(rt, out);
            }
        }
        write_closing(rt, Closing::Accepted)
    }

    // Writes what the check says of a schedule.
    fn check(self, rt: HostRuntime, draft: Draft) -> bool {
        let schedule = draft.schedule;
        let firsts = draft.firsts;
        let capacities = draft.capacities;
        match schedule.check(&firsts, &capacities) {
            Ok(()) => self.accept(rt, draft),
            Err(rejection) => self.reject(rt, draft, rejection),
        }
    }

    // "The planner's own output goes through the same check."
    fn propose(self, rt: HostRuntime, draft: Draft) -> bool {
        let schedule = draft.schedule;
        let capacities = draft.capacities;
        match schedule.propose(&capacities) {
            Ok(Some(firsts)) => {
                say_proposed(self.name, schedule.count, draft.given);
                self.check(rt, draft.with_firsts(firsts))
            }
            Ok(None) => {
                explain_none(draft, self.name);
                end(rt, Closing::NoSchedule)
            }
            Err(refusal) => self.refuse(rt, draft, refusal),
        }
    }

    // Checks a plan that has all its first frames, and else proposes all of them.
    fn judge(self, rt: HostRuntime, draft: Draft) -> bool {
        if draft.unplaced {
            return self.propose(rt, draft);
        }
        self.check(rt, draft)
    }

    // Ends the lines of a plan, whatever stopped its reading.
    fn close(self, rt: HostRuntime, read: Result<Draft, i32>) -> bool {
        match read {
            Ok(draft) => match draft.bad {
                None => self.judge(rt, draft),
                Some(bad) => {
                    complain_of_line(self.name, bad);
                    end(rt, Closing::BadLine(bad.line))
                }
            },
            Err(why) => self.fail(rt, why),
        }
    }

    // Checks or proposes the schedule of a plan, "-" being standard input; a file of it is made where one is asked for. The first line goes out before the
    // plan is opened: where standard output is closed, it would take its number.
    pub(crate) fn plan(self, rt: HostRuntime) -> bool {
        if !write_named(rt, b"# busplan ", self.name) {
            return false;
        }
        if is_dash(self.name) {
            return self.close(rt, read_plan(lines::Source::Input(rt.stdin())));
        }
        match open_named(rt, self.name) {
            // the file stays open to the end, so that no other gets its number
            Ok(file) => {
                let read = read_plan(lines::Source::Opened(&file));
                self.close(rt, read)
            }
            Err(why) => self.fail(rt, why),
        }
    }
}
