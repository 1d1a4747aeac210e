// What the arguments ask (docs/LINES.md, busplan). Refusals: none; a wrong argument is said on standard error, and then nothing else is done.
use crate::complaints::PROGRAM;
use lines::{NAME_BYTES, is_dash, remark};
use status::{ask, count_arguments, is_name, is_option};
use std::num::wrapping_add_usize;

// The options, with the place of OUT, if it is asked for, and the place of the argument behind those that were looked at: of FILE, in the end.
#[derive(Clone, Copy)]
pub(crate) struct Options {
    pub(crate) in_words: bool,
    pub(crate) out: Option<usize>,
    pub(crate) at: usize,
}

// Why a call asks for no plan: it asks for the usage, for nothing that is clear, or an argument is wrong.
#[derive(Clone, Copy)]
pub(crate) enum NoPlan {
    Help,
    Unclear,
    Wrong,
}

// What an argument is where an option may stand.
#[derive(Clone, Copy)]
enum Argument {
    InWords,
    Out,
    Help,
    Last,
    Unknown,
    File,
}

// What one argument, with its value, led to: more may follow, or FILE does.
#[derive(Clone, Copy)]
enum Step {
    More(Options),
    File(Options),
}

// Gives what an argument is. One that is too long for a name has a length of 0, and is looked at as one.
fn argument_of(text: &[u8]) -> Argument {
    match text {
        b"-v" => Argument::InWords,
        b"-o" => Argument::Out,
        b"-h" | b"--help" => Argument::Help,
        b"--" => Argument::Last,
        _ => {
            if is_option(text) {
                return Argument::Unknown;
            }
            Argument::File
        }
    }
}

// Says whether the argument at a place names a file that can be made. Where it does not, standard error says why.
fn is_new_name(rt: HostRuntime, place: usize) -> bool {
    if count_arguments(rt) <= place {
        remark(
            &PROGRAM,
            b"-o",
            b" wants the name of a file, and there is none",
        );
        return false;
    }
    let mut name = [0u8; NAME_BYTES];
    let asked = ask(rt, place, &mut name);
    if !is_name(&PROGRAM, b"OUT", asked) {
        return false;
    }
    if is_dash(&name[..asked.unwrap_or(0)]) {
        remark(
            &PROGRAM,
            b"OUT",
            b" cannot be -: the lines go to standard output, so the schedule needs a name",
        );
        return false;
    }
    true
}

// Says what is wrong with an argument.
fn refuse(argument: &[u8], why: &[u8]) -> Result<Step, NoPlan> {
    remark(&PROGRAM, argument, why);
    Err(NoPlan::Wrong)
}

impl Options {
    // Gives the options before the argument at a place.
    fn start(first: usize) -> Options {
        Options {
            in_words: false,
            out: None,
            at: first,
        }
    }

    // Gives the options with so many arguments more looked at.
    fn after(self, count: usize) -> Options {
        let mut next = self;
        next.at = wrapping_add_usize(self.at, count);
        next
    }

    fn take_in_words(self) -> Result<Step, NoPlan> {
        if self.in_words {
            return refuse(b"-v", b" is given twice");
        }
        let mut next = self.after(1);
        next.in_words = true;
        Ok(Step::More(next))
    }

    fn take_out(self, rt: HostRuntime) -> Result<Step, NoPlan> {
        if self.out.is_some() {
            return refuse(b"-o", b" is given twice");
        }
        let place = self.after(1).at;
        if !is_new_name(rt, place) {
            return Err(NoPlan::Wrong);
        }
        let mut next = self.after(2);
        next.out = Some(place);
        Ok(Step::More(next))
    }

    // Takes the argument behind those that were looked at.
    fn step(self, rt: HostRuntime) -> Result<Step, NoPlan> {
        let mut text = [0u8; NAME_BYTES];
        let length = ask(rt, self.at, &mut text).unwrap_or(0);
        match argument_of(&text[..length]) {
            Argument::InWords => self.take_in_words(),
            Argument::Out => self.take_out(rt),
            Argument::Help => Err(NoPlan::Help),
            Argument::Last => Ok(Step::File(self.after(1))),
            Argument::File => Ok(Step::File(self)),
            Argument::Unknown => refuse(
                &text[..length],
                b" is no option; a file of that name goes behind --",
            ),
        }
    }

    // Gives the options, where one argument is left, the name of the plan.
    fn with_file(self, rt: HostRuntime) -> Result<Options, NoPlan> {
        if count_arguments(rt) == self.after(1).at {
            return Ok(self);
        }
        Err(NoPlan::Unclear)
    }
}

// Reads the arguments from a place on. Each step takes one, so that there are no more steps than arguments.
pub(crate) fn read_call(rt: HostRuntime, first: usize) -> Result<Options, NoPlan> {
    let mut options = Options::start(first);
    for _ in 0..count_arguments(rt) {
        match options.step(rt)? {
            Step::More(next) => {
                options = next;
            }
            Step::File(next) => {
                return next.with_file(rt);
            }
        }
    }
    Err(NoPlan::Unclear)
}
