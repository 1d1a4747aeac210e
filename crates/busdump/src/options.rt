// What the arguments ask: which entries are shown and how, and where the files begin (docs/LINES.md, busdump). Refusals: none; a wrong
// argument is said on standard error, and then nothing else is done.
use crate::complaints::refuse;
use lines::{NAME_BYTES, read_decimal};
use records::{BUS_A, BUS_B};
use status::{Asked, ask, count_arguments, is_option};
use std::env::FillError;
use texts::Wanted;
use words::CommandWord;

const WANTS_FROM: &[u8] = b"-f wants ticks, a whole number below 2^64 in 1 to 20 digits";

const WANTS_TO: &[u8] = b"-t wants ticks, a whole number below 2^64 in 1 to 20 digits";

// What is asked for; then the places of the first argument, of the one behind the options and of the first file.
#[derive(Clone, Copy)]
pub(crate) struct Options {
    bus: Option<u8>,
    address: Option<u64>,
    from: Option<u64>,
    to: Option<u64>,
    only_bad: bool,
    pub(crate) in_words: bool,
    pub(crate) begin: usize,
    pub(crate) end: usize,
    pub(crate) first: usize,
}

// Why a call dumps nothing: it asks for help, it names no file, or an argument is wrong, which was said. `busplan` has one like it: both are of the
// program's own options, and shared they would be a public type with closures for eight lines.
#[derive(Clone, Copy)]
pub(crate) enum Unread {
    Help,
    NoFile,
    Wrong,
}

// What one argument, with its value, led to: more options, or the files behind them.
#[derive(Clone, Copy)]
enum Step {
    More(Options),
    Files(Options),
}

// Says what is wrong with an argument.
fn wrong(rt: HostRuntime, place: usize, what: &[u8], why: &[u8], shown: &[u8]) -> Unread {
    refuse(rt, place, what, why, shown);
    Unread::Wrong
}

// Says what the value that was asked for should have been.
fn wrong_value(rt: HostRuntime, place: usize, wants: &[u8], asked: Asked, value: &[u8]) -> Unread {
    match asked {
        Err(FillError::TooLong) => wrong(rt, place, wants, b", and this value is too long", b""),
        Err(FillError::NotPresent) | Ok(0) => wrong(rt, place, wants, b", and there is none", b""),
        Ok(_) => wrong(rt, place, wants, b", not ", value),
    }
}

// Gives the number at a place. Where there is none that is not above the most, standard error says what is wanted.
fn number_at(rt: HostRuntime, place: usize, wants: &[u8], most: u64) -> Result<u64, Unread> {
    let mut text = [0u8; NAME_BYTES];
    let asked = ask(rt, place, &mut text);
    let value = &text[..asked.unwrap_or(0)];
    match read_decimal(value) {
        Some(number) if number <= most => Ok(number),
        _ => Err(wrong_value(rt, place, wants, asked, value)),
    }
}

// Looks at the name at a place. Where it is none, standard error says why.
fn check_name(rt: HostRuntime, place: usize) -> Result<(), Unread> {
    let mut name = [0u8; NAME_BYTES];
    let why: &[u8] = match ask(rt, place, &mut name) {
        Err(FillError::TooLong) => b" is longer than a name can be: 4095 bytes",
        Err(FillError::NotPresent) | Ok(0) => b" is empty: it must be the name of a file",
        Ok(_) => return Ok(()),
    };
    Err(wrong(rt, place, b"this name", why, b""))
}

impl Options {
    // Gives the options before any argument, the first of which stands at a place: all is shown.
    fn start(first: usize) -> Options {
        Options {
            bus: None,
            address: None,
            from: None,
            to: None,
            only_bad: false,
            in_words: false,
            begin: first,
            end: first,
            first,
        }
    }

    // Gives which entries are asked for.
    pub(crate) fn wanted(self) -> Wanted {
        Wanted {
            from: self.from.unwrap_or(0),
            to: self.to.unwrap_or(u64::MAX),
            address: self.address,
            bus: self.bus,
            only_bad: self.only_bad,
        }
    }

    // Gives the place of the value of the option that is looked at.
    fn value_place(self) -> usize {
        self.end.wrapping_add(1)
    }

    // Gives the options with so many arguments more looked at.
    fn after(self, count: usize) -> Options {
        Options {
            end: self.end.wrapping_add(count),
            ..self
        }
    }

    // Gives the options where the files begin so many arguments on.
    fn files_after(self, count: usize) -> Step {
        Step::Files(Options {
            first: self.end.wrapping_add(count),
            ..self
        })
    }

    // Looks at whether the option was given before. Where it was, standard error says so.
    fn check_first(self, rt: HostRuntime, option: &[u8], given: bool) -> Result<(), Unread> {
        if given {
            return Err(wrong(rt, self.end, option, b" is given twice", b""));
        }
        Ok(())
    }

    // Gives the bus that -b names.
    fn bus_named(self, rt: HostRuntime) -> Result<u8, Unread> {
        let place = self.value_place();
        let mut text = [0u8; NAME_BYTES];
        let asked = ask(rt, place, &mut text);
        let value = &text[..asked.unwrap_or(0)];
        match value {
            b"A" => Ok(BUS_A),
            b"B" => Ok(BUS_B),
            _ => Err(wrong_value(rt, place, b"-b wants A or B", asked, value)),
        }
    }

    fn take_bus(self, rt: HostRuntime) -> Result<Step, Unread> {
        self.check_first(rt, b"-b", self.bus.is_some())?;
        let bus = Some(self.bus_named(rt)?);
        Ok(Step::More(Options {
            bus,
            ..self.after(2)
        }))
    }

    fn take_address(self, rt: HostRuntime) -> Result<Step, Unread> {
        self.check_first(rt, b"-a", self.address.is_some())?;
        let wants = b"-a wants an address, 0 to 31 in 1 to 20 digits";
        let most = u64::from(CommandWord::BROADCAST);
        let address = Some(number_at(rt, self.value_place(), wants, most)?);
        Ok(Step::More(Options {
            address,
            ..self.after(2)
        }))
    }

    // Gives the time that an option has for its value, where it was not given before.
    fn time_given(
        self,
        rt: HostRuntime,
        option: &[u8],
        before: Option<u64>,
        wants: &[u8],
    ) -> Result<Option<u64>, Unread> {
        self.check_first(rt, option, before.is_some())?;
        Ok(Some(number_at(rt, self.value_place(), wants, u64::MAX)?))
    }

    fn take_from(self, rt: HostRuntime) -> Result<Step, Unread> {
        let from = self.time_given(rt, b"-f", self.from, WANTS_FROM)?;
        let next = self.after(2);
        Ok(Step::More(Options { from, ..next }))
    }

    fn take_to(self, rt: HostRuntime) -> Result<Step, Unread> {
        let to = self.time_given(rt, b"-t", self.to, WANTS_TO)?;
        let next = self.after(2);
        Ok(Step::More(Options { to, ..next }))
    }

    fn take_only_bad(self, rt: HostRuntime) -> Result<Step, Unread> {
        self.check_first(rt, b"-e", self.only_bad)?;
        Ok(Step::More(Options {
            only_bad: true,
            ..self.after(1)
        }))
    }

    fn take_in_words(self, rt: HostRuntime) -> Result<Step, Unread> {
        self.check_first(rt, b"-v", self.in_words)?;
        Ok(Step::More(Options {
            in_words: true,
            ..self.after(1)
        }))
    }

    // Takes the option, or the first name, that the argument behind those that were looked at is.
    fn take(self, rt: HostRuntime, text: &[u8]) -> Result<Step, Unread> {
        match text {
            b"-b" => self.take_bus(rt),
            b"-a" => self.take_address(rt),
            b"-f" => self.take_from(rt),
            b"-t" => self.take_to(rt),
            b"-e" => self.take_only_bad(rt),
            b"-v" => self.take_in_words(rt),
            b"-h" | b"--help" => Err(Unread::Help),
            b"--" => Ok(self.files_after(1)),
            _ if !is_option(text) => Ok(self.files_after(0)),
            _ => {
                let why = b" is no option; a file of that name goes behind --";
                Err(wrong(rt, self.end, text, why, b""))
            }
        }
    }

    // Takes the argument behind those that were looked at.
    fn step(self, rt: HostRuntime) -> Result<Step, Unread> {
        if count_arguments(rt) <= self.end {
            return Ok(self.files_after(0));
        }
        let mut text = [0u8; NAME_BYTES];
        let length = ask(rt, self.end, &mut text).unwrap_or(0);
        self.take(rt, &text[..length])
    }

    // Looks at all names before the first file is read.
    fn with_files(self, rt: HostRuntime) -> Result<Options, Unread> {
        let count = count_arguments(rt);
        if count <= self.first {
            return Err(Unread::NoFile);
        }
        for place in self.first..count {
            check_name(rt, place)?;
        }
        Ok(self)
    }
}

// Reads the options, from a place on. Each step takes an argument, so that there are no more steps than arguments.
pub(crate) fn read_call(rt: HostRuntime, first: usize) -> Result<Options, Unread> {
    let mut options = Options::start(first);
    for _ in 0..count_arguments(rt) {
        match options.step(rt)? {
            Step::More(next) => options = next,
            Step::Files(next) => return next.with_files(rt),
        }
    }
    Err(Unread::NoFile)
}
