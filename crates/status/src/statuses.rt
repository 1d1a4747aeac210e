// How a run ended, and the digit that says it (docs/LINES.md, "The status"). Meaning: specs/Statuses.antt. Refusals: none.
ghost use Rattle.std.specs.Prelude.{◌≡◌};
ghost use Rattle.status.specs.Statuses.{status_of, worse_of, digit_of};

// All is well; the tool said refused, rejected, none or error, or could not write; it was called wrongly.
#[derive(Clone, Copy)]
pub enum Status {
    Good,
    Failed,
    Usage,
}

impl Status {
    // Gives the status of a run, or of a part of it, that went well or did not.
    // Tables: none. Refusals: none.
    pub fn of(well: bool) -> Status
        ensures status { result ≡ status_of well }
    {
        if well {
            return Status::Good;
        }
        Status::Failed
    }

    // Gives the status of a part and what came before it: what went wrong stays so. This is no derived order: of two that went wrong the first stays.
    // Tables: none. Refusals: none.
    pub fn after(self, before: Status) -> Status
        ensures status { result ≡ worse_of before self }
    {
        match before {
            Status::Good => self,
            Status::Failed => Status::Failed,
            Status::Usage => Status::Usage,
        }
    }

    // Gives the digit.
    // Tables: none. Refusals: none.
    pub fn digit(self) -> u8
        ensures digit { result ≡ digit_of self }
    {
        match self {
            Status::Good => b'0',
            Status::Failed => b'1',
            Status::Usage => b'2',
        }
    }
}
