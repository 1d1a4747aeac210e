// The program's name, with which all begins that it says on standard error, and how it is called. Refusals: none.
use status::Status;

pub(crate) const PROGRAM: [u8; 5] = *b"cards";

// Writes what the program does and how it is called, where that was asked for or it was called wrongly.
pub(crate) fn show_usage(rt: HostRuntime, asked: bool) -> Status {
    status::show_usage(
        rt,
        &PROGRAM,
        b"cards - play a bench script on the card's logic
usage: bus cards      the script is standard input
It writes one line for each call, as soon as it has read it. A line that is no call writes '?', and standard error says why.
The line 'help' prints the calls; BENCH.md has them with what they write.
Exit status through bus: 0 all is well, 1 not, 2 called wrongly. Without bus: --status-fd N, in front of all, writes that digit to descriptor N.
example: printf 'setup 5\\nword 1000 0 0 0 2C42 0\\nmark 1260\\n' | bus cards
",
        asked,
    )
}
