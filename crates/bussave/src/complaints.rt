// The program's name, with which all begins that it says on standard error, and the usage. Refusals: none.
use status::Status;

pub(crate) const PROGRAM: [u8; 7] = *b"bussave";

// Writes what the program does and how it is called, where that was asked for or it was called wrongly.
pub(crate) fn show_usage(rt: HostRuntime, asked: bool) -> Status {
    status::show_usage(
        rt,
        &PROGRAM,
        b"bussave - save what is whole of a damaged record file
usage: bus save [--] DAMAGED CLEAN      DAMAGED: - is standard input; CLEAN: a file that does not exist yet
It copies to CLEAN each record that is whole and in time: not earlier than the one before it, and at most 10 seconds after it.
It lists the bytes that it skips. The last line is '# end ..' where all went well, and only then.
Exit status through bus: 0 all is well, 1 not, 2 called wrongly. Without bus: --status-fd N, in front of all, writes that digit to descriptor N.
example: bus save flight07.rec flight07-clean.rec >flight07.lines && tail -n 1 flight07.lines
",
        asked,
    )
}
