// The line that opens a log, and the names in it (02 a; docs/LINES.md). Refusals: none.
use lines::{Block, NAME_BYTES, Sink};
use status::ask;

// Puts the argument at a place, and a space.
fn put_argument(rt: HostRuntime, sink: Sink, block: &mut Block, place: usize) -> Sink {
    let mut text = [0u8; NAME_BYTES];
    let length = ask(rt, place, &mut text).unwrap_or(0);
    sink.put_name(block, &text[..length]).put(block, b' ')
}

// Puts "# busdump OPTIONS NAME", the options as they were given, so that a narrowed log is not taken for a whole one. They stand from a place on up to
// another.
pub(crate) fn put_title(
    rt: HostRuntime,
    sink: Sink,
    block: &mut Block,
    begin: usize,
    end: usize,
    name: &[u8],
) -> Sink {
    let mut after = sink.put_text(block, b"# busdump ");
    for place in begin..end {
        after = put_argument(rt, after, block, place);
    }
    after.put_named(block, b"", name)
}
