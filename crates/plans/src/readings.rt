// The reading of a plan: chunks of its text are told into lines (docs/LINES.md, busplan FILE). Meaning: specs/Machine.antt. Refusals: none.
ghost use Rattle.std.specs.Prelude.{◌≡◌};
ghost use Rattle.plans.specs.Machine.{start_of, line_taken, fed_of, ended_of};

use crate::drafts::Draft;
use crate::gatherings::Gathering;

// What goes from chunk to chunk, which may cut a line, and whether there may be more. The first bad line ends the reading, as soon as it is known to be
// one: it need not end.
#[derive(Clone, Copy)]
pub struct Reading {
    draft: Draft,
    gathering: Gathering,
    pub more: bool,
}

// Takes into the plan what the line says as far as it came. The plan is lent: it has 3 KiB, and most lines change little of it.
fn take_line(draft: &mut Draft, gathering: Gathering)
    ensures draft { draft.new ≡ line_taken draft.old gathering }
{
    draft.take(gathering.entry(), gathering.number);
}

impl Reading {
    // Gives the reading before the first byte.
    // Tables: none. Refusals: none.
    pub fn start() -> Reading
        ensures reading { result ≡ start_of }
    {
        Reading {
            draft: Draft::start(),
            gathering: Gathering::start(1),
            more: true,
        }
    }

    // Gives the reading with a chunk of the text more. Once there is no more to read, it stays as it is.
    // Tables: chunk is only read. Refusals: none.
    pub fn take(self, chunk: &[u8]) -> Reading
        ensures reading { result ≡ fed_of self chunk.now }
    {
        if !self.more {
            return self;
        }
        let mut draft = self.draft;
        let mut gathering = self.gathering;
        for byte in chunk {
            if *byte == b'\n' {
                take_line(&mut draft, gathering);
                if draft.is_bad() {
                    return Reading {
                        draft,
                        gathering,
                        more: false,
                    };
                }
                gathering = gathering.next();
            } else {
                gathering = gathering.take(*byte);
                if gathering.is_bad() {
                    take_line(&mut draft, gathering);
                    return Reading {
                        draft,
                        gathering,
                        more: false,
                    };
                }
            }
        }
        Reading {
            draft,
            gathering,
            more: true,
        }
    }

    // Gives the plan at the end of the text. The last line may have no end.
    // Tables: none. Refusals: none.
    #[tactic(auto, unfolding(crate::specs::Machine::ended_of))]
    pub fn end(self) -> Draft
        ensures draft { result ≡ ended_of self }
    {
        let mut draft = self.draft;
        if self.more {
            take_line(&mut draft, self.gathering);
        }
        draft
    }
}
