// The planner (02 j): "A planner proposes a first frame for each; it may use any method and may say that it found none." Its method: the messages are placed one
// by one at their cheapest first frame, and then one of the worst frame is moved, again and again (searches.rt). Its promise: "The planner's own output goes
// through the same check." Meaning: specs/Frames.antt. Refusals: 15.
ghost use Rattle.schedule.specs.Frames.{Answers};

use crate::schedules::{Frames, Schedule};
use crate::searches::Search;
use words::Refusal;

impl Schedule {
    // Proposes a first frame for each message, in a fixed number of steps at most, or says that it found none.
    // Tables: capacities is only read. Refusals: 15, as the check.
    #[tactic(auto, unfolding(crate::specs::Frames::check_of))]
    pub fn propose(self, capacities: &Frames) -> Result<Option<Frames>, Refusal>
        ensures answer { Answers self capacities.now result }
    {
        if self.is_refused() {
            return Err(Refusal::Schedule);
        }
        let firsts = Search::start(self.held(), capacities).run();
        match self.check(&firsts, capacities) {
            Ok(()) => Ok(Some(firsts)),
            Err(_) => Ok(None),
        }
    }
}
