ghost use Rattle.std.specs.Prelude.{◌≡◌, Some};
ghost use Rattle.seat_programs.specs.LoopHeads.{Posting};
ghost use Rattle.seat_programs.specs.Programs.{Program};
ghost use Rattle.seat_programs.specs.sock_message.specs.Asked.{Asked};
ghost use Rattle.id_points.specs.IdsAndAttemptNumbers.{id_of};
ghost use Rattle.id_points.specs.CallIdLoopTurns.{post_on};
ghost use Rattle.call_points.specs.AsideCodeSteps.{step_of, aside_in, after_word};
ghost use Rattle.call_points.specs.CallIdPoints.{post_program};

use crate::aside::Aside;
use crate::deciding::OnCall;
use crate::word_step::WordStep;
use id_points::{PostTurn, judge, post_behind};
use sock_words::IdWord;

impl OnCall {
    /// The next step of a post.
    /// bRPC's `bthread_id_error` (bthread_id.md).
    pub fn post_step(self, step: WordStep) -> Aside
        ensures { (asked : Asked) (k : Posting → Program) → Some (step_of asked result) ≡ aside_in (post_program self k step) }
    {
        let slot = self.id.slot();
        match step {
            WordStep::Read => Aside::LoadIdWord(slot),
            WordStep::Exchange(from) => Aside::PostId(slot, from, self.error),
        }
    }

    /// How a post goes on behind its step, which found this word.
    pub fn post_next(self, step: WordStep, found: u64) -> PostTurn
        ensures { (k : Posting → Program) → post_on (id_of self.id) self.error.0 k result ≡ after_word (post_program self k step) found }
    {
        let found = IdWord(found);
        match step {
            WordStep::Read => judge(self.id, self.error, found),
            WordStep::Exchange(from) => post_behind(self.id, self.error, from, found),
        }
    }
}
