ghost use Rattle.std.specs.Prelude.{◌≡◌, Some};
ghost use Rattle.seat_programs.specs.LoopHeads.{Locking};
ghost use Rattle.seat_programs.specs.Programs.{Program};
ghost use Rattle.seat_programs.specs.sock_message.specs.Asked.{Asked};
ghost use Rattle.id_points.specs.CallIdLoopTurns.{lock_on, sought_as};
ghost use Rattle.call_points.specs.AsideCodeSteps.{step_of, aside_in, after_word};
ghost use Rattle.call_points.specs.CallIdPoints.{lock_program, IsOpen};

use crate::aside::Aside;
use crate::word_step::WordStep;
use id_points::{LockTurn, Sought, lock_behind, lock_by};
use sock_words::IdWord;

/// Whoever is on the way to a lock: the id slot, and what is sought there.
/// bRPC's `bthread_id_lock` (bthread_id.md).
#[derive(Clone, Copy)]
pub struct Locker {
    pub slot: u16,
    pub sought: Sought,
}

impl Locker {
    /// The next step on the way.
    pub fn step(self, step: WordStep) -> Aside
        ensures { (asked : Asked) (k : Locking → Program) → Some (step_of asked result) ≡ aside_in (lock_program self k step) }
    {
        match step {
            WordStep::Read => Aside::LoadIdWord(self.slot),
            WordStep::Exchange(from) => Aside::LockId(self.slot, from),
        }
    }

    /// How it goes on behind its step, which found this word.
    pub fn next(self, step: WordStep, found: u64) -> LockTurn
        requires { IsOpen step }
        ensures { (k : Locking → Program) → lock_on self.slot (sought_as self.sought) k result ≡ after_word (lock_program self k step) found }
    {
        let found = IdWord(found);
        match step {
            WordStep::Read => lock_by(self.sought, found),
            WordStep::Exchange(from) => lock_behind(self.sought, from, found),
        }
    }
}
