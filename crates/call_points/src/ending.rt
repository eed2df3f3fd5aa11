ghost use Rattle.std.specs.Prelude.{◌≡◌, ℕ, Some};
ghost use Rattle.seat_programs.specs.Programs.{Program};
ghost use Rattle.seat_programs.specs.sock_message.specs.Asked.{Asked};
ghost use Rattle.call_points.specs.AsideCodeSteps.{step_of, aside_in, after_word};
ghost use Rattle.call_points.specs.CallIdPoints.{end_program, end_on};

use crate::aside::Aside;
use id_points::is_reused;
use sock_words::IdWord;

/// Where the end of a range stands.
/// bRPC's `bthread_id_unlock_and_destroy` (bthread_id.md).
#[derive(Clone, Copy)]
pub enum EndStep {
    /// Every version of the range is skipped,
    End,
    /// and the slot may be claimed again.
    Free,
}

impl EndStep {
    /// The next step of the end of the range in this slot.
    pub fn step(self, slot: u16) -> Aside
        ensures { (asked : Asked) (k : Program) → Some (step_of asked result) ≡ aside_in (end_program slot k self) }
    {
        match self {
            EndStep::End => Aside::EndId(slot),
            EndStep::Free => Aside::FreeId(slot),
        }
    }

    /// The step behind this one, which found this word.
    pub fn next(self, found: u64) -> Option<EndStep>
        ensures { (slot : ℕ) (k : Program) → end_on slot k result ≡ after_word (end_program slot k self) found }
    {
        match self {
            EndStep::End if is_reused(IdWord(found)) => Some(EndStep::Free),
            EndStep::End | EndStep::Free => None,
        }
    }
}
