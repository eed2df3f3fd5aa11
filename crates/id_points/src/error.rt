ghost use Rattle.std.specs.Prelude.{◌≡◌, ◌≤◌, ◌+◌, ◌*◌, ◌/◌, ◌%◌, ◌==◌};
ghost use Rattle.id_points.specs.IdsAndAttemptNumbers.{number_of};
ghost use Rattle.corr_core.specs.IdSlotWord.{error_of, code_of, attempt_of};

use crate::call_id::AttemptNumber;

/// The attempt that stands for the whole call.
const WHOLE: u16 = 7;

/// An error of a call as an id word queues it: its code, 1 to 4,095, and its attempt, 0 to 6, or 7 for the whole call.
#[derive(Clone, Copy, Debug, PartialEq, Eq)]
pub struct IdError(pub(crate) u16);

impl IdError {
    /// An error of one attempt.
    pub fn of_attempt(code: u16, attempt: AttemptNumber) -> Self
        requires { code ≤ 4095 }
        ensures { result.0 ≡ error_of code (number_of attempt) }
    {
        IdError(code * 8 + u16::from(attempt.get()))
    }

    /// An error of the whole call.
    pub fn of_call(code: u16) -> Self
        requires { code ≤ 4095 }
        ensures { result.0 ≡ error_of code 7 }
    {
        IdError(code * 8 + WHOLE)
    }

    /// The bits as they are queued.
    pub fn bits(self) -> u16
        ensures { result ≡ self.0 }
    {
        self.0
    }

    /// The code.
    pub fn code(self) -> u16
        ensures { result ≡ code_of self.0 }
    {
        self.0 / 8
    }

    /// The attempt, or 7 for the whole call.
    fn attempt(self) -> u16
        ensures { result ≡ attempt_of self.0 }
    {
        self.0 % 8
    }

    /// Whether it is one of this attempt.
    pub fn is_of(self, attempt: u8) -> bool
        ensures { result ≡ (attempt_of self.0 == attempt) }
    {
        self.attempt() == u16::from(attempt)
    }

    /// Whether it concerns the whole call.
    pub fn is_whole(self) -> bool
        ensures { result ≡ (attempt_of self.0 == 7) }
    {
        self.attempt() == WHOLE
    }
}
