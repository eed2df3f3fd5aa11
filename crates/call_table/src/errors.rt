ghost use Rattle.std.specs.Prelude.{◌≡◌};
ghost use Rattle.call_table.specs.DecisionOnError.{decision_of};

use corr_core::ends_call;

/// What is done about an error of a call.
#[derive(Clone, Copy, Debug, PartialEq, Eq)]
pub enum Decision {
    /// The call ends with the error.
    End,
    /// Another attempt is made.
    Retry,
}

/// What is done about an error of a call whose id has this range and this current attempt. The call ends where the error
/// concerns the whole of it, where its code isn't retried, and where no attempt is left.
pub fn on_error(range: u8, current: u8, code: u16, whole: bool) -> Decision
    ensures { result ≡ decision_of range current code whole }
{
    if ends_call(range, current, code, whole) {
        Decision::End
    } else {
        Decision::Retry
    }
}
