ghost use Rattle.std.specs.Prelude.{◌≡◌};
ghost use Rattle.sock_words.specs.ErrorCodes.{is_final};
ghost use Rattle.corr_core.specs.EndedByRangeOrAttempt.{is_ended_by};

use sock_words::{EEOF, EINTERNAL, ERESPONSE, ERPCTIMEDOUT};

/// Whether an error of this code ends a call whose id has this range and this current attempt: it concerns the whole call, its
/// code isn't retried, or no attempt is left. Which codes are retried is this project's own; in bRPC it is the channel's
/// `RetryPolicy`.
pub fn ends_call(range: u8, current: u8, code: u16, whole: bool) -> bool
    ensures { result ≡ is_ended_by range current code whole }
{
    whole || ends_always(code) || u16::from(current) + 2 == u16::from(range)
}

// Whether the code ends a call whatever attempts are left.
fn ends_always(code: u16) -> bool
    ensures { result ≡ is_final code }
{
    code == ERPCTIMEDOUT || code == EEOF || code == EINTERNAL || code == ERESPONSE
}
