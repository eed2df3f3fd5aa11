// The frame of an attempt as it goes to a link.
ghost use Rattle.std.specs.Prelude.{◌≡◌, ◌≤◌};
ghost use Rattle.message_parts.specs.declared.parcel.Parcel.TheVariants.{Frame};
ghost use Rattle.sock_model.specs.MessageLabels.{attempt_label};

use message_parts::{CallFrame, Parcel};
use sock_rule::Letter;
use sock_words::Label;

/// The letter of an attempt, counted from 0, of the call that is this operation of the script and has this id.
pub(crate) fn letter_of(frame: CallFrame, operation: u16, id: u64, attempt: u8) -> Letter
    requires { attempt ≤ 6 }
    ensures bytes { result.bytes ≡ Frame frame }
    ensures label { result.label ≡ attempt_label operation attempt }
    ensures owner { result.owner ≡ id }
{
    let label = Label {
        client: 0,
        operation,
        attempt,
        place: 8 * u32::from(operation) + u32::from(attempt),
    };
    Letter {
        bytes: Parcel::Frame(frame),
        label,
        owner: id,
    }
}
