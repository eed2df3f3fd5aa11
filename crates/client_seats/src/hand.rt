ghost use Rattle.std.specs.Prelude.{◌≡◌, ◌==◌, ◌&&◌, Option, option_map, Some, None, IfOk};
ghost use Rattle.sock_message.specs.Asked.{frame_of, parts_of};
ghost use Rattle.id_points.specs.IdsAndAttemptNumbers.{id_of, number_of};
ghost use Rattle.message_parts.specs.Parcels.{parcel_of};
ghost use Rattle.client_seats.specs.ClientSeatState.{message_in, call_in};

use id_points::{AttemptNumber, CallId};
use message_parts::{CallFrame, Parcel};
use sock_message::{BlockPool, Call, Message, NoMemory};
use std::alloc::Global;
use std::marker::Model;

/// A call, and the frame of an attempt of it.
#[derive(Drop)]
pub struct Framed {
    call: Call,
    id: CallId,
    attempt: AttemptNumber,
    frame: CallFrame,
}

impl Model for Framed {
    ghost use Rattle.std.specs.Prelude.{◌≡◌};
    ghost use Rattle.sock_message.specs.Asked.{frame_of, parts_of};
    ghost use Rattle.id_points.specs.IdsAndAttemptNumbers.{id_of, number_of};
    ghost use Rattle.client_seats.specs.FramedCall.{FramedData};

    ghost Value = { FramedData };

    ghost view = { λ f. record { call = f.call; id = id_of f.id; attempt = number_of f.attempt; frame = f.frame } };

    ghost invariant = { λ f. f.frame ≡ record { bytes = frame_of f.call (id_of f.id) (number_of f.attempt); parts = parts_of f.call (id_of f.id) (number_of f.attempt) } };
}

/// What a client has in its hand to send.
#[derive(Drop)]
pub enum InHand {
    Nothing,
    /// The message of a `send`,
    Message(Message),
    /// a call,
    Call(Call),
    /// or a call with the frame of its attempt.
    Framed(Framed),
}

impl Framed {
    /// Whether the frame is that of this attempt of the call with this id.
    fn is_of(&self, id: CallId, attempt: AttemptNumber) -> bool
        ensures { result ≡ ((self.now.id == id_of id) && (self.now.attempt == number_of attempt)) }
    {
        self.id.number() == id.number() && self.attempt.get() == attempt.get()
    }
}

impl InHand {
    /// The call, if there is one.
    pub fn call(&self) -> Option<&Call>
        ensures { option_map (λ (call : _). call.now) result ≡ call_in self.now }
    {
        match self {
            InHand::Nothing | InHand::Message(_) => None,
            InHand::Call(call) => Some(call),
            InHand::Framed(framed) => Some(&framed.call),
        }
    }

    /// The call with the frame of this attempt, which is made unless it is there. Where no call is in hand, there is none.
    pub fn framed(
        self,
        alloc: Global,
        pool: &mut BlockPool,
        id: CallId,
        attempt: AttemptNumber,
    ) -> Result<InHand, NoMemory>
        ensures { IfOk result (λ hand. (call_in hand ≡ call_in self) × (asked : _) × (call_in self ≡ Some asked) × (message_in hand ≡ Some (record { bytes = frame_of asked (id_of id) (number_of attempt); parts = parts_of asked (id_of id) (number_of attempt) }))) }
    {
        let call = match self {
            InHand::Framed(framed) => {
                if framed.is_of(id, attempt) {
                    return Ok(InHand::Framed(framed));
                }
                framed.call
            }
            InHand::Call(call) => call,
            InHand::Nothing | InHand::Message(_) => return Err(NoMemory),
        };
        let frame = CallFrame::new(alloc, pool, &call, id.number(), attempt.get())?;
        Ok(InHand::Framed(Framed {
            call,
            id,
            attempt,
            frame,
        }))
    }

    /// What is to be sent, taken out of the hand; the call of a frame stays there.
    pub fn take_message(&mut self) -> Option<Parcel>
        ensures message { option_map parcel_of result ≡ message_in self.old }
        ensures rest { (message_in self.new ≡ None) × (call_in self.new ≡ call_in self.old) }
    {
        match std::mem::replace(self, InHand::Nothing) {
            InHand::Message(message) => Some(Parcel::Message(message)),
            InHand::Framed(framed) => {
                let Framed { call, frame, .. } = framed;
                *self = InHand::Call(call);
                Some(Parcel::Frame(frame))
            }
            InHand::Call(call) => {
                *self = InHand::Call(call);
                None
            }
            InHand::Nothing => None,
        }
    }
}
