// What a reader has for calls, and what it tells of those that it ends.
ghost use Rattle.std.specs.Prelude.{◌≡◌, IfOk, [], true, false};
ghost use Rattle.prpc_frame.specs.FrameMeaning.{frame_of};
ghost use Rattle.brpc_model.specs.ResponseOutcome.{ending_of};
ghost use Rattle.call_table.specs.ResponseEndsCall.{outcome_of};
ghost use Rattle.rpc_reader.specs.ReaderBooks.{ToldBy, KeptBy};
ghost use Rattle.rpc_reader.specs.Met.{has_response as responds};

use call_table::{Call, Ending, on_response};
use corr_id::IdSeat;
use prpc_frame::{Frame, IoBuf, NoMemory};
use rpc_client::Told;
use sock_words::{ERESPONSE, Outcome, OwnedBytes};
use std::alloc::Global;

/// A reader's part for calls: its seat of the ids, the responses that came before their ranges were made, the oldest first, what it
/// tells of the calls that it ended, and whether memory was wanting.
#[derive(Drop)]
pub struct AnswerSeat {
    pub seat: IdSeat<Call>,
    pub early: Vec<Frame>,
    pub told: Vec<Told>,
    pub starved: bool,
    pub alloc: Global,
}

// A copy of these bytes.
fn copied(alloc: Global, bytes: &IoBuf) -> Result<OwnedBytes, NoMemory>
    ensures { IfOk result (λ out. out ≡ bytes.now.items) }
{
    let mut copy = vec![in alloc; 0; bytes.len()]?;
    bytes.copy_to(&mut copy);
    Ok(OwnedBytes::new(copy))
}

// The outcome of the call with this id that ends so.
fn outcome(alloc: Global, id: u64, ending: &Ending) -> Result<Outcome, NoMemory>
    ensures { IfOk result (λ outcome. outcome ≡ outcome_of id ending.now) }
{
    match ending {
        Ending::Unread => Ok(Outcome::CallFailed {
            id,
            code: ERESPONSE,
        }),
        Ending::Answered {
            payload,
            attachment,
        } => Ok(Outcome::Answered {
            id,
            payload: copied(alloc, payload)?,
            attachment: copied(alloc, attachment)?,
        }),
        Ending::Peer { code } => Ok(Outcome::Peer { id, code: *code }),
    }
}

/// Whether the frame has a response.
pub fn has_response(frame: &Frame) -> bool
    ensures { result ≡ responds frame.now.meta.response }
{
    match &frame.meta.response {
        Some(_) => true,
        None => false,
    }
}

impl AnswerSeat {
    /// A part for calls with this seat of the ids. It takes no memory.
    pub fn new(alloc: Global, seat: IdSeat<Call>) -> AnswerSeat
        ensures seat { result.seat ≡ seat }
        ensures empty { (result.early.items ≡ []) × (result.told.items ≡ []) × (result.starved ≡ false) }
    {
        AnswerSeat {
            seat,
            early: Vec::new(alloc),
            told: Vec::new(alloc),
            starved: false,
            alloc,
        }
    }

    /// What became of the call of this operation is told.
    pub fn tell(&mut self, number: u16, outcome: Outcome)
        ensures same { self.new ≡ record self.old { told = self.new.told; starved = self.new.starved } }
        ensures told { ToldBy number outcome self.old.told.items self.old.starved self.new.told.items self.new.starved }
    {
        if self.told.reserve(1).is_err() {
            self.starved = true;
            drop(outcome);
            return;
        }
        self.told.push_reserved(Told { number, outcome });
    }

    /// That the call of this operation, which has this id, ended with a response is told.
    pub fn tell_response(&mut self, number: u16, id: u64, frame: Frame)
        requires { responds frame.meta.response ≡ true }
        ensures same { self.new ≡ record self.old { told = self.new.told; starved = self.new.starved } }
        ensures told { ToldBy number (ending_of id (frame_of frame)) self.old.told.items self.old.starved self.new.told.items self.new.starved }
    {
        let ending = on_response(frame);
        match outcome(self.alloc, id, &ending) {
            Ok(outcome) => {
                self.tell(number, outcome);
                drop(ending);
            }
            Err(_) => {
                self.starved = true;
                drop(ending);
            }
        }
    }

    /// The response is kept.
    pub fn keep(&mut self, frame: Frame)
        ensures same { self.new ≡ record self.old { early = self.new.early; starved = self.new.starved } }
        ensures kept { KeptBy frame self.old.early.items self.old.starved self.new.early.items self.new.starved }
    {
        if self.early.reserve(1).is_err() {
            self.starved = true;
            drop(frame);
            return;
        }
        self.early.push_reserved(frame);
    }
}
