ghost use Rattle.std.specs.Prelude.{◌≡◌, true};
ghost use Rattle.seat_programs.specs.Asides.{Taking};
ghost use Rattle.brpc_model.specs.Frame.{Frame};
ghost use Rattle.seat_programs.specs.ReaderProgram.{answered, version_in};
ghost use Rattle.corr_core.specs.IdSlotWord.{parts};
ghost use Rattle.corr_core.specs.IdRangeVersions.{is_early};
ghost use Rattle.id_points.specs.IdsAndAttemptNumbers.{id_of};
ghost use Rattle.id_points.specs.CallIdLoopTurns.{lock_on, sought_as};
ghost use Rattle.reader_points.specs.ReaderPoints.{Context, point_program, next_program, frames_behind, with_taking, room, IsTaken, IsLocker, FitsRoom, HasInHand, HasNext};
ghost use Rattle.reader_points.specs.ReaderCodeSteps.{after_taking};
ghost use Rattle.sock_words.specs.PackedWords.{call_id, id_slot};

use crate::point::{
    AnswerStep, Behind, ByteCount, CloseStep, Closing, ReadNext, ReadPoint, Reader, Taken,
};
use call_points::{Locker, WordStep};
use corr_core::is_early;
use id_points::{CallId, LockTurn, Sought};
use sock_words::IdWord;

impl Reader {
    /// Its reading has ended, by a frame fault or not.
    pub fn closing(self, fault: bool) -> Closing
        ensures { result ≡ record { reader = self; fault = fault; next = 0 } }
    {
        Closing {
            reader: self,
            fault,
            next: 0,
        }
    }

    /// It comes to its next take.
    pub fn to_take(self) -> ReadNext
        ensures { result ≡ ReadNext.Point (ReadPoint.Take self) }
    {
        ReadNext::Point(ReadPoint::Take(self))
    }

    /// How it goes on by what a take found.
    pub fn taken(self, taken: Taken) -> ReadNext
        requires { FitsRoom (room self.total) taken }
        ensures program { (a : Context) (taking : Taking) → IsTaken taken taking → next_program (with_taking taking a) result ≡ after_taking (point_program a (ReadPoint.Take self)) taking }
        ensures hand { (a : Context) (taking : Taking) → IsTaken taken taking → HasInHand a (ReadPoint.Take self) → HasNext (with_taking taking a) result }
    {
        match taken {
            Taken::Bytes(count) => ReadNext::Frames(Reader {
                total: self.total.plus(count),
                ..self
            }),
            Taken::Nothing => self.to_take(),
            Taken::Over => {
                ReadNext::Point(ReadPoint::Close(self.closing(false), CloseStep::AddRef))
            }
            Taken::Closed => ReadNext::Posts(self.closing(false)),
        }
    }

    /// How it goes on behind a step on the way to the lock of its response.
    pub fn locked(self, locker: Locker, turn: LockTurn) -> ReadNext
        ensures program { (a : Context) → IsLocker a.frame locker → next_program a result ≡ lock_on locker.slot (sought_as locker.sought) (answered a.frame a.kept (frames_behind a self)) turn }
        ensures hand { (a : Context) → a.fresh ≡ true → IsLocker a.frame locker → HasNext a result }
    {
        match turn {
            LockTurn::NotThere(found) => {
                if comes_early(locker, found) {
                    ReadNext::Early(self)
                } else {
                    ReadNext::Frames(self)
                }
            }
            LockTurn::Has(word) => {
                let id = id_at(locker.slot, word);
                let behind = Behind::Frames(self);
                ReadNext::Point(ReadPoint::Answer(behind, id, AnswerStep::Take))
            }
            LockTurn::Again(None) => {
                ReadNext::Point(ReadPoint::Lock(self, locker, WordStep::Read))
            }
            LockTurn::Again(Some(from)) => {
                ReadNext::Point(ReadPoint::Lock(self, locker, WordStep::Exchange(from)))
            }
        }
    }
}

/// The id of the range that this slot has by this word.
fn id_at(slot: u16, word: IdWord) -> CallId
    ensures id { id_of result ≡ call_id slot (parts word.0).first }
    ensures slot { id_slot (id_of result) ≡ slot }
{
    CallId::pack(slot, word.first())
}

/// Whether the response that this locker is for came before its range was made, by the word of its slot.
fn comes_early(locker: Locker, found: IdWord) -> bool
    ensures { (frame : Frame) → IsLocker frame locker → result ≡ is_early (version_in frame) (parts found.0) }
{
    match locker.sought {
        Sought::Version(version) => is_early(found, version),
        Sought::First(_) => false,
    }
}

/// Where the throwing away goes on by what a take of this link found, over which so many bytes came before.
pub fn discarded(link: u16, total: ByteCount, taken: Taken) -> ReadPoint
    requires { FitsRoom (room total) taken }
    ensures program { (a : Context) (taking : Taking) → IsTaken taken taking → point_program a result ≡ after_taking (point_program a (ReadPoint.Discard link total)) taking }
    ensures hand { (a : Context) → HasInHand a (ReadPoint.Discard link total) → HasInHand a result }
{
    match taken {
        Taken::Bytes(count) => {
            let total = total.plus(count);
            if total.is_below_limit() {
                ReadPoint::Discard(link, total)
            } else {
                ReadPoint::Rest
            }
        }
        Taken::Nothing => ReadPoint::Discard(link, total),
        Taken::Over => ReadPoint::Rest,
        Taken::Closed => ReadPoint::Rest,
    }
}
