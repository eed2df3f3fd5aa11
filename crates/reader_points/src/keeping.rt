ghost use Rattle.std.specs.Prelude.{◌≡◌, ◌<◌, ◌+◌, ◌∷◌, ◌==◌, ◌&&◌, List, [], map, IfSome, IfNone};
ghost use Rattle.seat_programs.specs.ReaderProgram.{slot_in, kept_for};
ghost use Rattle.brpc_model.specs.Frame as model;
ghost use Rattle.prpc_frame.specs.FrameMeaning.{frame_of};
ghost use Rattle.id_points.specs.IdsAndAttemptNumbers.{id_of};
ghost use Rattle.reader_points.specs.KeptResponses.{IsFirstKept, is_kept_of};
ghost use Rattle.corr_core.specs.IdSlotWord.{parts};
ghost use Rattle.reader_points.specs.ReaderPoints.{Context, next_program, point_program, with_kept, HasInHand};
ghost use Rattle.sock_words.specs.PackedWords.{id_slot};

use crate::point::{AnswerStep, Behind, FailStep, Lost, ReadNext, ReadPoint};
use id_points::CallId;
use prpc_frame::Frame;
use sock_words::{CorrelationId, IdWord};

/// Whether a response is one of a version of the id behind its first, whose range has so many.
fn is_of(frame: &Frame, id: CallId, range: u8) -> bool
    ensures { result ≡ is_kept_of (id_of id) range (frame_of frame.now) }
{
    let version = frame.meta.correlation_id;
    let first = id.number();
    CorrelationId(version).slot() == u32::from(id.slot())
        && first < version
        && version < first + u64::from(range)
}

/// Which of the kept responses ends the call with this id, whose range has so many versions: the first one of these.
pub fn first_kept(kept: &[Frame], id: CallId, range: u8) -> Option<usize>
    ensures none { IfNone result (kept_for (id_of id) range (map frame_of kept.now) ≡ []) }
    ensures some { IfSome result (λ i. IsFirstKept (id_of id) range kept.now i) }
{
    let mut i = 0;
    while i < kept.len() {
        if is_of(&kept[i], id, range) {
            return Some(i);
        }
        i += 1;
    }
    None
}

impl Lost {
    /// Where its id is locked, a kept response ends the call,
    pub fn answers(self) -> ReadPoint
        ensures program { (a : Context) (word : IdWord) (f : model.Frame) (fs : List model.Frame) → slot_in f ≡ id_slot (id_of self.id) → kept_for (id_of self.id) (parts word.0).range a.kept ≡ f ∷ fs
            → point_program (with_kept f a) result ≡ next_program a (ReadNext.Locked self word) }
        ensures hand { (a : Context) → HasInHand a result }
    {
        ReadPoint::Answer(Behind::Posts(self.closing), self.id, AnswerStep::Take)
    }

    /// or, where none was kept, the error does; the id has this word.
    pub fn fails(self, word: IdWord) -> ReadPoint
        ensures program { (a : Context) → kept_for (id_of self.id) (parts word.0).range a.kept ≡ [] → point_program a result ≡ next_program a (ReadNext.Locked self word) }
        ensures hand { (a : Context) → HasInHand a result }
    {
        ReadPoint::Fail(self, FailStep::Take(word))
    }
}
