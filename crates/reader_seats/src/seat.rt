ghost use Rattle.std.specs.Prelude.{◌≡◌, ◌<◌, ◌≤◌, ◌∷◌, ◌++◌, [], ℕ, true, List, Option, Some, IfOk, OnOk, length, option_map};
ghost use Rattle.brpc_model.specs.Frame.{NoneYet, judged};
ghost use Rattle.brpc_model.specs.ResponseOutcome.{ending_of};
ghost use Rattle.sock_io.specs.LinkHalves.{IsTakeCount};
ghost use Rattle.seat_programs.specs.FoundAndChangedAside.{at_last};
ghost use Rattle.seat_programs.specs.ReaderProgram.{reader};
ghost use Rattle.call_points.specs.AsideCodeSteps.{after_word, after_call};
ghost use Rattle.seat_states.specs.ProgramStepsOfMachine.{first_in};
ghost use Rattle.reader_points.specs.ReaderPoints.{room_at, next_program, behind_program, frames_behind, posts_program, with_taking, HasNext, GoesBy, GoesByWord, TakesBytes, TakesCall, MayFind, IsWithin};
ghost use Rattle.reader_points.specs.ReaderCodeSteps.{step_as, after_taking};
ghost use Rattle.reader_seats.specs.ReaderState.{around, reader_program};
ghost use Rattle.reader_seats.specs.ReaderGoesOn.{GoesOn, taking_of};

use crate::hand::{Hand, hand_with, keep};
use crate::outcomes::{ending, failed, tell, unread};
use crate::taking::taken_by;
use call_points::Aside;
use io_buf::{BlockPool, NoMemory};
use prpc_frame::{Cutter, Frame};
use reader_points::{
    Behind, Closing, Cut, Lost, ReadNext, ReadPoint, ReadStep, Reader, discarded, first_kept,
};
use sock_io::Take;
use sock_message::Call;
use sock_words::{IdWord, Outcome};
use std::alloc::Global;
use std::marker::Model;

/// The seat of the reader of a link. It makes no step itself: whoever has the tables makes its next one, and tells it what
/// that found. Where memory runs out it may only be dropped. Contracts see where it stands and what it has in hand.
#[derive(Drop)]
pub struct ReaderSeat {
    point: ReadPoint,
    cutter: Cutter,
    kept: Vec<Frame>,
    hand: Hand,
    call: Option<Call>,
    alloc: Global,
}

impl Model for ReaderSeat {
    ghost use Rattle.reader_seats.specs.ReaderState.{ReaderData};

    ghost Value = { ReaderData };

    ghost use Rattle.reader_seats.specs.InsideReaderSeat.{data_of, HoldsWhatItNeeds};

    ghost view = { data_of };

    ghost invariant = { HoldsWhatItNeeds };
}

impl ReaderSeat {
    /// The reader of this link, before the word of the `open` of this operation is there. It takes no memory.
    pub fn new(alloc: Global, link: u16, operation: u16) -> ReaderSeat
        ensures { (calls : List ℕ) → reader_program calls result ≡ reader calls link operation }
    {
        ReaderSeat {
            point: ReadPoint::Open(link, operation),
            cutter: Cutter::new(alloc),
            kept: Vec::new(alloc),
            hand: Hand::Empty,
            call: None,
            alloc,
        }
    }

    /// Where it stands.
    pub fn point(&self) -> ReadPoint
        ensures { result ≡ self.now.point }
    {
        self.point
    }

    /// The next step, if there is one. A take is of some bytes, at most 4,096.
    pub fn step(&self) -> Option<ReadStep>
        ensures program { (calls : List ℕ) → option_map (step_as self.now.asked) result ≡ first_in (reader_program calls self.now) }
        ensures kind { GoesBy self.now.point result }
        ensures room { (link count : ℕ) → result ≡ Some (ReadStep.Aside (Aside.TakeBytes link count)) → (0 < count) × (count ≤ 4096) }
    {
        self.point.step()
    }

    /// It goes on over these calls by the word that its step found.
    pub fn follow_word(
        &mut self,
        calls: &[u16],
        found: u64,
        outcomes: &mut [Option<Outcome>],
    ) -> Result<(), NoMemory>
        requires calls { length calls.now ≤ 4096 }
        requires within { IsWithin self.old.point }
        requires word { MayFind self.old.point found }
        requires step { GoesByWord self.old.point }
        ensures { OnOk result (GoesOn calls.now (after_word (reader_program calls.now self.old) found) self.new outcomes.old outcomes.new) }
    {
        let next = self.point.next(self.operation(), found);
        self.follow(calls, next, outcomes)
    }

    /// It goes on with a call that its step took out of its home.
    pub fn follow_call(&mut self, call: Call)
        requires { TakesCall self.old.point }
        ensures { (calls : List ℕ) (outcomes : List (Option Outcome)) → GoesOn calls (after_call (reader_program calls self.old) call) self.new outcomes outcomes }
    {
        self.point = self.point.with_call(call.operation);
        self.call = Some(call);
    }

    /// It goes on over these calls by what its link answered to a take and gave into the room; a run that is ending is told so.
    pub fn follow_take(
        &mut self,
        pool: &mut BlockPool,
        calls: &[u16],
        room: &[u8],
        answer: Take,
        ending: bool,
        outcomes: &mut [Option<Outcome>],
    ) -> Result<(), NoMemory>
        requires calls { length calls.now ≤ 4096 }
        requires step { TakesBytes self.old.point }
        requires room { length room.now ≤ room_at self.old.point }
        requires answer { IsTakeCount room.now answer }
        ensures { OnOk result (GoesOn calls.now (after_taking (reader_program calls.now self.old) (at_last ending (taking_of room.now answer))) self.new outcomes.old outcomes.new) }
    {
        let taken = taken_by(answer, ending);
        match self.point {
            ReadPoint::Take(reader) => {
                let next = reader.taken(taken);
                self.feed(pool, room, answer)?;
                self.follow(calls, next, outcomes)
            }
            ReadPoint::Discard(link, total) => {
                self.point = discarded(link, total, taken);
                Ok(())
            }
            _ => Ok(()),
        }
    }

    /// The operation of the call in hand; 0 where there is none.
    fn operation(&self) -> u16
        ensures { result ≡ self.now.asked.operation }
    {
        match &self.call {
            Some(call) => call.operation,
            None => 0,
        }
    }

    /// The outcome that the response in hand gives the call with this id; where there is none, that of one that can't be read.
    fn outcome(&self, id: u64) -> Result<Outcome, NoMemory>
        ensures { IfOk result (λ outcome. outcome ≡ ending_of id self.now.frame) }
    {
        match &self.hand {
            Hand::Response(frame) => ending(self.alloc, id, frame),
            Hand::Kept(place) if *place < self.kept.len() => {
                ending(self.alloc, id, &self.kept[*place])
            }
            Hand::Kept(_) | Hand::Empty => Ok(unread(id)),
        }
    }

    /// What its link gave into the room is fed to its cutter. Where it goes on is still to be said: it rests.
    fn feed(&mut self, pool: &mut BlockPool, room: &[u8], answer: Take) -> Result<(), NoMemory>
        requires rest { judged self.old.held ≡ NoneYet }
        requires answer { IsTakeCount room.now answer }
        ensures { OnOk result ((calls : List ℕ) → around calls self.new ≡ with_taking (taking_of room.now answer) (around calls self.old)) }
    {
        self.point = ReadPoint::Rest;
        if let Take::Took(count) = answer {
            self.cutter.feed(pool, &room[..count])?;
        }
        Ok(())
    }

    /// It goes on over these calls behind a step.
    fn follow(
        &mut self,
        calls: &[u16],
        next: ReadNext,
        outcomes: &mut [Option<Outcome>],
    ) -> Result<(), NoMemory>
        requires calls { length calls.now ≤ 4096 }
        requires hand { (others : List ℕ) → HasNext (around others self.old) next }
        ensures { OnOk result (GoesOn calls.now (next_program (around calls.now self.old) next) self.new outcomes.old outcomes.new) }
    {
        match next {
            ReadNext::Point(point) => {
                self.point = point;
                Ok(())
            }
            ReadNext::Frames(reader) => self.cut_next(calls, reader),
            ReadNext::Early(reader) => {
                self.keep()?;
                self.cut_next(calls, reader)
            }
            ReadNext::Answered(operation, id, behind) => {
                let outcome = self.outcome(id.number())?;
                tell(outcomes, operation, outcome);
                self.go_behind(calls, behind)
            }
            ReadNext::Posts(closing) => {
                self.post_next(calls, closing);
                Ok(())
            }
            ReadNext::Locked(lost, word) => {
                self.end_locked(lost, word);
                Ok(())
            }
            ReadNext::CallEnded(operation, lost) => {
                tell(outcomes, operation, failed(lost));
                self.post_next(calls, lost.closing);
                Ok(())
            }
        }
    }

    /// It goes on behind the end of a call by a response.
    fn go_behind(&mut self, calls: &[u16], behind: Behind) -> Result<(), NoMemory>
        requires { length calls.now ≤ 4096 }
        ensures { OnOk result (reader_program calls.now self.new ≡ behind_program (around calls.now self.old) behind) }
    {
        match behind {
            Behind::Frames(reader) => self.cut_next(calls, reader),
            Behind::Posts(closing) => {
                self.post_next(calls, closing);
                Ok(())
            }
        }
    }

    /// The response in hand is kept. Where the reader goes on is still to be said: it rests.
    fn keep(&mut self) -> Result<(), NoMemory>
        requires { self.old.fresh ≡ true }
        ensures { OnOk result ((self.new.held ≡ self.old.held) × (self.new.kept ≡ self.old.kept ++ self.old.frame ∷ [])) }
    {
        self.point = ReadPoint::Rest;
        keep(&mut self.hand, &mut self.kept)
    }

    /// It goes on with the next response for one of these calls among the bytes that it has, with more bytes, or at the end of
    /// the reading.
    fn cut_next(&mut self, calls: &[u16], reader: Reader) -> Result<(), NoMemory>
        requires { length calls.now ≤ 4096 }
        ensures { OnOk result (reader_program calls.now self.new ≡ frames_behind (around calls.now self.old) reader self.old.kept) }
    {
        self.call = None;
        self.point = ReadPoint::Rest;
        let Cut { frame, point } = reader.cut(&mut self.cutter, calls.len() as u16)?;
        self.hand = hand_with(frame);
        self.point = point;
        Ok(())
    }

    /// It goes on with the next of these calls, or behind the last.
    fn post_next(&mut self, calls: &[u16], closing: Closing)
        requires { length calls.now ≤ 4096 }
        ensures { reader_program calls.now self.new ≡ posts_program (around calls.now self.old) closing }
    {
        self.call = None;
        self.hand = Hand::Empty;
        self.point = closing.posts(calls);
    }

    /// It goes on with the end of this call, whose id is locked and has this word.
    fn end_locked(&mut self, lost: Lost, word: IdWord)
        ensures { (calls : List ℕ) → reader_program calls self.new ≡ next_program (around calls self.old) (ReadNext.Locked lost word) }
    {
        match first_kept(&self.kept, lost.id, word.range()) {
            Some(place) => {
                self.hand = Hand::Kept(place);
                self.point = lost.answers();
            }
            None => self.point = lost.fails(word),
        }
    }
}
