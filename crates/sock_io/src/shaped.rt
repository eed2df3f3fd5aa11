ghost use Rattle.sock_io.specs.declared.shaped.TheConstants.{TAKEN_ROOM};
ghost use Rattle.std.specs.Prelude.{◌≡◌, ◌-◌, ◌<◌, ◌++◌, ◌∷◌, false, true, IfOk, IfSome, [], length};
ghost use Rattle.sock_io.specs.FaultCauses.{next_number};
ghost use Rattle.sock_io.specs.WritingHalfAnswers.{half_answer};
ghost use Rattle.sock_io.specs.LinkHalves.{PutStep, ReadyStep, FinishStep, SameKind, of_put, of_ready};
ghost use Rattle.sock_io.specs.PutAnswers.{FollowsShape, answer_at};
ghost use Rattle.sock_io.specs.ShapeOfPuts.{shaped_out};

use crate::answered::Answered;
use crate::counts::{next_call, risen};
use crate::link::{Out, Put, Ready};
use crate::noted_links::noted;
use crate::room::with_room;
use crate::shape::{does_fail, does_pause};
use ghosts::Ghosts;
use sock_words::{NoMemory, Shape};
use std::alloc::Global;
use std::marker::Model;

/// How many bytes a link may take: the room that it reserves when it is made.
pub const TAKEN_ROOM: usize = 2_097_152;

/// A writing half that behaves as its shape says, keeps all that it took, and tells all that it answered.
///
/// A put takes at most `piece` bytes. Where `again` is N, a put whose number N divides answers `Again`, unless the put
/// before it did. Where `fail` is N, put N and all later ones fail, and that goes before `Again`. A put that finds the
/// room full fails. What is left is as the half inside has it.
#[derive(Drop)]
pub struct Shaped<O: Out> {
    /// Open to linkers that compare the ends of a link: what was put through it is what was taken.
    pub inner: O,
    taken: Vec<u8>,
    shape: Shape,
    puts: u64,
    paused: bool,
    faults: u64,
    finished: bool,
    /// All that it answered, for the proofs.
    answers: Ghosts<Answered>,
}

impl<O: Out> Model for Shaped<O> {
    ghost use Rattle.sock_io.specs.declared.shaped.TheConstants.{TAKEN_ROOM};
    ghost use Rattle.std.specs.Prelude.{◌≡◌, ◌<◌, ◌≤◌, true, map, vec_capacity, vec_len, IfSome};
    ghost use Rattle.sock_io.specs.WritingHalfAnswers.{half_answer};
    ghost use Rattle.sock_io.specs.ShapeOfPuts.{ShapedState};

    ghost Value = { ShapedState };

    ghost view = { λ s. record { inner = O.state s.inner; shape = s.shape; puts = s.puts; paused = s.paused; taken = s.taken.items; faults = s.faults; answers = map half_answer s.answers.list } };

    ghost invariant = { λ s. (0 < s.shape.piece) × (TAKEN_ROOM ≤ vec_capacity s.taken) × (vec_len s.taken ≤ TAKEN_ROOM) × ((O.state s.inner).finished ≡ s.finished) × ((O.state s.inner).steady ≡ true) × IfSome (O.state s.inner).put_bytes (λ bytes. bytes ≡ s.taken.items) };
}

impl<O: Out> Shaped<O> {
    /// A half with this shape, and the room for what it takes. The half inside took nothing, isn't finished, and its `Now`
    /// always clears its next put.
    pub fn new(alloc: Global, inner: O, shape: Shape) -> Result<Self, NoMemory>
        requires piece { 0 < shape.piece }
        requires open { (O.state inner).finished ≡ false }
        requires steady { (O.state inner).steady ≡ true }
        requires fresh { IfSome (O.state inner).put_bytes (λ bytes. bytes ≡ []) }
        ensures { IfOk result (λ s. s ≡ record { inner = O.state inner; shape = shape; puts = 0; paused = false; taken = []; faults = 0; answers = [] }) }
    {
        let taken = with_room(alloc, TAKEN_ROOM)?;
        Ok(Shaped {
            inner,
            taken,
            shape,
            puts: 0,
            paused: false,
            faults: 0,
            finished: false,
            answers: Ghosts::of(&0u8),
        })
    }

    /// Whether it was finished.
    pub fn is_finished(&self) -> bool
        ensures { result ≡ self.now.inner.finished }
    {
        self.finished
    }
}

impl<O: Out> Shaped<O> {
    /// Puts, and leaves it to the caller to note what it answers.
    fn answer_put(&mut self, piece: &[u8]) -> Put
        requires { 0 < length piece.now }
        ensures step { PutStep (shaped_out self.old) (shaped_out (record self.new { answers = self.old.answers ++ of_put result ∷ [] })) piece.now result }
        ensures law { self.old.inner.finished ≡ false → FollowsShape self.old.shape (next_number self.old.puts) self.old.paused (TAKEN_ROOM - length self.old.taken) piece.now result }
        ensures exact { self.old.inner.finished ≡ false → self.old.inner.whole ≡ true → result ≡ answer_at self.old.shape (next_number self.old.puts) self.old.paused (TAKEN_ROOM - length self.old.taken) piece.now }
        ensures puts { self.new.puts ≡ next_number self.old.puts }
        ensures shape { self.new.shape ≡ self.old.shape }
        ensures inner { SameKind self.old.inner self.new.inner }
        ensures answers { self.new.answers ≡ self.old.answers }
    {
        self.puts = next_call(self.puts);
        let paused = self.paused;
        self.paused = false;
        if self.finished {
            return Put::Failed;
        }
        let free = TAKEN_ROOM - self.taken.len();
        if free == 0 || does_fail(&self.shape, self.puts) {
            self.faults = risen(self.faults);
            return Put::Failed;
        }
        if does_pause(&self.shape, self.puts) && !paused {
            self.paused = true;
            return Put::Again;
        }
        let most = piece.len().min(self.shape.piece as usize).min(free);
        match self.inner.put(&piece[..most]) {
            Put::Took(count) => match self.taken.extend_from_slice(&piece[..count]) {
                Ok(()) => Put::Took(count),
                Err(_) => unreachable!(),
            },
            Put::Again => {
                self.paused = true;
                Put::Again
            }
            Put::Failed => {
                self.faults = risen(self.faults);
                Put::Failed
            }
        }
    }

    /// Asks, and leaves it to the caller to note what it answers.
    fn answer_ready(&mut self) -> Ready
        ensures step { ReadyStep (shaped_out self.old) (shaped_out (record self.new { answers = self.old.answers ++ of_ready result ∷ [] })) result }
        ensures shape { self.new.shape ≡ self.old.shape }
        ensures inner { SameKind self.old.inner self.new.inner }
        ensures puts { self.new.puts ≡ self.old.puts }
        ensures answers { self.new.answers ≡ self.old.answers }
    {
        if self.finished {
            return Ready::Failed;
        }
        match self.inner.ready() {
            Ready::Now => Ready::Now,
            Ready::NotYet => Ready::NotYet,
            Ready::Failed => {
                self.faults = risen(self.faults);
                Ready::Failed
            }
        }
    }

    /// Notes an answer.
    fn note(&mut self, answer: Answered)
        ensures { self.new ≡ record self.old { answers = self.old.answers ++ half_answer answer ∷ [] } }
    {
        self.answers = noted(&self.answers, answer);
    }
}

impl<O: Out> Out for Shaped<O> {
    ghost state = { shaped_out };

    fn put(&mut self, piece: &[u8]) -> Put
        requires { 0 < length piece.now }
        ensures step { PutStep (shaped_out self.old) (shaped_out self.new) piece.now result }
        ensures law { self.old.inner.finished ≡ false → FollowsShape self.old.shape (next_number self.old.puts) self.old.paused (TAKEN_ROOM - length self.old.taken) piece.now result }
        ensures exact { self.old.inner.finished ≡ false → self.old.inner.whole ≡ true → result ≡ answer_at self.old.shape (next_number self.old.puts) self.old.paused (TAKEN_ROOM - length self.old.taken) piece.now }
        ensures puts { self.new.puts ≡ next_number self.old.puts }
        ensures shape { self.new.shape ≡ self.old.shape }
        ensures inner { SameKind self.old.inner self.new.inner }
    {
        let answer = self.answer_put(piece);
        self.note(Answered::Put(answer));
        answer
    }

    fn ready(&mut self) -> Ready
        ensures step { ReadyStep (shaped_out self.old) (shaped_out self.new) result }
        ensures shape { self.new.shape ≡ self.old.shape }
        ensures inner { SameKind self.old.inner self.new.inner }
        ensures puts { self.new.puts ≡ self.old.puts }
    {
        let answer = self.answer_ready();
        self.note(Answered::Ready(answer));
        answer
    }

    fn finish(&mut self)
        ensures step { FinishStep (shaped_out self.old) (shaped_out self.new) }
        ensures shape { self.new.shape ≡ self.old.shape }
        ensures inner { SameKind self.old.inner self.new.inner }
        ensures puts { self.new.puts ≡ self.old.puts }
    {
        self.inner.finish();
        self.finished = true;
    }

    fn taken(&self) -> &[u8]
        ensures { result.now ≡ self.now.taken }
    {
        self.taken.as_slice()
    }
}
