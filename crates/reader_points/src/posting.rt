ghost use Rattle.std.specs.Prelude.{◌==◌, ◌&&◌, not, ◌≡◌, ℕ};
ghost use Rattle.sock_words.specs.PackedWords.{at_word_link, at_word_slot, at_word_first, at_word_attempt, call_id};
ghost use Rattle.seat_programs.specs.ReaderProgram.{posted_last};
ghost use Rattle.call_points.specs.AsideCodeSteps.{after_word};
ghost use Rattle.id_points.specs.IdsAndAttemptNumbers.{id_of, number_of};
ghost use Rattle.id_points.specs.CallIdLoopTurns.{post_on};
ghost use Rattle.reader_points.specs.ReaderPoints.{Context, next_program, load_program, posts_program, on_call, error_in, HasNext};

use crate::point::{Closing, Lost, ReadNext, ReadPoint};
use call_points::{OnCall, WordStep};
use id_points::{AttemptNumber, CallId, IdError, PostTurn};
use sock_words::AtWord;

impl Closing {
    /// Whether an at word names the reader's link.
    fn is_named(self, word: AtWord) -> bool
        ensures { result ≡ (not (word.0 == 0) && (at_word_link word.0 == self.reader.link)) }
    {
        !word.is_none() && word.link() == self.reader.link
    }

    /// The call whose at word this is.
    fn lost_at(self, word: AtWord) -> Lost
        ensures closing { result.closing ≡ self }
        ensures id { id_of result.id ≡ call_id (at_word_slot word.0) (at_word_first word.0) }
        ensures attempt { number_of result.attempt ≡ at_word_attempt word.0 }
    {
        Lost {
            closing: self,
            id: CallId::pack(word.slot(), word.first()),
            attempt: AttemptNumber::new(word.attempt()),
        }
    }

    /// How it goes on by the at word of a call: where this names the link, an error is posted.
    pub fn loaded(self, found: u64) -> ReadNext
        ensures program { (a : Context) (operation : ℕ) → next_program a result ≡ after_word (load_program a self operation) found }
        ensures hand { (a : Context) → HasNext a result }
    {
        let word = AtWord(found);
        if self.is_named(word) {
            let lost = self.lost_at(word);
            ReadNext::Point(ReadPoint::Post(lost, WordStep::Read))
        } else {
            ReadNext::Posts(self)
        }
    }
}

impl Lost {
    /// The error that ends it: the reading's code, for its attempt.
    pub fn error(self) -> OnCall
        ensures { result ≡ on_call self }
    {
        OnCall {
            id: self.id,
            error: IdError::of_attempt(self.closing.code(), self.attempt),
        }
    }

    /// How it goes on behind the step of the post.
    pub fn posted(self, turn: PostTurn) -> ReadNext
        ensures program { (a : Context) → next_program a result ≡ post_on (id_of self.id) (error_in self) (posted_last (id_of self.id) (error_in self) a.kept (posts_program a self.closing)) turn }
        ensures hand { (a : Context) → HasNext a result }
    {
        match turn {
            PostTurn::Gone | PostTurn::Stale | PostTurn::Crowded(_, _) | PostTurn::Queued => {
                ReadNext::Posts(self.closing)
            }
            PostTurn::Locked(word) => ReadNext::Locked(self, word),
            PostTurn::Again(from) => {
                ReadNext::Point(ReadPoint::Post(self, WordStep::Exchange(from)))
            }
        }
    }
}
