ghost use Rattle.std.specs.Prelude.{◌≡◌, ◌==◌, ℕ, if◌then◌else◌};
ghost use Rattle.corr_core.specs.IdSlotWord.{parts, posted_word};
ghost use Rattle.seat_programs.specs.LoopHeads.{Posting, HasLocked, WasQueued};
ghost use Rattle.seat_programs.specs.Programs.{Program};
ghost use Rattle.seat_programs.specs.PostPrograms.{judged, packed, is_first, is_stale};
ghost use Rattle.id_points.specs.IdsAndAttemptNumbers.{id_of};
ghost use Rattle.id_points.specs.CallIdLoopTurns.{post_on};

use crate::call_id::CallId;
use crate::error::IdError;
use sock_words::IdWord;

/// How the post of an error goes on behind a step.
#[derive(Clone, Copy)]
pub enum PostTurn {
    /// It is done: the range has ended,
    Gone,
    /// another attempt is current,
    Stale,
    /// two errors are queued, with these codes,
    Crowded(u16, u16),
    /// the error is queued,
    Queued,
    /// or the id was open, is locked now, and has this word.
    Locked(IdWord),
    /// The error is posted from this word.
    Again(IdWord),
}

/// Whether the range of an id is there.
pub(crate) fn is_there(first: u32, word: IdWord) -> bool
    ensures { result ≡ is_first first (parts word.0) }
{
    word.first() == first && word.state() != IdWord::FREE
}

/// Whether an error is for another attempt than the current one.
pub(crate) fn is_stale(error: IdError, word: IdWord) -> bool
    ensures { result ≡ is_stale error.0 (parts word.0) }
{
    !error.is_whole() && !error.is_of(word.attempt())
}

/// What is done about an error for an id by the word found (`bthread_id_error`): an ended range, another attempt and a
/// third error refuse it, in this order.
pub fn judge(id: CallId, error: IdError, found: IdWord) -> PostTurn
    ensures { (k : Posting → Program) → post_on (id_of id) error.0 k result ≡ judged (id_of id) error.0 found.0 k }
{
    if !is_there(id.first(), found) {
        PostTurn::Gone
    } else if is_stale(error, found) {
        PostTurn::Stale
    } else if found.state() == IdWord::LOCKED && found.second() != 0 {
        PostTurn::Crowded(
            IdError(found.oldest()).code(),
            IdError(found.second()).code(),
        )
    } else {
        PostTurn::Again(found)
    }
}

/// The word of this open id, locked.
pub(crate) fn locked(word: IdWord) -> IdWord
    requires { (parts word.0).state ≡ 1 }
    ensures { (e : ℕ) → result.0 ≡ packed (posted_word (parts word.0) e) }
{
    IdWord::pack(
        word.first(),
        IdWord::LOCKED,
        word.range(),
        word.attempt(),
        word.oldest(),
        word.second(),
    )
}

/// How the post of an error goes on behind its exchange from this word, which found that one.
pub fn post_behind(id: CallId, error: IdError, from: IdWord, found: IdWord) -> PostTurn
    ensures { (k : Posting → Program) → post_on (id_of id) error.0 k result ≡
        (if found.0 == from.0 then (if (parts from.0).state == 1 then k (HasLocked (packed (posted_word (parts from.0) error.0))) else k WasQueued)
        else judged (id_of id) error.0 found.0 k) }
{
    if found != from {
        judge(id, error, found)
    } else if from.state() == IdWord::OPEN {
        PostTurn::Locked(locked(from))
    } else {
        PostTurn::Queued
    }
}
