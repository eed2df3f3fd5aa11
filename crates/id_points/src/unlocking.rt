ghost use Rattle.std.specs.Prelude.{◌≡◌, ◌<◌, ◌+◌, ◌==◌, ℕ, IsTrue, false, if◌then◌else◌};
ghost use Rattle.corr_core.specs.IdSlotWord.{parts, unlocked_word};
ghost use Rattle.seat_programs.specs.LoopHeads.{Unlocking, Unlocks};
ghost use Rattle.seat_programs.specs.Programs.{Program, Round};
ghost use Rattle.seat_programs.specs.PostPrograms.{packed, popped};
ghost use Rattle.id_points.specs.CallIdLoopTurns.{unlock_on};
ghost use Rattle.sock_words.specs.PackedWords.{bit};

use crate::error::IdError;
use crate::posting::is_stale;
use sock_words::IdWord;

/// How the giving back of a lock goes on behind its exchange.
#[derive(Clone, Copy)]
pub enum UnlockTurn {
    /// It is done: the id is open, and has this word,
    Open(IdWord),
    /// or it stays locked with this word, and this error was taken out.
    Next(IdWord, IdError),
    /// The lock is given back from this word, with an advance to the next attempt or without.
    Again(IdWord, bool),
}

/// The word without its oldest error, at the next attempt or at this one; where it has no error, the open one.
fn unlocked(word: IdWord, advance: bool) -> IdWord
    requires { IsTrue advance → (parts word.0).attempt < 7 }
    ensures { result.0 ≡ packed (unlocked_word (parts word.0) (bit advance)) }
{
    let state = if word.oldest() == 0 {
        IdWord::OPEN
    } else {
        IdWord::LOCKED
    };
    let attempt = if advance {
        word.attempt() + 1
    } else {
        word.attempt()
    };
    IdWord::pack(word.first(), state, word.range(), attempt, word.second(), 0)
}

/// What is done with the error that was taken out, 0 for none: a stale one is thrown away, and the lock given back again.
fn popped_turn(oldest: IdError, after: IdWord) -> UnlockTurn
    ensures { (i : ℕ) (k : Unlocking → Program) → unlock_on i k result ≡ popped i oldest.0 after.0 k }
{
    if oldest.0 == 0 {
        UnlockTurn::Open(after)
    } else if is_stale(oldest, after) {
        UnlockTurn::Again(after, false)
    } else {
        UnlockTurn::Next(after, oldest)
    }
}

/// How the giving back of a lock goes on behind its exchange from this word, which found that one (`bthread_id_unlock`,
/// with an advance `bthread_id_reset2`).
pub fn unlock_behind(from: IdWord, advance: bool, found: IdWord) -> UnlockTurn
    requires { IsTrue advance → (parts from.0).attempt < 7 }
    ensures { (i : ℕ) (k : Unlocking → Program) → unlock_on i k result ≡
        (if found.0 == from.0 then popped i (parts from.0).oldest (packed (unlocked_word (parts from.0) (bit advance))) k
        else Round (Unlocks i found.0 advance) k) }
{
    if found != from {
        return UnlockTurn::Again(found, advance);
    }
    popped_turn(IdError(from.oldest()), unlocked(from, advance))
}
