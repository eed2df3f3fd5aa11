ghost use Rattle.std.specs.Prelude.{◌≡◌, ◌==◌, ℕ, None, Some, if◌then◌else◌};
ghost use Rattle.corr_core.specs.IdSlotWord.{parts, posted_word};
ghost use Rattle.seat_programs.specs.LoopHeads.{Locking, Has};
ghost use Rattle.seat_programs.specs.Programs.{Program};
ghost use Rattle.seat_programs.specs.PostPrograms.{packed, locking, is_sought, is_first};
ghost use Rattle.id_points.specs.CallIdLoopTurns.{lock_on, sought_as};

use crate::posting::{is_there, locked};
use corr_core::has_version;
use sock_words::IdWord;

/// What is sought in an id slot.
#[derive(Clone, Copy)]
pub enum Sought {
    /// The range with this first version.
    First(u32),
    /// The range that has this version behind its first.
    Version(u32),
}

/// How the way to a lock goes on behind a step.
#[derive(Clone, Copy)]
pub enum LockTurn {
    /// It is done: what is sought isn't there, and this word was found,
    NotThere(IdWord),
    /// or the id is locked, and has this word.
    Has(IdWord),
    /// The lock is tried from this word, or the word is read again, since another seat has the lock.
    Again(Option<IdWord>),
}

impl Sought {
    /// Whether it is there by this word.
    fn is_in(self, word: IdWord) -> bool
        ensures { result ≡ is_sought (sought_as self) (parts word.0) }
    {
        match self {
            Sought::First(first) => is_there(first, word),
            Sought::Version(version) => has_version(word, version),
        }
    }
}

/// How the way to a lock goes on by the word that was read (`bthread_id_lock`).
pub fn lock_by(sought: Sought, found: IdWord) -> LockTurn
    ensures { (i : ℕ) (k : Locking → Program) → lock_on i (sought_as sought) k result ≡ locking i (sought_as sought) found.0 k }
{
    if !sought.is_in(found) {
        LockTurn::NotThere(found)
    } else if found.state() == IdWord::OPEN {
        LockTurn::Again(Some(found))
    } else {
        LockTurn::Again(None)
    }
}

/// How it goes on behind its exchange from this open word, which found that one.
pub fn lock_behind(sought: Sought, from: IdWord, found: IdWord) -> LockTurn
    requires { (parts from.0).state ≡ 1 }
    ensures { (i : ℕ) (k : Locking → Program) → lock_on i (sought_as sought) k result ≡
        (if found.0 == from.0 then k (Has (packed (posted_word (parts from.0) 0))) else locking i (sought_as sought) found.0 k) }
{
    if found == from {
        LockTurn::Has(locked(from))
    } else {
        lock_by(sought, found)
    }
}

/// Whether an end is waited for on: the range with this first version is still there.
pub fn is_awaited(first: u32, found: IdWord) -> bool
    ensures { result ≡ is_first first (parts found.0) }
{
    is_there(first, found)
}
