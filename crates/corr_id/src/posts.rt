// An error for an id.
ghost use Rattle.std.specs.Prelude.{◌≡◌, ◌<◌, ◌≤◌, MatchOption, IsTrue, false};
ghost use Rattle.corr_core.specs.IdSlotWord.{parts, posted_word};
ghost use Rattle.corr_id.specs.IdTableSeat.{Sits, Stays};
ghost use Rattle.corr_id.specs.SeatBehindIdCalls.{error_in};
ghost use Rattle.corr_id.specs.PostAnswers.{PostOk, PostedNow, IsStale, IsTimely};

use crate::calls::{IdLock, lacks_id};
use crate::table::{IdSeat, IdTable};
use sock_words::{CorrelationId, IdWord};
use std::sync::Wait;

/// What became of an error.
pub enum Posted<C> {
    /// The id was open; now it is locked, and the error is the caller's to handle.
    Locked(IdLock<C>),
    /// It was locked, and the error waits behind those that were queued.
    Queued,
    /// It has ended or never was: the word that was found, 0 where there is no such slot.
    Gone { found: u64 },
    /// Another attempt is current, this one.
    Stale { current: u8 },
    /// It was locked with two errors queued, of these codes.
    Crowded { first: u16, second: u16 },
}

impl<C> IdTable<C> {
    /// Hands an error to an id (`bthread_id_error`): where it is open it is locked, where it is locked the error is queued. The
    /// code is 1 to 4,095; the attempt is at most 6, and `None` for the whole call. The refusals come in the order `Gone`,
    /// `Stale`, `Crowded`.
    pub fn post<R: Wait>(
        &self,
        rt: &R,
        seat: &mut IdSeat<C>,
        id: u64,
        code: u16,
        attempt: Option<u8>,
    ) -> Posted<C>
        requires seat { Sits self.now.table.shared.table_id seat.old }
        requires code { (1 ≤ code) × (code ≤ 4095) }
        requires attempt { MatchOption attempt (Unit {0}) (λ n. n ≤ 6) }
        ensures seat { Stays seat.old seat.new }
        ensures posted { PostOk self.now.plan.slots seat.old.me.0 seat.new.me.0 id code attempt result }
        ensures found_now { PostedNow self.now.plan.slots seat.old.me.0 seat.new.me.0 id code attempt result }
    {
        let id = CorrelationId(id);
        let Some(at) = self.slot_of(id) else {
            return Posted::Gone { found: 0 };
        };
        let own = id.version();
        let error = corr_core::error_bits(code, attempt);
        let mut found = self.load_id_word(seat, at);
        'tries: for _ in rt.forever() {
            let word = IdWord(found);
            if lacks_id(word, own) {
                return Posted::Gone { found };
            }
            if is_stale(word, attempt) {
                return Posted::Stale {
                    current: word.attempt(),
                };
            }
            if word.state() == IdWord::OPEN {
                match self.try_lock(seat, at, found) {
                    Ok(lock) => return Posted::Locked(lock),
                    Err(now) => found = now,
                }
            } else if word.second() != 0 {
                return Posted::Crowded {
                    first: word.oldest() / 8,
                    second: word.second() / 8,
                };
            } else {
                let next = queued(word, code, attempt);
                let now = self.queue_id(seat, at, found, next, error);
                if now == found {
                    return Posted::Queued;
                }
                found = now;
            }
        }
        unreachable!()
    }
}

// Whether the error is for another attempt than the current one.
fn is_stale(word: IdWord, attempt: Option<u8>) -> bool
    ensures stale { IsTrue result → IsStale attempt (parts word.0).attempt }
    ensures timely { result ≡ false → IsTimely attempt (parts word.0).attempt }
{
    match attempt {
        None => false,
        Some(n) => n != word.attempt(),
    }
}

// The word with one more error.
fn queued(word: IdWord, code: u16, attempt: Option<u8>) -> u64
    requires word { ((parts word.0).state ≡ 2) × ((parts word.0).second ≡ 0) }
    requires code { (1 ≤ code) × (code ≤ 4095) }
    requires attempt { MatchOption attempt (Unit {0}) (λ n. n ≤ 6) }
    ensures { parts result ≡ posted_word (parts word.0) (error_in code attempt) }
{
    corr_core::post_id(word.0, word, code, attempt).next
}
