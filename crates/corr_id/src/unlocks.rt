// Giving a lock back.
ghost use Rattle.std.specs.Prelude.{◌≡◌, ◌≢◌, ◌+◌, ◌<◌, IsTrue, true, false, IfSome};
ghost use Rattle.corr_core.specs.IdSlotWord.{parts, unlocked_word, code_of};
ghost use Rattle.corr_core.specs.declared.marks.Hand.TheVariants.{Empty};
ghost use Rattle.corr_id.specs.IdTableSeat.{Sits, Stays};
ghost use Rattle.corr_id.specs.SeatBehindIdCalls.{Locks, error_in};
ghost use Rattle.corr_id.specs.Unlocks.{UnlockOk, stale};
ghost use Rattle.sock_words.specs.PackedWords.{bit};

use crate::calls::IdLock;
use crate::table::{IdSeat, IdTable};
use sock_words::IdWord;

/// What became of a lock that was given back.
pub enum Unlocked<C> {
    /// The id is open.
    Open,
    /// It is still locked, for the oldest error that was queued for the current attempt or for the whole call (`None`): its code
    /// and its attempt.
    Next {
        lock: IdLock<C>,
        code: u16,
        attempt: Option<u8>,
    },
}

impl<C> IdTable<C> {
    /// Opens the id, or hands out the oldest queued error that isn't stale; stale ones are thrown away (`bthread_id_unlock`), and
    /// no others. It opens only once no error is queued. With `advance` the current attempt grows by one, and then there is an
    /// attempt left.
    pub fn unlock(&self, seat: &mut IdSeat<C>, lock: IdLock<C>, advance: bool) -> Unlocked<C>
        requires seat { Sits self.now.table.shared.table_id seat.old }
        requires lock { (lock.slot < self.now.plan.slots) × Locks lock.slot seat.old.me.0 (parts lock.word.0) lock.content Empty }
        requires room { IsTrue advance → (parts lock.word.0).attempt + 2 < (parts lock.word.0).range }
        ensures seat { Stays seat.old seat.new }
        ensures unlocked { UnlockOk seat.old.me.0 seat.new.me.0 lock.slot (parts lock.word.0) lock.content advance result }
    {
        let IdLock {
            content,
            slot,
            word,
        } = lock;
        let nothing = self.move_call(seat, slot, Some(content));
        let None = nothing else {
            unreachable!();
        };
        let mut from = word.0;
        let mut step = advance;
        'tries: loop {
            let next = without_oldest(from, step);
            let found = self.unlock_id(seat, slot, from, next);
            if found != from {
                from = found;
                continue;
            }
            let oldest = IdWord(from).oldest();
            if oldest == 0 {
                return Unlocked::Open;
            }
            from = next;
            step = false;
            if !is_thrown_away(oldest, from) {
                let lock = self.take_call(seat, slot, IdWord(from));
                return Unlocked::Next {
                    lock,
                    code: oldest / 8,
                    attempt: attempt_in(oldest),
                };
            }
        }
    }
}

// The word without its oldest error.
fn without_oldest(word: u64, advance: bool) -> u64
    requires locked { (parts word).state ≡ 2 }
    requires room { IsTrue advance → (parts word).attempt + 2 < (parts word).range }
    ensures { parts result ≡ unlocked_word (parts word) (bit advance) }
{
    corr_core::unlock_id(word, IdWord(word), advance).next
}

// Whether the error is stale at this word.
fn is_thrown_away(error: u16, word: u64) -> bool
    requires { 0 < error }
    ensures thrown { result ≡ true → stale (parts word).attempt error ≡ 1 }
    ensures kept { result ≡ false → stale (parts word).attempt error ≡ 0 }
{
    let attempt = error % 8;
    attempt != 7 && attempt != u16::from(IdWord(word).attempt())
}

// The attempt of an error.
fn attempt_in(error: u16) -> Option<u8>
    ensures error { error_in (code_of error) result ≡ error }
    ensures one { IfSome result (λ n. n ≢ 7) }
{
    let attempt = error % 8;
    if attempt == 7 {
        None
    } else {
        Some(attempt as u8)
    }
}
