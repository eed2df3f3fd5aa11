ghost use Rattle.std.specs.Prelude.{◌≡◌, ◌≢◌, ◌+◌, ◌<◌, ◌≤◌, ℕ, [], IfSome, MatchOption};
ghost use Rattle.corr_core.specs.IdSlotWord.{parts};
ghost use Rattle.corr_core.specs.declared.marks.Hand.TheVariants.{Empty};
ghost use Rattle.id_rule.specs.LawfulIdTable.{tokens_in};
ghost use Rattle.corr_id.specs.IdTableSeat.{Sits, IsFree};
ghost use Rattle.corr_id.specs.SeatBehindIdCalls.{Locks};
ghost use Rattle.corr_id.specs.IdTableOpening.{AreNew};

use corr_id::{IdGone, IdLock, IdSeat, IdTable, Posted, Unlocked};
use sock_words::IdWord;
use std::alloc::Global;
use std::process::Abort;
use std::sync::Wait;
use std::thread;

type Table = IdTable<u8>;

type Seat = IdSeat<u8>;

/// What became of an error for an id that this seat has locked.
#[derive(Clone, Copy, PartialEq, Eq, Debug)]
enum Own {
    Queued,
    Crowded(u16, u16),
    Other,
}

/// A seat of the table.
fn one_of(table: &Table, seats: &mut Vec<Seat>) -> Option<Seat>
    requires { AreNew table.now.table.shared.table_id seats.old.items }
    ensures seat { IfSome result (λ s. Sits table.now.table.shared.table_id s × IsFree s.me.0) }
    ensures left { AreNew table.now.table.shared.table_id seats.new.items }
{
    seats.pop()
}

/// A table of so many slots, a seat of it, and its other seats.
fn begin(alloc: Global, slots: u16, seats: u16) -> Option<(Table, Seat, Vec<Seat>)>
    requires { (slots ≤ 4096) × (1 ≤ seats) × (seats ≤ 64) }
    ensures plan { IfSome result (λ t. t.0.plan.slots ≡ slots) }
    ensures seat { IfSome result (λ t. Sits t.0.table.shared.table_id t.1 × IsFree t.1.me.0) }
    ensures seats { IfSome result (λ t. AreNew t.0.table.shared.table_id t.2.items) }
{
    let Ok((table, mut all)) = IdTable::new(alloc, slots, 1, seats) else {
        return None;
    };
    let seat = one_of(&table, &mut all)?;
    Some((table, seat, all))
}

/// Posts an error of an attempt, or of the whole call, for the id of this lock.
fn post_own<R: Wait + Abort>(
    rt: &R,
    table: &Table,
    seat: &mut Seat,
    lock: IdLock<u8>,
    code: u16,
    attempt: Option<u8>,
) -> (IdLock<u8>, Own)
    requires seat { Sits table.now.table.shared.table_id seat.old }
    requires lock { (lock.slot < table.now.plan.slots) × Locks lock.slot seat.old.me.0 (parts lock.word.0) lock.content Empty }
    requires others { (j : ℕ) → j ≢ lock.slot → tokens_in j seat.old.me.0 ≡ [] }
    requires code { (1 ≤ code) × (code < 4096) }
    requires attempt { MatchOption attempt (Unit {0}) (λ n. n ≤ 6) }
    ensures seat { Sits table.now.table.shared.table_id seat.new }
    ensures lock { result.0 ≡ lock }
    ensures locks { Locks lock.slot seat.new.me.0 (parts lock.word.0) lock.content Empty }
    ensures others { (j : ℕ) → j ≢ lock.slot → tokens_in j seat.new.me.0 ≡ [] }
{
    let answer = table.post(rt, seat, lock.id(), code, attempt);
    match answer {
        Posted::Queued => (lock, Own::Queued),
        Posted::Crowded { first, second } => (lock, Own::Crowded(first, second)),
        Posted::Gone { found: _found } => (lock, Own::Other),
        Posted::Stale { current: _current } => (lock, Own::Other),
        Posted::Locked(_other) => panic!(rt; "locked twice"),
    }
}

// A slot gets a range of two versions, whose two queued errors are kept and whose end makes every version of it past.
#[test]
fn two_errors_are_kept(rt: HostRuntime) {
    let Some((table, mut seat, _seats)) = begin(rt.alloc(), 1, 1) else {
        panic!(&rt; "no memory");
    };
    assert!(&rt; matches!(table.create(&mut seat, 2, 7), Ok(1)));
    let first = table.lock(&rt, &mut seat, 1);
    let Ok(lock) = first else {
        panic!(&rt; "not locked");
    };
    assert!(&rt;
        lock.id() == 1 && *lock.content() == 7 && lock.attempt() == 0 && lock.range() == 2
    );
    let (lock, first) = post_own(&rt, &table, &mut seat, lock, 1500, None);
    let (lock, second) = post_own(&rt, &table, &mut seat, lock, 1501, None);
    let (lock, third) = post_own(&rt, &table, &mut seat, lock, 1502, None);
    assert!(&rt; first == Own::Queued && second == Own::Queued);
    assert!(&rt; third == Own::Crowded(1500, 1501));
    let answer = table.unlock(&mut seat, lock, false);
    let Unlocked::Next {
        lock,
        code,
        attempt,
    } = answer
    else {
        panic!(&rt; "open");
    };
    assert!(&rt; code == 1500 && attempt.is_none());
    let _ = table.destroy(&mut seat, lock);
    let past = table.lock(&rt, &mut seat, 2);
    let Err(IdGone { found }) = past else {
        panic!(&rt; "locked again");
    };
    assert!(&rt; IdWord(found).first() == 3);
    assert!(&rt; matches!(table.create(&mut seat, 2, 7), Ok(3)));
}

/// An id of three versions, locked at its first attempt, for which an error of one attempt and then one of another is queued.
fn with_two<R: Wait + Abort>(
    rt: &R,
    table: &Table,
    seat: &mut Seat,
    first: Option<u8>,
    second: Option<u8>,
) -> IdLock<u8>
    requires seat { Sits table.now.table.shared.table_id seat.old × IsFree seat.old.me.0 }
    requires first { MatchOption first (Unit {0}) (λ n. n ≤ 6) }
    requires second { MatchOption second (Unit {0}) (λ n. n ≤ 6) }
    ensures seat { Sits table.now.table.shared.table_id seat.new }
    ensures lock { (result.slot < table.now.plan.slots) × Locks result.slot seat.new.me.0 (parts result.word.0) result.content Empty }
    ensures others { (j : ℕ) → j ≢ result.slot → tokens_in j seat.new.me.0 ≡ [] }
    ensures left { (parts result.word.0).attempt + 2 < (parts result.word.0).range }
{
    let Ok(id) = table.create(seat, 3, 7) else {
        panic!(rt; "no slot");
    };
    let Ok(lock) = table.lock(rt, seat, id) else {
        panic!(rt; "not locked");
    };
    let (lock, one) = post_own(rt, table, seat, lock, 1500, first);
    let (lock, two) = post_own(rt, table, seat, lock, 1501, second);
    assert!(rt; one == Own::Queued && two == Own::Queued);
    assert!(rt; lock.attempt() == 0 && lock.range() == 3);
    lock
}

/// Gives this lock back at the attempt at which it is: whether the id opened.
fn opens(table: &Table, seat: &mut Seat, lock: IdLock<u8>) -> bool
    requires seat { Sits table.now.table.shared.table_id seat.old }
    requires lock { (lock.slot < table.now.plan.slots) × Locks lock.slot seat.old.me.0 (parts lock.word.0) lock.content Empty }
    requires others { (j : ℕ) → j ≢ lock.slot → tokens_in j seat.old.me.0 ≡ [] }
    ensures { Sits table.now.table.shared.table_id seat.new × IsFree seat.new.me.0 }
{
    match table.unlock(seat, lock, false) {
        Unlocked::Open => true,
        Unlocked::Next {
            lock: next,
            code: _code,
            attempt: _attempt,
        } => {
            let _ = table.destroy(seat, next);
            false
        }
    }
}

/// The error that an advance hands out of these two, and the attempt that is current then: `None` where it opens the id. Behind
/// the one handed out none is left.
fn advanced<R: Wait + Abort>(
    rt: &R,
    table: &Table,
    seat: &mut Seat,
    first: Option<u8>,
    second: Option<u8>,
) -> Option<(u16, Option<u8>, u8)>
    requires seat { Sits table.now.table.shared.table_id seat.old × IsFree seat.old.me.0 }
    requires first { MatchOption first (Unit {0}) (λ n. n ≤ 6) }
    requires second { MatchOption second (Unit {0}) (λ n. n ≤ 6) }
    ensures { Sits table.now.table.shared.table_id seat.new × IsFree seat.new.me.0 }
{
    let lock = with_two(rt, table, seat, first, second);
    match table.unlock(seat, lock, true) {
        Unlocked::Open => None,
        Unlocked::Next {
            lock: next,
            code,
            attempt,
        } => {
            let current = next.attempt();
            assert!(rt; opens(table, seat, next));
            Some((code, attempt, current))
        }
    }
}

// An advance throws away what is stale: the errors of the attempt before it, wherever they wait. Those of the whole call are
// handed out, and once none is left the id opens.
#[test]
fn an_advance_throws_away_what_is_stale(rt: HostRuntime) {
    let Some((table, mut seat, _seats)) = begin(rt.alloc(), 3, 1) else {
        panic!(&rt; "no memory");
    };
    let second = advanced(&rt, &table, &mut seat, Some(0), None);
    assert!(&rt; matches!(second, Some((1501, None, 1))));
    let first = advanced(&rt, &table, &mut seat, None, Some(0));
    assert!(&rt; matches!(first, Some((1500, None, 1))));
    let none = advanced(&rt, &table, &mut seat, Some(0), Some(0));
    assert!(&rt; none.is_none());
}

/// An id that may be there: a new one, or where no slot is free the one of the first slot.
fn some_id(table: &Table, seat: &mut Seat) -> u64
    requires { Sits table.now.table.shared.table_id seat.old × IsFree seat.old.me.0 }
    ensures { Sits table.now.table.shared.table_id seat.new × IsFree seat.new.me.0 }
{
    match table.create(seat, 2, 7) {
        Ok(id) => id,
        Err(_) => u64::from(IdWord(table.word(seat, 0)).first()),
    }
}

/// Posts an error for this lock, gives the lock back, and ends the id with the error: whether it did.
fn end<R: Wait + Abort>(rt: &R, table: &Table, seat: &mut Seat, lock: IdLock<u8>) -> bool
    requires seat { Sits table.now.table.shared.table_id seat.old }
    requires lock { (lock.slot < table.now.plan.slots) × Locks lock.slot seat.old.me.0 (parts lock.word.0) lock.content Empty }
    requires others { (j : ℕ) → j ≢ lock.slot → tokens_in j seat.old.me.0 ≡ [] }
    ensures { Sits table.now.table.shared.table_id seat.new × IsFree seat.new.me.0 }
{
    let (lock, _) = post_own(rt, table, seat, lock, 1500, None);
    match table.unlock(seat, lock, false) {
        Unlocked::Open => false,
        Unlocked::Next {
            lock: next,
            code: _code,
            attempt: _attempt,
        } => {
            let _ = table.destroy(seat, next);
            true
        }
    }
}

/// So many times an id is made or found, locked, and ended: how often it was this seat that ended it.
fn work<R: Wait + Abort>(rt: &R, table: &Table, mut seat: Seat, rounds: u32) -> u32
    requires { Sits table.now.table.shared.table_id seat × IsFree seat.me.0 }
{
    let mut ended = 0u32;
    for _ in 0..rounds {
        let version = some_id(table, &mut seat);
        if let Ok(lock) = table.lock(rt, &mut seat, version) {
            ended = ended.wrapping_add(u32::from(end(rt, table, &mut seat, lock)));
        }
    }
    ended
}

/// How many ids of two versions have ended in the slot of this version.
fn ended_in(table: &Table, seat: &mut Seat, version: u64) -> u32
    requires { Sits table.now.table.shared.table_id seat.old }
    ensures { Sits table.now.table.shared.table_id seat.new }
{
    IdWord(table.word(seat, version)).first() / 2
}

// Eight threads end ids of two slots; each id is ended by one of them.
#[test]
fn threads_end_each_id_once(rt: HostRuntime) {
    let Some((table, mut main, seats)) = begin(rt.alloc(), 2, 9) else {
        panic!(&rt; "no memory");
    };
    let shared = &table;
    let host = &rt;
    let all = thread::map_vec(
        &rt,
        seats,
        &|seat: Seat| -> u32
            requires { Sits shared.now.table.shared.table_id seat × IsFree seat.me.0 }
        { work(host, shared, seat, 12_500) },
    );
    let Ok(counts) = all else {
        panic!(&rt; "no memory");
    };
    let mut total = 0u32;
    for count in counts {
        total = total.wrapping_add(count);
    }
    let ended = ended_in(&table, &mut main, 0).wrapping_add(ended_in(
        &table,
        &mut main,
        4_294_967_296,
    ));
    assert!(&rt; total == ended);
    assert!(&rt; 0 < total);
}
