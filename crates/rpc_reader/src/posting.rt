// The calls that wait for a link whose reading has ended.
ghost use Rattle.std.specs.Prelude.{◌≡◌, ◌≢◌, ◌==◌, ◌<◌, ◌≤◌, ℕ, [], true, false, None, All, MatchOption, position};
ghost use Rattle.sock_words.specs.PackedWords.{at_word_slot, at_word_first, id_slot, id_first};
ghost use Rattle.corr_core.specs.IdSlotWord.{parts};
ghost use Rattle.corr_core.specs.declared.marks.Hand.TheVariants.{Empty};
ghost use Rattle.id_rule.specs.LawfulIdTable.{tokens_in};
ghost use Rattle.corr_id.specs.SeatBehindIdCalls.{HasId, LacksId, Locks};
ghost use Rattle.corr_id.specs.IdTableSeat.{Sits};
ghost use Rattle.rpc_reader.specs.ReaderIdSeat.{IsOpen, Rests};
ghost use Rattle.rpc_reader.specs.ReaderBooks.{books};
ghost use Rattle.rpc_reader.specs.Met.{is_for as answers};
ghost use Rattle.rpc_reader.specs.PostingAtReadingEnd.{LockLost, attempt_at, call_at, FoundOf, kept_at, PostedLast, MetOrPosted, PostedOne, PostedAll};

use crate::books::{AnswerSeat, has_response};
use crate::ending::{end_answered, end_failed};
use crate::meeting::meet;
use call_table::Call;
use corr_core::has_version;
use corr_id::{IdLock, IdTable, Posted};
use prpc_frame::Frame;
use sock_words::{AtWord, CorrelationId, IdWord};
use std::sync::Wait;

// Whether the frame is a response of an attempt of the id that has this word in this slot.
fn is_for(frame: &Frame, slot: u16, word: IdWord) -> bool
    ensures { result ≡ answers slot (parts word.0) frame.now }
{
    let id = CorrelationId(frame.meta.correlation_id);
    has_response(frame) && id.slot() == u32::from(slot) && has_version(word, id.version())
}

// The first response among these that is one of an attempt of the id with this word.
fn first_for(early: &[Frame], slot: u16, word: IdWord) -> Option<usize>
    ensures { result ≡ position (answers slot (parts word.0)) early.now }
{
    early.iter().position(|frame| is_for(frame, slot, word))
}

/// The call of the lock ends with the first response that was kept for it, or with the code.
pub fn end_lost(ids: &IdTable<Call>, calls: &mut AnswerSeat, lock: IdLock<Call>, code: u16)
    requires seat { Sits ids.now.table.shared.table_id calls.old.seat }
    requires lock { (lock.slot < ids.now.plan.slots) × Locks lock.slot calls.old.seat.me.0 (parts lock.word.0) lock.content Empty }
    requires others { (j : ℕ) → j ≢ lock.slot → tokens_in j calls.old.seat.me.0 ≡ [] }
    ensures rest { Rests calls.old.seat calls.new.seat }
    ensures lost { LockLost lock.slot (parts lock.word.0) lock.content code (books calls.old) (books calls.new) }
{
    match first_for(calls.early.as_slice(), lock.slot, lock.word) {
        Some(at) => {
            let frame = calls.early.remove(at);
            end_answered(ids, calls, lock, frame);
        }
        None => end_failed(ids, calls, lock, code),
    }
}

// The attempt that it names.
fn attempt_of(word: AtWord) -> Option<u8>
    ensures attempt { result ≡ attempt_at word.0 }
    ensures fits { MatchOption result (Unit {0}) (λ n. n ≤ 6) }
{
    let attempt = word.attempt();
    if attempt < 7 { Some(attempt) } else { None }
}

// The id that it names.
fn id_at(word: AtWord) -> u64
    ensures id { result ≡ call_at word.0 }
    ensures of_parts { (id_slot result ≡ at_word_slot word.0) × (id_first result ≡ at_word_first word.0) }
{
    CorrelationId::pack(word.slot(), word.first()).0
}

// The code is posted to the id that this at word names, for its attempt. Its word was found before, and no response of it is kept.
fn post_code<R: Wait>(rt: &R, ids: &IdTable<Call>, calls: &mut AnswerSeat, code: u16, word: AtWord)
    requires seat { IsOpen ids.now.table.shared.table_id calls.old.seat }
    requires code { (0 < code) × (code < 4096) }
    requires none_kept { (found : ℕ) × FoundOf word.0 found calls.old.seat.me.0 × (kept_at word.0 found calls.old.early.items ≡ None) }
    ensures rest { Rests calls.old.seat calls.new.seat }
    ensures posted { PostedLast ids.now.plan.slots code word.0 (books calls.old) (books calls.new) }
{
    let attempt = attempt_of(word);
    match ids.post(rt, &mut calls.seat, id_at(word), code, attempt) {
        Posted::Locked(lock) => end_lost(ids, calls, lock, code),
        Posted::Queued => {}
        Posted::Gone { found: _ } | Posted::Stale { current: _ } => {}
        Posted::Crowded {
            first: _,
            second: _,
        } => {}
    }
}

// Whether the word is free, or begins with another version.
fn lacks_id(word: IdWord, first: u32) -> bool
    ensures lacks { result ≡ true → LacksId (parts word.0) first }
    ensures has { result ≡ false → HasId (parts word.0) first }
{
    word.first() != first || word.state() == IdWord::FREE
}

// The call that this at word names, unless its id has ended: the first response that was kept for it is met again, which waits
// while the id is locked; where none was kept, the code is posted.
fn post_last<R: Wait>(rt: &R, ids: &IdTable<Call>, calls: &mut AnswerSeat, code: u16, word: AtWord)
    requires seat { IsOpen ids.now.table.shared.table_id calls.old.seat }
    requires code { (0 < code) × (code < 4096) }
    ensures rest { Rests calls.old.seat calls.new.seat }
    ensures met_or_posted { MetOrPosted ids.now.plan.slots code word.0 (books calls.old) (books calls.new) }
{
    let found = IdWord(ids.word(&mut calls.seat, id_at(word)));
    if lacks_id(found, word.first()) {
        return;
    }
    match first_for(calls.early.as_slice(), word.slot(), found) {
        Some(at) => {
            let frame = calls.early.remove(at);
            meet(rt, ids, calls, frame);
        }
        None => post_code(rt, ids, calls, code, word),
    }
}

// The call of this operation, where its last attempt is on this link.
fn post_one<R: Wait>(
    rt: &R,
    ids: &IdTable<Call>,
    calls: &mut AnswerSeat,
    link: u16,
    code: u16,
    operation: u16,
)
    requires seat { IsOpen ids.now.table.shared.table_id calls.old.seat }
    requires code { (0 < code) × (code < 4096) }
    requires operation { operation < ids.now.plan.operations }
    ensures rest { Rests calls.old.seat calls.new.seat }
    ensures posted { PostedOne ids.now.plan link code operation (books calls.old) (books calls.new) }
{
    let Some(word) = ids.at(&mut calls.seat, operation) else {
        return;
    };
    if word.link() == link {
        post_last(rt, ids, calls, code, word);
    }
}

/// Each of these calls whose last attempt is on this link gets the code with which its reading has ended, unless a response was
/// kept for it: that ends it then.
pub fn post_all<R: Wait>(
    rt: &R,
    ids: &IdTable<Call>,
    calls: &mut AnswerSeat,
    link: u16,
    code: u16,
    operations: &[u16],
)
    requires seat { IsOpen ids.now.table.shared.table_id calls.old.seat }
    requires code { (0 < code) × (code < 4096) }
    requires operations { All (λ o. o < ids.now.plan.operations) operations.now }
    ensures rest { Rests calls.old.seat calls.new.seat }
    ensures posted { PostedAll ids.now.plan link code operations.now (books calls.old) (books calls.new) }
{
    'posts: for operation in operations {
        post_one(rt, ids, calls, link, code, *operation);
    }
}
