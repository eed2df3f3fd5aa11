ghost use Rattle.std.specs.Prelude.{◌≡◌, ◌≢◌, ◌+◌, ◌<◌, ◌≤◌, IsTrue, length, slice_index, slice_set};
ghost use Rattle.corr_core.specs.IdSlotWord.{parts, made_word, posted_word, unlocked_word, free_word};
ghost use Rattle.seat_programs.specs.PostPrograms.{packed};
ghost use Rattle.call_slots.specs.WordOfStep.{index_of, next_of, left_by, WordFits};
ghost use Rattle.sock_words.specs.PackedWords.{bit};

use call_points::Aside;
use corr_core::{
    Plan, at_index, call_index, claim_id, destroy_id, free_id, id_index, load_id_word, lock_id,
    make_id, tag_index, unlock_id,
};
use sock_words::IdWord;

/// The index of the word of a step.
fn index_of(plan: Plan, step: Aside) -> usize
    ensures { result ≡ index_of plan step }
{
    match step {
        Aside::ClaimId(slot) | Aside::PutCall(slot) | Aside::FreeId(slot) => tag_index(slot),
        Aside::MakeId(slot, _) | Aside::LoadIdWord(slot) => id_index(slot),
        Aside::LockId(slot, _) | Aside::PostId(slot, _, _) => id_index(slot),
        Aside::UnlockId(slot, _, _) | Aside::EndId(slot) => id_index(slot),
        Aside::StoreCall(operation, _) | Aside::LoadCall(operation) => call_index(&plan, operation),
        Aside::StoreAt(operation, _) | Aside::LoadAt(operation) => at_index(&plan, operation),
        Aside::TakeCall(_) | Aside::TakeBytes(_, _) => 0,
    }
}

/// The word of a new range, behind the word found.
fn made(found: u64, range: u8) -> u64
    requires { (1 ≤ range) × (range ≤ 8) }
    ensures { result ≡ packed (made_word (parts found).first range) }
{
    let first = IdWord(found).first();
    make_id(found, IdWord::pack(first, IdWord::OPEN, range, 0, 0, 0)).next
}

/// The word behind the exchange from an open id to the locked one.
fn locked(found: u64, from: IdWord) -> u64
    requires { (parts from.0).state ≡ 1 }
    ensures { result ≡ left_by from.0 (packed (posted_word (parts from.0) 0)) found }
{
    lock_id(found, from).next
}

/// The word of a locked id with one more error queued.
fn queued(from: IdWord, error: u16) -> IdWord
    requires state { (parts from.0).state ≢ 1 }
    requires error { error < 32768 }
    ensures { result.0 ≡ packed (posted_word (parts from.0) error) }
{
    let (oldest, second) = if from.oldest() == 0 {
        (error, 0)
    } else {
        (from.oldest(), error)
    };
    IdWord::pack(
        from.first(),
        IdWord::LOCKED,
        from.range(),
        from.attempt(),
        oldest,
        second,
    )
}

/// The word behind the exchange by which an error is posted.
fn posted(found: u64, from: IdWord, error: u16) -> u64
    requires { error < 32768 }
    ensures { result ≡ left_by from.0 (packed (posted_word (parts from.0) error)) found }
{
    if from.state() == IdWord::OPEN {
        locked(found, from)
    } else if found == from.0 {
        queued(from, error).0
    } else {
        found
    }
}

/// The word behind the exchange by which a lock is given back.
fn unlocked(found: u64, from: IdWord, advance: bool) -> u64
    requires from { (parts from.0).state ≡ 2 }
    requires room { IsTrue advance → (parts from.0).attempt + 2 < (parts from.0).range }
    ensures { result ≡ left_by from.0 (packed (unlocked_word (parts from.0) (bit advance))) found }
{
    unlock_id(found, from, advance).next
}

/// The word of a slot whose range ended: free, from the next first version on.
fn ended(found: u64) -> u64
    requires { (parts found).first + (parts found).range < 67108864 }
    ensures { result ≡ packed (free_word ((parts found).first + (parts found).range)) }
{
    let word = IdWord(found);
    let next = word.first() + u32::from(word.range());
    destroy_id(found, IdWord::pack(next, IdWord::FREE, 1, 0, 0, 0)).next
}

/// The word behind a step that found this one.
fn next_word(step: Aside, found: u64) -> u64
    requires { WordFits step found }
    ensures { result ≡ next_of step found }
{
    match step {
        Aside::ClaimId(_) => claim_id(found).next,
        Aside::MakeId(_, range) => made(found, range),
        Aside::StoreCall(_, id) => id.number(),
        Aside::StoreAt(_, word) => word.0,
        Aside::LockId(_, from) => locked(found, from),
        Aside::PostId(_, from, error) => posted(found, from, error.bits()),
        Aside::UnlockId(_, from, advance) => unlocked(found, from, advance),
        Aside::EndId(_) => ended(found),
        Aside::FreeId(_) => free_id(found).next,
        Aside::LoadIdWord(_) => load_id_word(found).next,
        Aside::LoadCall(_) | Aside::LoadAt(_) => found,
        Aside::PutCall(_) | Aside::TakeCall(_) | Aside::TakeBytes(_, _) => found,
    }
}

/// Makes a step on its word, and answers the word found.
pub fn step_word(plan: Plan, words: &mut [u64], step: Aside) -> u64
    requires there { index_of plan step < length words.old }
    requires fits { WordFits step (slice_index words.old (index_of plan step)) }
    ensures found { result ≡ slice_index words.old (index_of plan step) }
    ensures words { words.new ≡ slice_set words.old (index_of plan step) (next_of step (slice_index words.old (index_of plan step))) }
{
    let index = index_of(plan, step);
    let found = words[index];
    words[index] = next_word(step, found);
    found
}
