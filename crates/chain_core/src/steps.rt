ghost use Rattle.std.specs.Prelude.{◌≡◌, ◌≢◌, ℕ, ◌+◌, ◌*◌, ◌%◌, ◌<◌, ◌≤◌, List, true, false, bit_or};
ghost use Rattle.sock_words.specs.PackedWords.{IDLE, UNCONNECTED};
ghost use Rattle.sock_model.specs.declared.chain.Heading.{Heading};
ghost use Rattle.sock_model.specs.SocketTableLayout.{head_index, next_index, request_index};
ghost use Rattle.sock_model.specs.ChainRows.{with_claim, fresh_claim, ready_claim, queued, without_loose, with_right, without_right, walking_right, passing_right, reading_right, turned_right, freed_right};
ghost use Rattle.sock_model.specs.ChainStepConditions.{HasClaim};
ghost use Rattle.sock_model.specs.KeepingSocketRule.{KeepsRule};
ghost use Rattle.chain_core.specs.RequestStepConditions.{MayLook, MayClaim, MaySwap, MayConnect, MayTry, MayPass, MayRead, MayRetire, MayTurnTo, MayFree};
ghost use Rattle.chain_core.specs.RightsOfIdleHead.{TakesRight};
ghost use Rattle.chain_core.specs.TakenRequestNote.{NotesTaken};

use sock_words::{Step, Ticket, UNCONNECTED};

/// Bit 0 of a request word: the request is taken.
const TAKEN: u64 = 1;

/// Bit 63 of a head: nobody writes, and the other bits are the last ticket that was put there.
const IDLE: u64 = Ticket::IDLE.0;

/// C1, fetch_or of bit 0 of a request word: the request is claimed, in the generation of the word found, where the bit
/// was clear. bRPC takes a request from a pool of objects (socket.cpp, `Socket::Write`); here they are in a table.
pub fn claim_request(found: u64) -> Step
    ensures found { result.found ≡ found }
    ensures won { found % 2 ≡ 0 → (result.next ≡ found + 1) × (result.won ≡ true) }
    ensures lost { found % 2 ≡ 1 → (result.next ≡ found) × (result.won ≡ false) }
    ensures keeps_won { found % 2 ≡ 0 → (r k : ℕ) (heading : Heading) (bytes : List ℕ) → KeepsRule (MayClaim r) (λ p. request_index p r) found result.next (λ p v m. with_claim v (fresh_claim k r found heading bytes)) }
    ensures keeps_lost { found % 2 ≡ 1 → (r : ℕ) → KeepsRule MayLook (λ p. request_index p r) found result.next (λ p v m. v) }
    ensures notes_lost { found % 2 ≡ 1 → (r : ℕ) → NotesTaken r found result.next }
{
    Step {
        found,
        next: found | TAKEN,
        won: found & TAKEN == 0,
    }
}

/// C2, swap of the head with the own ticket: here a message is accepted, and its place in the order of the socket is
/// settled (socket.cpp, `StartWrite`: `_write_head.exchange(req)`). Who found the head busy has the ticket before its
/// own, and connects itself behind it. Who found it idle has the right to write.
pub fn swap_head(found: u64, own: Ticket) -> Step
    ensures step { (result.found ≡ found) × (result.next ≡ own.0) × (result.won ≡ true) }
    ensures keeps_busy { found < IDLE → (i : ℕ) → KeepsRule (MaySwap i own.0) (λ p. head_index i) found result.next (λ p v m. queued v m.claim found) }
    ensures keeps_idle { IDLE ≤ found → (i : ℕ) → TakesRight i own.0 found result.next }
{
    Step {
        found,
        next: own.0,
        won: true,
    }
}

/// C3, store of the ticket that was found in the head into the own next word (socket.cpp, `StartWrite`:
/// `req->next = prev_head`). Who writes may then go past this request on its walk.
pub fn connect(found: u64, before: Ticket) -> Step
    ensures step { (result.found ≡ found) × (result.next ≡ before.0) × (result.won ≡ true) }
    ensures keeps { (r : ℕ) → KeepsRule (MayConnect r before.0) (λ p. next_index p r) found result.next (λ p v m. without_loose v r) }
{
    Step {
        found,
        next: before.0,
        won: true,
    }
}

/// C4, compare_exchange of the head from the last ticket that was noted to idle with it (socket.cpp,
/// `IsWriteComplete`): who wins gives its right up, and who loses found a newer ticket, where its walk begins. bRPC
/// puts null there; that the ticket stays beside the mark is this project's own.
pub fn empty_head(found: u64, last: Ticket) -> Step
    ensures found { result.found ≡ found }
    ensures won { found ≡ last.0 → (result.next ≡ bit_or last.0 IDLE) × (result.won ≡ true) }
    ensures lost { found ≢ last.0 → (result.next ≡ found) × (result.won ≡ false) }
    ensures keeps_won { found ≡ last.0 → (i : ℕ) → KeepsRule (MayTry i last.0) (λ p. head_index i) found result.next (λ p v m. without_right v m.mine.right.link) }
    ensures keeps_lost { found ≢ last.0 → (i : ℕ) → KeepsRule (MayTry i last.0) (λ p. head_index i) found result.next (λ p v m. with_right v (walking_right m.mine.right found)) }
{
    Step::exchanged(found, last.0, found | IDLE)
}

/// C5, load of a next word. Who wrote the message of a request that isn't the last goes on to the ticket found. Who
/// walks goes on once it found a ticket, and waits while it finds `UNCONNECTED` (socket.cpp, `IsWriteComplete`).
pub fn read_next(found: u64) -> Step
    ensures step { (result.found ≡ found) × (result.next ≡ found) × (result.won ≡ true) }
    ensures keeps_written { (r : ℕ) → KeepsRule (MayPass r) (λ p. next_index p r) found result.next (λ p v m. with_right v (passing_right m.mine.right m.now found)) }
    ensures keeps_retired { (r : ℕ) → KeepsRule (MayRetire r) (λ p. next_index p r) found result.next (λ p v m. with_right v (freed_right (passing_right m.0.mine.right m.0.now found))) }
    ensures keeps_walk { found ≢ UNCONNECTED → (r : ℕ) → KeepsRule (MayRead r) (λ p. next_index p r) found result.next (λ p v m. with_right v (reading_right m.mine.right m.top m.at m.after found)) }
    ensures keeps_waiting { (r : ℕ) → KeepsRule MayLook (λ p. next_index p r) found result.next (λ p v m. v) }
{
    Step {
        found,
        next: found,
        won: true,
    }
}

/// C6, store of the successor into the next word at which the walk stands, or of 0 into that of the newest request
/// (socket.cpp, `IsWriteComplete`: `p->next = tail`). The walk ends where the last ticket that was noted came before.
pub fn reverse_next(found: u64, value: u64) -> Step
    ensures step { (result.found ≡ found) × (result.next ≡ value) × (result.won ≡ true) }
    ensures keeps { (r : ℕ) → KeepsRule (MayTurnTo r value) (λ p. next_index p r) found result.next (λ p v m. with_right v (turned_right m.0.mine.right m.0.top m.0.at m.0.before)) }
{
    Step {
        found,
        next: value,
        won: true,
    }
}

/// C7, store of `UNCONNECTED` into the own next word, before the own ticket comes into the head (socket.cpp,
/// `Socket::Write`: `req->next = WriteRequest::UNCONNECTED`).
pub fn unconnect(found: u64) -> Step
    ensures step { (result.found ≡ found) × (result.next ≡ UNCONNECTED) × (result.won ≡ true) }
    ensures keeps { (r : ℕ) → KeepsRule (HasClaim r) (λ p. next_index p r) found result.next (λ p v m. with_claim v (ready_claim m.claim)) }
{
    Step {
        found,
        next: UNCONNECTED,
        won: true,
    }
}

/// C8, store of the next generation, not taken, into the request word of a message that has its place: the request may
/// be claimed again (socket.cpp, `ReturnSuccessfulWriteRequest`). The generation is that of the ticket, below the last
/// one, 2^47 - 1, at which a request isn't given back.
pub fn free_request(found: u64, generation: u64) -> Step
    requires { generation < 140737488355327 }
    ensures step { (result.found ≡ found) × (result.next ≡ 2 * (generation + 1)) × (result.won ≡ true) }
    ensures keeps { (r : ℕ) → KeepsRule (MayFree r generation) (λ p. request_index p r) found result.next (λ p v m. with_right v (freed_right m.mine.right)) }
{
    Step {
        found,
        next: 2 * (generation + 1),
        won: true,
    }
}
