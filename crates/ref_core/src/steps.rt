ghost use Rattle.std.specs.Prelude.{◌≡◌, ◌≢◌, ℕ, Bool, ◌+◌, ◌-◌, ◌%◌, ◌<◌, ◌↔◌, IsTrue, true, false, bit_or};
ghost use Rattle.sock_words.specs.PackedWords.{vref_nref, vref_version, vref_unused};
ghost use Rattle.sock_model.specs.SocketTableLayout.{tag_index, ref_index};
ghost use Rattle.sock_model.specs.SlotRows.{claimed, gave_birth, added, back, subbed, failed, recycled, freed, looked};
ghost use Rattle.ref_core.specs.KeepingSlotRule.{KeepsSlotRule, MayClaim, MayAdd, MaySub, MayFail, MayRecycle, MayFree, MayBear};

use sock_words::{Step, Vref};

/// Bit 32 of a reference word: the lowest bit of its version.
const ODD: u64 = 0x1_0000_0000;

/// A1, swap of a slot's tag with 1: the slot is claimed where 0 was found (versioned_ref_with_id.h, `Create`).
pub fn claim_slot(found: u64) -> Step
    ensures step { (result.found ≡ found) × (result.next ≡ 1) }
    ensures won { IsTrue result.won ↔ (found ≡ 0) }
    ensures keeps { (i : ℕ) → KeepsSlotRule (MayClaim i) (tag_index i) found result.next (claimed i found) }
{
    Step {
        found,
        next: 1,
        won: found == 0,
    }
}

/// A2, fetch_add 1 on the reference word of a claimed slot: it makes the life, whose version is the one found. The
/// number of references is below its last value; it may be above 0, because of probes.
pub fn birth(found: u64) -> Step
    requires { vref_nref found < 4294967295 }
    ensures step { (result.found ≡ found) × (result.next ≡ found + 1) × (result.won ≡ true) }
    ensures keeps { (i k : ℕ) → KeepsSlotRule (MayBear i k) (ref_index i) found result.next (gave_birth i found k) }
{
    Step {
        found,
        next: found + 1,
        won: true,
    }
}

/// A3, fetch_add 1 on the reference word: a reference to the life where the version found is the id's, else a probe
/// that has to be taken back (`Address`).
pub fn add_ref(found: u64) -> Step
    requires { vref_nref found < 4294967295 }
    ensures step { (result.found ≡ found) × (result.next ≡ found + 1) × (result.won ≡ true) }
    ensures keeps { (i : ℕ) (is_life : Bool) → KeepsSlotRule (MayAdd i found is_life) (ref_index i) found result.next (added i found is_life) }
{
    Step {
        found,
        next: found + 1,
        won: true,
    }
}

/// A4, fetch_sub 1 on the reference word: a probe or a reference goes (`Dereference`). Whoever found one reference at
/// an odd version has its one exchange left.
pub fn sub_ref(found: u64) -> Step
    requires { 0 < vref_nref found }
    ensures step { (result.found ≡ found) × (result.next ≡ found - 1) × (result.won ≡ true) }
    ensures keeps { (i : ℕ) → KeepsSlotRule (MaySub i) (ref_index i) found result.next (λ v. subbed i found (back i found v) v) }
{
    Step {
        found,
        next: found - 1,
        won: true,
    }
}

/// A5, fetch_or of bit 32 of the reference word: the life is failed where the version found was even, and the seat has
/// one more reference, the one that creation made (`SetFailed`).
pub fn set_odd(found: u64) -> Step
    ensures step { (result.found ≡ found) × (result.next ≡ bit_or found 4294967296) × (result.won ≡ true) }
    ensures keeps { (i : ℕ) → KeepsSlotRule (MayFail i) (ref_index i) found result.next (failed i found) }
{
    Step {
        found,
        next: found | ODD,
        won: true,
    }
}

/// A6, compare_exchange of the reference word from (odd version, 0) to the next version: who wins recycles the slot.
pub fn recycle(found: u64, from: Vref) -> Step
    requires nref { vref_nref from.0 ≡ 0 }
    requires odd { vref_version from.0 % 2 ≡ 1 }
    requires last { vref_version from.0 < 4294967295 }
    ensures found { result.found ≡ found }
    ensures won { found ≡ from.0 → (result.next ≡ vref_unused (vref_version from.0 + 1)) × (result.won ≡ true) }
    ensures lost { found ≢ from.0 → (result.next ≡ found) × (result.won ≡ false) }
    ensures keeps { (i : ℕ) → KeepsSlotRule (MayRecycle i from.0) (ref_index i) found result.next (recycled i from.0 found) }
{
    Step::exchanged(found, from.0, from.0 + ODD)
}

/// A7, store of 0 into a slot's tag: the slot may be claimed again.
pub fn free_slot(found: u64) -> Step
    ensures step { (result.found ≡ found) × (result.next ≡ 0) × (result.won ≡ true) }
    ensures keeps { (i : ℕ) → KeepsSlotRule (MayFree i) (tag_index i) found result.next (freed i) }
{
    Step {
        found,
        next: 0,
        won: true,
    }
}

/// A8, load of the reference word.
pub fn look_word(found: u64) -> Step
    ensures step { (result.found ≡ found) × (result.next ≡ found) × (result.won ≡ true) }
    ensures keeps { (i : ℕ) → KeepsSlotRule (MayClaim i) (ref_index i) found result.next (looked i found) }
{
    Step {
        found,
        next: found,
        won: true,
    }
}
