use crate::opening::{empty_homes, opening_words};
use crate::words::step_word;
use call_points::Aside;
use corr_core::{Plan, tag_index};
use sock_message::{Call, NoMemory};
use std::alloc::Global;
use std::marker::Model;

/// The call ids of a machine on one thread: a tag and an id word for each slot, a call word and an at word for each
/// operation, and a home for the call of each slot. Each step takes constant time.
/// bRPC's `bthread_id` with ranges of versions (bthread_id.md).
#[derive(Drop)]
pub struct CallSlots {
    plan: Plan,
    words: Vec<u64>,
    homes: Vec<Option<Call>>,
}

impl Model for CallSlots {
    ghost use Rattle.std.specs.Prelude.{◌≡◌, length, map};
    ghost use mathlib.Core.Option.{some};
    ghost use Rattle.id_rule.specs.LawfulIdTable.{all_words};
    ghost use Rattle.call_slots.specs.CallSlotState.{SlotState};

    ghost Value = { SlotState };

    ghost view = { λ s. record { plan = s.plan; words = s.words.items; homes = map some s.homes.items } };

    ghost invariant = { λ s. (length s.words.items ≡ all_words s.plan) × (length s.homes.items ≡ s.plan.slots) };
}

impl CallSlots {
    ghost use Rattle.std.specs.Prelude.{◌≡◌, ◌<◌, ℕ, true, false, [], replicate, IfOk};
    ghost use mathlib.Core.Option.{some};
    ghost use Rattle.std.specs.Option.{option_copied};
    ghost use lib.ListN.{get_elem?};
    ghost use Rattle.sock_message.specs.Asked.{Asked};
    ghost use Rattle.seat_programs.specs.Asides.{ClaimId, PutCall, TakeCall};
    ghost use Rattle.seat_programs.specs.FoundAndChangedAside.{call_at};
    ghost use Rattle.seat_programs.specs.ScriptSetupToEnding.{opening_calls};
    ghost use Rattle.call_points.specs.AsideCodeSteps.{step_of};
    ghost use Rattle.call_slots.specs.CallSlotState.{calls_with, as_found};
    ghost use Rattle.call_slots.specs.CallSlotSteps.{Makes, StepFits, word_found};

    /// A table of these sizes before its first step.
    pub fn new(alloc: Global, plan: Plan) -> Result<CallSlots, NoMemory>
        ensures { IfOk result (λ s. (links : ℕ) → calls_with s (replicate plan.seats []) (replicate links []) false ≡ opening_calls plan links) }
    {
        let words = opening_words(alloc, plan)?;
        let homes = empty_homes(alloc, plan.slots)?;
        Ok(CallSlots { plan, words, homes })
    }

    /// Makes a step on its word, and answers the word found.
    pub fn step(&mut self, step: Aside) -> u64
        requires { StepFits self.old step }
        ensures { (asked : Asked) → Makes self.old (step_of asked step) (word_found (step_of asked step) result) self.new }
    {
        step_word(self.plan, &mut self.words, step)
    }

    /// Whether a slot is there and claimed: to claim it once more changes nothing.
    pub fn is_claimed(&self, slot: u16) -> bool
        ensures { result ≡ true → Makes self.now (ClaimId slot) (some 1) self.now }
    {
        let index = tag_index(slot);
        index < self.words.len() && self.words[index] == 1
    }

    /// The call goes into the home of a slot, and the slot's tag is answered.
    pub fn put_call(&mut self, slot: u16, call: Call) -> u64
        requires { slot < self.old.plan.slots }
        ensures { Makes self.old (PutCall slot call) (some result) self.new }
    {
        self.homes[usize::from(slot)] = Some(call);
        self.words[tag_index(slot)]
    }

    /// The call is taken out of its home, where it is there.
    pub fn take_call(&mut self, slot: u16) -> Option<Call>
        requires { slot < self.old.plan.slots }
        ensures { Makes self.old (TakeCall slot) (as_found result) self.new }
    {
        self.homes[usize::from(slot)].take()
    }

    /// The call at home in a slot.
    pub fn call_at(&self, slot: u16) -> Option<&Call>
        requires { slot < self.now.plan.slots }
        ensures { call_at (get_elem? self.now.homes slot) ≡ as_found (option_copied result) }
    {
        self.homes[usize::from(slot)].as_ref()
    }
}
