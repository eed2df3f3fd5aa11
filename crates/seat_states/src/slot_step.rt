ghost use Rattle.std.specs.Prelude.{◌≡◌};
ghost use mathlib.Core.Option.{some};
ghost use Rattle.sock_words.specs.declared.plain.Plan.{Plan};
ghost use Rattle.seat_programs.specs.TableSteps.{OnSlot};
ghost use Rattle.seat_programs.specs.TableWords.{index_of};
ghost use Rattle.seat_programs.specs.StepsOfSlots.{slot_kind, word_of_slot, slot_after};
ghost use Rattle.program_steps.specs.SoundSeats.{AllowsWord};
ghost use Rattle.seat_states.specs.ProgramStepsOfMachine.{slot_step_of};

use ref_core::{add_ref, birth, claim_slot, free_slot, look_word, recycle, set_odd, sub_ref};
use sock_model::{code_index, head_index, link_index, ref_index, tag_index};
use sock_words::{Kind, SocketId, Ticket, Vref};

/// A step on the words of a slot: of which slot it is, and what it is to store.
/// References are counted as in versioned_ref_with_id.h.
#[derive(Clone, Copy)]
pub enum SlotStep {
    /// Swap of a slot's tag with 1.
    ClaimSlot(u32),
    /// One more reference on a slot's word, which makes a life over this link.
    CreateLife(u32, u16),
    /// One more reference, for the life of this id.
    AddRef(SocketId),
    /// One reference of a slot less.
    SubRef(u32),
    /// The version of a slot is made odd.
    SetOdd(u32),
    /// The slot's word becomes the next version without references, where it is this word.
    Recycle(u32, Vref),
    /// A slot's tag becomes 0.
    FreeSlot(u32),
    /// The slot's word is loaded, for the life of this id.
    LookWord(SocketId),
    /// A slot's link is stored.
    StoreLink(u32, u16),
    /// The link of a slot that was recycled to this version is loaded.
    LoadLink(u32, u32),
    /// The link of a life that is held is loaded.
    FindLink(SocketId),
    /// A slot's head becomes idle, before it has this link.
    ResetHead(u32, u16),
    /// A slot's error code becomes 0, before it has this link.
    ClearCode(u32, u16),
    /// The error code of the life of this version is stored.
    StoreCode(u32, u32, u16),
    /// The error code of a life that is held is loaded.
    LoadCode(SocketId),
}

impl SlotStep {
    /// Its kind, as a schedule names it.
    pub fn kind(self) -> Kind
        ensures { result ≡ slot_kind (slot_step_of self) }
    {
        match self {
            SlotStep::ClaimSlot(_) => Kind::A1,
            SlotStep::CreateLife(_, _) => Kind::A2,
            SlotStep::AddRef(_) => Kind::A3,
            SlotStep::SubRef(_) => Kind::A4,
            SlotStep::SetOdd(_) => Kind::A5,
            SlotStep::Recycle(_, _) => Kind::A6,
            SlotStep::FreeSlot(_) => Kind::A7,
            SlotStep::LookWord(_) => Kind::A8,
            SlotStep::StoreLink(_, _) => Kind::S1,
            SlotStep::LoadLink(_, _) | SlotStep::FindLink(_) => Kind::S2,
            SlotStep::ResetHead(_, _) => Kind::S3,
            SlotStep::ClearCode(_, _) | SlotStep::StoreCode(_, _, _) => Kind::S4,
            SlotStep::LoadCode(_) => Kind::S5,
        }
    }

    /// The index of the word that it reads or changes.
    pub fn index(self) -> usize
        ensures { (p : Plan) → index_of p (word_of_slot (slot_step_of self)) ≡ some result }
    {
        match self {
            SlotStep::ClaimSlot(slot) | SlotStep::FreeSlot(slot) => tag_index(slot),
            SlotStep::CreateLife(slot, _)
            | SlotStep::SubRef(slot)
            | SlotStep::SetOdd(slot)
            | SlotStep::Recycle(slot, _) => ref_index(slot),
            SlotStep::AddRef(id) | SlotStep::LookWord(id) => ref_index(id.slot()),
            SlotStep::StoreLink(slot, _) | SlotStep::LoadLink(slot, _) => link_index(slot),
            SlotStep::FindLink(id) => link_index(id.slot()),
            SlotStep::ResetHead(slot, _) => head_index(slot),
            SlotStep::ClearCode(slot, _) | SlotStep::StoreCode(slot, _, _) => code_index(slot),
            SlotStep::LoadCode(id) => code_index(id.slot()),
        }
    }

    /// The word after the step, of the word found.
    pub fn word_after(self, found: u64) -> u64
        requires { AllowsWord (OnSlot (slot_step_of self)) found }
        ensures { result ≡ slot_after (slot_step_of self) found }
    {
        match self {
            SlotStep::ClaimSlot(_) => claim_slot(found).next,
            SlotStep::CreateLife(_, _) => birth(found).next,
            SlotStep::AddRef(_) => add_ref(found).next,
            SlotStep::SubRef(_) => sub_ref(found).next,
            SlotStep::SetOdd(_) => set_odd(found).next,
            SlotStep::Recycle(_, from) => recycle(found, from).next,
            SlotStep::FreeSlot(_) => free_slot(found).next,
            SlotStep::LookWord(_) => look_word(found).next,
            SlotStep::StoreLink(_, link) => u64::from(link),
            SlotStep::ResetHead(_, _) => Ticket::IDLE.0,
            SlotStep::ClearCode(_, _) => 0,
            SlotStep::StoreCode(_, _, code) => u64::from(code),
            SlotStep::LoadLink(_, _) | SlotStep::FindLink(_) | SlotStep::LoadCode(_) => found,
        }
    }
}
