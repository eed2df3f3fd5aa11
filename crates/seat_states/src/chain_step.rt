ghost use Rattle.std.specs.Prelude.{◌≡◌};
ghost use mathlib.Core.Option.{some};
ghost use Rattle.seat_programs.specs.TableSteps.{OnChain};
ghost use Rattle.seat_programs.specs.TableWords.{index_of};
ghost use Rattle.seat_programs.specs.StepsOfChain.{chain_kind, word_of_chain, chain_after};
ghost use Rattle.program_steps.specs.SoundSeats.{AllowsWord};
ghost use Rattle.seat_states.specs.ProgramStepsOfMachine.{chain_step_of};

use chain_core::{
    claim_request, connect, empty_head, free_request, read_next, reverse_next, swap_head, unconnect,
};
use sock_model::{head_index, next_index, request_index};
use sock_words::{Kind, Plan, SocketId, Ticket};

/// A step on the chain of messages: of which slot or request it is, and what it is to store.
/// Messages are written as in socket.cpp.
#[derive(Clone, Copy)]
pub enum ChainStep {
    /// Bit 0 of a request's word is set, for a message to the life of this id.
    ClaimRequest(SocketId, u16),
    /// A slot's head is exchanged with a ticket.
    SwapHead(u32, Ticket),
    /// A request's next word becomes the ticket that the exchange found.
    Connect(u16, Ticket),
    /// A slot's head becomes idle behind this ticket, where it is this ticket.
    EmptyHead(u32, Ticket),
    /// A request's next word is loaded.
    ReadNext(u16),
    /// On a walk a request's next word becomes the ticket of its successor, or 0.
    ReverseNext(u16, Ticket),
    /// A request's next word is marked as not connected.
    Unconnect(u16),
    /// A request's word becomes the generation after this one, not taken.
    FreeRequest(u16, u64),
}

impl ChainStep {
    /// Its kind, as a schedule names it.
    pub fn kind(self) -> Kind
        ensures { result ≡ chain_kind (chain_step_of self) }
    {
        match self {
            ChainStep::ClaimRequest(_, _) => Kind::C1,
            ChainStep::SwapHead(_, _) => Kind::C2,
            ChainStep::Connect(_, _) => Kind::C3,
            ChainStep::EmptyHead(_, _) => Kind::C4,
            ChainStep::ReadNext(_) => Kind::C5,
            ChainStep::ReverseNext(_, _) => Kind::C6,
            ChainStep::Unconnect(_) => Kind::C7,
            ChainStep::FreeRequest(_, _) => Kind::C8,
        }
    }

    /// The index of the word that it reads or changes.
    pub fn index(self, plan: &Plan) -> usize
        ensures { index_of plan.now (word_of_chain (chain_step_of self)) ≡ some result }
    {
        match self {
            ChainStep::SwapHead(slot, _) | ChainStep::EmptyHead(slot, _) => head_index(slot),
            ChainStep::ClaimRequest(_, request) | ChainStep::FreeRequest(request, _) => {
                request_index(plan, request)
            }
            ChainStep::Unconnect(request)
            | ChainStep::Connect(request, _)
            | ChainStep::ReadNext(request)
            | ChainStep::ReverseNext(request, _) => next_index(plan, request),
        }
    }

    /// The word after the step, of the word found.
    pub fn word_after(self, found: u64) -> u64
        requires { AllowsWord (OnChain (chain_step_of self)) found }
        ensures { result ≡ chain_after (chain_step_of self) found }
    {
        match self {
            ChainStep::ClaimRequest(_, _) => claim_request(found).next,
            ChainStep::SwapHead(_, own) => swap_head(found, own).next,
            ChainStep::Connect(_, before) => connect(found, before).next,
            ChainStep::EmptyHead(_, last) => empty_head(found, last).next,
            ChainStep::ReadNext(_) => read_next(found).next,
            ChainStep::ReverseNext(_, value) => reverse_next(found, value.0).next,
            ChainStep::Unconnect(_) => unconnect(found).next,
            ChainStep::FreeRequest(_, generation) => free_request(found, generation).next,
        }
    }
}
