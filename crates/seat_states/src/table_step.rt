ghost use Rattle.std.specs.Prelude.{◌≡◌, IfSome, IfNone};
ghost use mathlib.Core.Option.{some, none};
ghost use Rattle.seat_programs.specs.StepTables.{kind_of, word_of, word_after};
ghost use Rattle.program_steps.specs.SoundSeats.{AllowsWord};
ghost use Rattle.seat_states.specs.ProgramStepsOfMachine.{step_of};

use crate::chain_step::ChainStep;
use crate::link_step::LinkStep;
use crate::name_step::NameStep;
use crate::place_step::PlaceStep;
use crate::slot_step::SlotStep;
use sock_words::{Kind, Plan};

/// A step of a seat on the table of the sockets, by its family.
#[derive(Clone, Copy)]
pub enum TableStep {
    Slot(SlotStep),
    Name(NameStep),
    Chain(ChainStep),
    Place(PlaceStep),
    Link(LinkStep),
}

impl TableStep {
    /// Its kind, as a schedule names it.
    pub fn kind(self) -> Kind
        ensures { result ≡ kind_of (step_of self) }
    {
        match self {
            TableStep::Slot(step) => step.kind(),
            TableStep::Name(step) => step.kind(),
            TableStep::Chain(step) => step.kind(),
            TableStep::Place(step) => step.kind(),
            TableStep::Link(step) => step.kind(),
        }
    }

    /// The index of the word that it reads or changes; a move of a link has none.
    pub fn index(self, plan: &Plan) -> Option<usize>
        ensures word { IfSome result (λ x. word_of plan.now (step_of self) ≡ some x) }
        ensures none { IfNone result (word_of plan.now (step_of self) ≡ none) }
    {
        match self {
            TableStep::Slot(step) => Some(step.index()),
            TableStep::Name(step) => Some(step.index(plan)),
            TableStep::Chain(step) => Some(step.index(plan)),
            TableStep::Place(step) => Some(step.index(plan)),
            TableStep::Link(_) => None,
        }
    }

    /// The word after the step, of the word found.
    pub fn word_after(self, found: u64) -> u64
        requires { AllowsWord (step_of self) found }
        ensures { result ≡ word_after (step_of self) found }
    {
        match self {
            TableStep::Slot(step) => step.word_after(found),
            TableStep::Name(step) => step.word_after(found),
            TableStep::Chain(step) => step.word_after(found),
            TableStep::Place(step) => step.word_after(found),
            TableStep::Link(_) => found,
        }
    }
}
