ghost use Rattle.std.specs.Prelude.{◌≡◌};
ghost use mathlib.Core.Option.{some};
ghost use Rattle.seat_programs.specs.TableWords.{index_of};
ghost use Rattle.seat_programs.specs.StepsOfNames.{name_kind, word_of_name, name_after};
ghost use Rattle.seat_states.specs.ProgramStepsOfMachine.{name_step_of};

use sock_model::{name_index, open_index};
use sock_words::{Kind, Plan};

/// A step on the word of a name, or on that of an `open`: of which it is, and what it is to store.
#[derive(Clone, Copy)]
pub enum NameStep {
    StoreName(u16, u64),
    LoadName(u16),
    StoreOpen(u16, u64),
    LoadOpen(u16),
}

impl NameStep {
    /// Its kind, as a schedule names it.
    pub fn kind(self) -> Kind
        ensures { result ≡ name_kind (name_step_of self) }
    {
        match self {
            NameStep::StoreName(_, _) | NameStep::StoreOpen(_, _) => Kind::S6,
            NameStep::LoadName(_) | NameStep::LoadOpen(_) => Kind::S7,
        }
    }

    /// The index of the word that it reads or changes.
    pub fn index(self, plan: &Plan) -> usize
        ensures { index_of plan.now (word_of_name (name_step_of self)) ≡ some result }
    {
        match self {
            NameStep::StoreName(name, _) | NameStep::LoadName(name) => name_index(plan, name),
            NameStep::StoreOpen(operation, _) | NameStep::LoadOpen(operation) => {
                open_index(plan, operation)
            }
        }
    }

    /// The word after the step, of the word found.
    pub fn word_after(self, found: u64) -> u64
        ensures { result ≡ name_after (name_step_of self) found }
    {
        match self {
            NameStep::StoreName(_, word) | NameStep::StoreOpen(_, word) => word,
            NameStep::LoadName(_) | NameStep::LoadOpen(_) => found,
        }
    }
}
