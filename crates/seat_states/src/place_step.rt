ghost use Rattle.std.specs.Prelude.{◌≡◌};
ghost use mathlib.Core.Option.{some};
ghost use Rattle.seat_programs.specs.TableSteps.{OnPlace};
ghost use Rattle.seat_programs.specs.TableWords.{index_of};
ghost use Rattle.seat_programs.specs.StepsOfPlaces.{place_kind, word_of_place, place_after};
ghost use Rattle.program_steps.specs.SoundSeats.{AllowsWord};
ghost use Rattle.seat_states.specs.ProgramStepsOfMachine.{place_step_of};

use sock_model::place_index;
use sock_words::{Kind, PlaceWord, Plan};

/// A step that notes where a message has its place, or that it was dropped: the message by its number,
/// the link, the position.
#[derive(Clone, Copy)]
pub enum PlaceStep {
    /// The link took the message whole.
    StorePlace(u32, u16, u32),
    DropPlace(u32, u16, u32),
}

impl PlaceStep {
    /// Its kind, as a schedule names it.
    pub fn kind(self) -> Kind
        ensures { result ≡ place_kind (place_step_of self) }
    {
        match self {
            PlaceStep::StorePlace(_, _, _) | PlaceStep::DropPlace(_, _, _) => Kind::P1,
        }
    }

    /// The index of the word that it changes.
    pub fn index(self, plan: &Plan) -> usize
        ensures { index_of plan.now (word_of_place (place_step_of self)) ≡ some result }
    {
        match self {
            PlaceStep::StorePlace(place, _, _) | PlaceStep::DropPlace(place, _, _) => {
                place_index(plan, place)
            }
        }
    }

    /// The word after the step, of the word found.
    pub fn word_after(self, found: u64) -> u64
        requires { AllowsWord (OnPlace (place_step_of self)) found }
        ensures { result ≡ place_after (place_step_of self) found }
    {
        match self {
            PlaceStep::StorePlace(_, link, position) => PlaceWord::pack(false, link, position).0,
            PlaceStep::DropPlace(_, link, position) => PlaceWord::pack(true, link, position).0,
        }
    }
}
