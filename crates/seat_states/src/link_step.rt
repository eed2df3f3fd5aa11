ghost use Rattle.std.specs.Prelude.{◌≡◌};
ghost use Rattle.seat_programs.specs.StepsOfLinks.{link_kind};
ghost use Rattle.seat_states.specs.ProgramStepsOfMachine.{link_step_of};

use sock_words::Kind;

/// A step on a link of its own: out of its home, into it, and the end of its writing half.
#[derive(Clone, Copy)]
pub enum LinkStep {
    TakeLink(u16),
    PutLink(u16),
    FinishLink(u16),
}

impl LinkStep {
    /// Its kind, as a schedule names it.
    pub fn kind(self) -> Kind
        ensures { result ≡ link_kind (link_step_of self) }
    {
        match self {
            LinkStep::TakeLink(_) => Kind::L1,
            LinkStep::PutLink(_) => Kind::L2,
            LinkStep::FinishLink(_) => Kind::W3,
        }
    }
}
