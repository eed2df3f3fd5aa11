ghost use Rattle.std.specs.Prelude.{◌≡◌, ◌-◌, None};
ghost use Rattle.seat_programs.specs.Programs.{open_from};
ghost use Rattle.call_points.specs.AsideCodeSteps.{after_word};
ghost use Rattle.seat_states.specs.ProgramAtPoint.{Context, client_on, open_program, point_program, next_program, link_at, link_behind, link_left, IsOneOf};

use crate::point::{Next, OpenStep, Opening, Point};
use sock_words::{Outcome, Vref};

impl Opening {
    /// An `open` that has come to this of so many slots.
    pub fn try_slot(self, slots: u16, slot: u16) -> Point
        ensures program { (a : Context) → a.sizes.slots ≡ slots → point_program a result ≡ open_from (slots - slot) slot self.operation self.name self.link (client_on a) }
        ensures hand { link_at result ≡ None }
    {
        if slot < slots {
            Point::Open(self, OpenStep::Claim(slot))
        } else {
            Point::Open(self, OpenStep::TakeLink)
        }
    }

    /// An `open` that comes to this step.
    fn to(self, step: OpenStep) -> Next
        ensures { result ≡ Next.Point (Point.Open self step) }
    {
        Next::Point(Point::Open(self, step))
    }

    /// The outcome of an `open`.
    fn opened(self, slot: u16, version: u32) -> Outcome
        ensures { result ≡ Outcome.Opened slot version self.link }
    {
        Outcome::Opened {
            slot: u32::from(slot),
            version,
            link: self.link,
        }
    }

    /// Where an `open` goes on, of so many slots, by the word that its step found.
    pub fn next(self, slots: u16, step: OpenStep, found: u64) -> Next
        requires { IsOneOf slots step }
        ensures program { (a : Context) → a.sizes.slots ≡ slots → next_program a result ≡ after_word (open_program a self step) found }
        ensures hand { link_behind result ≡ link_left (Point.Open self step) }
    {
        match step {
            OpenStep::Claim(slot) => {
                if found == 0 {
                    self.to(OpenStep::StoreLink(slot))
                } else {
                    Next::Point(self.try_slot(slots, slot + 1))
                }
            }
            OpenStep::StoreLink(slot) => self.to(OpenStep::ResetHead(slot)),
            OpenStep::ResetHead(slot) => self.to(OpenStep::ClearCode(slot)),
            OpenStep::ClearCode(slot) => self.to(OpenStep::CreateLife(slot)),
            OpenStep::CreateLife(slot) => {
                self.to(OpenStep::StoreOpen(slot, Vref(found).version()))
            }
            OpenStep::StoreOpen(slot, version) => self.to(OpenStep::StoreName(slot, version)),
            OpenStep::StoreName(slot, version) => {
                Next::Said(self.operation, self.opened(slot, version))
            }
            OpenStep::TakeLink => self.to(OpenStep::FinishLink),
            OpenStep::FinishLink => self.to(OpenStep::PutLink),
            OpenStep::PutLink => self.to(OpenStep::StoreNone),
            OpenStep::StoreNone => Next::Said(self.operation, Outcome::SlotsFull),
        }
    }
}
