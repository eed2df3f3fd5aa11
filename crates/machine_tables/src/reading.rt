ghost use Rattle.std.specs.Prelude.{◌≡◌, ◌≤◌, ◌<◌, ℕ, true, false, List, IfOk, OnErr, length, take};
ghost use Rattle.sock_io.specs.LinkHalves.{TakeStep};
ghost use Rattle.seat_programs.specs.Ticks.{OfTake, is_nothing};
ghost use Rattle.reader_seats.specs.ReaderGoesOn.{taking_of};
ghost use Rattle.machine_model.specs.Machines.{IsSized};
ghost use Rattle.machine_model.specs.MachineSteps.{IsOnWord};
ghost use Rattle.machine_model.specs.ReadingSteps.{IsFitRead, ReadTold, IsCutTable};

use crate::table::Table;
use crate::waiting::awaited_by_reader;
use crate::words::{end_link, pass_link, step_word};
use call_points::Aside;
use machine_model::{On, Tick};
use reader_points::ReadStep;
use reader_seats::ReaderSeat;
use seat_states::TableStep;
use sock_io::{In, Linker, NoMemory, Out, Peer, Take};
use sock_words::Kind;

/// What the tick of a take answers: its reader waits where nothing is there yet, unless the run is ending.
fn take_tick(link: u16, answer: Take, ending: bool) -> Tick
    ensures waits { (room : List ℕ) → is_nothing ending (OfTake (taking_of room answer)) ≡ true → result ≡ Tick.Waits (On.In link) }
    ensures moved { (room : List ℕ) → is_nothing ending (OfTake (taking_of room answer)) ≡ false → result ≡ Tick.Moved Kind.R1 }
{
    match answer {
        Take::Empty => {
            if ending {
                Tick::Moved(Kind::R1)
            } else {
                Tick::Waits(On::In(link))
            }
        }
        Take::Took(_) | Take::End | Take::Closed | Take::Failed => Tick::Moved(Kind::R1),
    }
}

/// A reading half gives at most so many bytes into the front of the room.
fn take_into<I: In>(inn: &mut I, room: &mut [u8], count: usize) -> Take
    requires some { 0 < count }
    requires fits { count ≤ length room.old }
    ensures { TakeStep (I.state inn.old) (I.state inn.new) (take count room.new) result }
{
    inn.take(&mut room[..count])
}

impl<O: Out, I: In, P: Peer> Table<O, I, P> {
    /// A reader's step on a word, or its move of a link; what its tick answers.
    fn read_table_step(
        &mut self,
        reader: &mut ReaderSeat,
        seat: u16,
        step: TableStep,
    ) -> Result<Tick, NoMemory>
        requires may { IsFitRead self.old reader.old (ReadStep.Table step) }
        requires sized { IsSized self.old }
        ensures ok { IfOk result (λ tick. ReadTold self.old self.new seat reader.old reader.new (ReadStep.Table step) tick) }
        ensures err { OnErr result (IsCutTable self.old self.new) }
    {
        let point = reader.point();
        let found = step_word(&self.plan, &mut self.words, step);
        pass_link(&mut self.holders, seat, step);
        end_link(&mut self.ends, step);
        let Ok(()) = reader.follow_word(&self.calls, found, &mut self.outcomes) else {
            return Err(NoMemory);
        };
        match awaited_by_reader(point, found) {
            Some(on) => Ok(Tick::Waits(on)),
            None => Ok(Tick::Moved(step.kind())),
        }
    }

    /// A reader's step on the ids that finds a word; what its tick answers.
    fn read_aside(&mut self, reader: &mut ReaderSeat, step: Aside) -> Result<Tick, NoMemory>
        requires kind { IsOnWord step }
        requires may { IsFitRead self.old reader.old (ReadStep.Aside step) }
        ensures ok { IfOk result (λ tick. (seat : ℕ) → ReadTold self.old self.new seat reader.old reader.new (ReadStep.Aside step) tick) }
        ensures err { OnErr result (IsCutTable self.old self.new) }
    {
        let point = reader.point();
        let found = self.ids.step(step);
        let Ok(()) = reader.follow_word(&self.calls, found, &mut self.outcomes) else {
            return Err(NoMemory);
        };
        match awaited_by_reader(point, found) {
            Some(on) => Ok(Tick::Waits(on)),
            None => Ok(Tick::Moved(step.kind())),
        }
    }

    /// A reader takes bytes of a link, at most so many, once what the other end was given is settled; what its tick answers.
    fn read_bytes<L: Linker<O = O, I = I, P = P>>(
        &mut self,
        links: &mut L,
        reader: &mut ReaderSeat,
        link: u16,
        count: u32,
    ) -> Result<Tick, NoMemory>
        requires may { IsFitRead self.old reader.old (ReadStep.Aside (Aside.TakeBytes link count)) }
        requires sized { IsSized self.old }
        ensures ok { IfOk result (λ tick. (seat : ℕ) → ReadTold self.old self.new seat reader.old reader.new (ReadStep.Aside (Aside.TakeBytes link count)) tick) }
        ensures err { OnErr result (IsCutTable self.old self.new) }
        ensures says { L.state links.new ≡ L.state links.old }
    {
        // A reader takes some bytes of a link that there is.
        if usize::from(link) >= self.ends.len() || count == 0 {
            return Err(NoMemory);
        }
        let ends = &mut self.ends[usize::from(link)];
        links.settle(ends)?;
        let answer = take_into(&mut ends.inn, &mut self.room, count as usize);
        match answer {
            // Nothing came, so that the reader stays where it is.
            Take::Empty if !self.ending => return Ok(Tick::Waits(On::In(link))),
            _ => {}
        }
        let Ok(()) = reader.follow_take(
            &mut self.pool,
            &self.calls,
            &self.room[..count as usize],
            answer,
            self.ending,
            &mut self.outcomes,
        ) else {
            return Err(NoMemory);
        };
        Ok(take_tick(link, answer, self.ending))
    }

    /// The next step of a reader; what its tick answers.
    pub(crate) fn read<L: Linker<O = O, I = I, P = P>>(
        &mut self,
        links: &mut L,
        reader: &mut ReaderSeat,
        seat: u16,
        step: ReadStep,
    ) -> Result<Tick, NoMemory>
        requires may { IsFitRead self.old reader.old step }
        requires sized { IsSized self.old }
        ensures ok { IfOk result (λ tick. ReadTold self.old self.new seat reader.old reader.new step tick) }
        ensures err { OnErr result (IsCutTable self.old self.new) }
        ensures says { L.state links.new ≡ L.state links.old }
    {
        match step {
            ReadStep::Table(step) => self.read_table_step(reader, seat, step),
            ReadStep::Aside(Aside::TakeBytes(link, count)) => {
                self.read_bytes(links, reader, link, count)
            }
            ReadStep::Aside(Aside::TakeCall(slot)) => {
                // The call lies there.
                let Some(call) = self.ids.take_call(slot) else {
                    return Err(NoMemory);
                };
                reader.follow_call(call);
                Ok(Tick::Moved(Kind::K2))
            }
            ReadStep::Aside(step) => self.read_aside(reader, step),
        }
    }
}
