ghost use Rattle.std.specs.Prelude.{◌≡◌, ◌<◌, ◌⊎◌, ℕ, Bool, true, false, IfOk, IfSome, OnOk, OnErr, IsOk, is_some};
ghost use Rattle.seat_programs.specs.StepTables.{word_of};
ghost use Rattle.seat_programs.specs.Cores.{found_at};
ghost use Rattle.seat_programs.specs.Ticks.{Unasked, OfPut, OfReady};
ghost use Rattle.seat_states.specs.ProgramStepsOfMachine.{step_of};
ghost use Rattle.client_seats.specs.ClientSeatState.{seat_data, seat_program};
ghost use Rattle.client_seats.specs.ClientSeatFollowing.{HasRoom};
ghost use Rattle.machine_model.specs.Driving.{AsksNone};
ghost use Rattle.machine_model.specs.Machines.{table_sizes, IsSized};
ghost use Rattle.machine_model.specs.PassingOverTaken.{PassesRequest, PassesSlot};
ghost use Rattle.machine_model.specs.MachineSteps.{IsNext, IsFitStep, IsOnWord, Fits, Makes, FoundBeside};
ghost use Rattle.machine_model.specs.MachineRuns.{IsWaitingFor};
ghost use Rattle.machine_model.specs.TickAnswersOfStep.{StepTold, waits_by};
ghost use Rattle.machine_model.specs.ReadingSteps.{IsCutTable};

use crate::homes::{put_home, put_message, take_home, take_message};
use crate::link_calls::{ask_ready, is_of, put_bytes};
use crate::waiting::awaited;
use crate::words::{end_link, is_taken, pass_link, step_word};
use call_points::Aside;
use call_slots::CallSlots;
use client_seats::Seat;
use machine_model::{HomeMessage, On, Tick};
use seat_programs::Sizes;
use seat_states::{Author, Step, TableStep};
use sock_io::{Ends, In, NoMemory, Out, Peer, Put, Ready};
use sock_message::BlockPool;
use sock_words::{Outcome, Plan};
use std::alloc::Global;
use std::marker::Model;

/// Whether there is room for one more life and one more retry, once it was asked for.
pub fn has_room(place: &mut Seat) -> bool
    ensures same { seat_data place.new ≡ seat_data place.old }
    ensures room { result ≡ true → HasRoom place.new }
{
    place.held.reserve(1).is_ok() && place.waiting.reserve(1).is_ok()
}

/// The words, ids, messages and links on which the seats step, and the outcomes so far.
#[derive(Drop)]
pub struct Table<O: Out, I: In, P: Peer> {
    pub plan: Plan,
    pub words: Vec<u64>,
    /// The message at the home of each request, in memory of its own.
    pub letters: Vec<Option<Box<HomeMessage>>>,
    pub ends: Vec<Ends<O, I, P>>,
    /// Which seat has each link in hand.
    pub holders: Vec<Option<u16>>,
    /// How many messages of each link have places.
    pub nexts: Vec<u32>,
    pub ids: CallSlots,
    /// How many id slots there are.
    pub id_slots: u16,
    /// The operations that are calls.
    pub calls: Vec<u16>,
    /// Whether the run is ending.
    pub ending: bool,
    pub outcomes: Vec<Option<Outcome>>,
    pub alloc: Global,
    /// Blocks for frames.
    pub pool: BlockPool,
    /// What a reader takes at once.
    pub room: Vec<u8>,
}

impl<O: Out, I: In, P: Peer> Model for Table<O, I, P> {
    ghost use Rattle.std.specs.Prelude.{◌≡◌, map, vec_len};
    ghost use Rattle.sock_io.specs.LinkHalves.{end_of};
    ghost use Rattle.machine_model.specs.LetterHomes.{letters_in};
    ghost use Rattle.machine_model.specs.Machines.{TableState};

    ghost Value = { TableState };

    ghost view = { λ t. record {
      plan = t.plan;
      words = t.words.items;
      letters = letters_in t.letters.items;
      links = record { holders = t.holders.items; nexts = t.nexts.items; outs = map (λ (e : _). O.state e.out) t.ends.items; inns = map (λ (e : _). I.state e.inn) t.ends.items };
      ids = t.ids;
      calls = t.calls.items;
      ending = t.ending;
      outcomes = t.outcomes.items;
      ends = map (λ (e : _). end_of (O.state e.out) (I.state e.inn)) t.ends.items;
    } };

    ghost invariant = { λ t. (t.id_slots ≡ t.ids.plan.slots) × (vec_len t.room ≡ 4096) };
}

impl<O: Out, I: In, P: Peer> Table<O, I, P> {
    /// How many slots, requests and id slots there are.
    pub(crate) fn sizes(&self) -> Sizes
        ensures { result ≡ table_sizes self.now }
    {
        Sizes {
            slots: self.plan.slots,
            requests: self.plan.requests,
            ids: self.id_slots,
        }
    }

    /// Whether a request is taken, and there is one behind it.
    #[inline(always)]
    pub(crate) fn passes_request(&self, request: u16) -> bool
        ensures passes { result ≡ true → PassesRequest self.now request }
        ensures fits { result ≡ true → request < 65535 }
    {
        request < u16::MAX
            && request + 1 < self.plan.requests
            && is_taken(&self.plan, &self.words, request)
    }

    /// The same of an id slot.
    #[inline(always)]
    pub(crate) fn passes_slot(&self, slot: u16) -> bool
        ensures passes { result ≡ true → PassesSlot self.now slot }
        ensures fits { result ≡ true → slot < 65535 }
    {
        slot < u16::MAX && slot + 1 < self.id_slots && self.ids.is_claimed(slot)
    }

    /// A step on a word, or a move that tells nothing; for what its seat waits, if it does. Only a seat that comes to hold a life or to keep a retry
    /// wants room for it.
    pub(crate) fn make_table_step(
        &mut self,
        place: &mut Seat,
        seat: u16,
        step: TableStep,
    ) -> Option<On>
        requires may { IsFitStep self.old (seat_data place.old) (Step.Table step) }
        requires sized { IsSized self.old }
        requires room { HasRoom place.old ⊎ AsksNone (seat_program (table_sizes self.old) (seat_data place.old)) }
        ensures made { Makes self.old self.new seat (seat_data place.old) (seat_data place.new) (Step.Table step) Unasked }
        ensures waits { is_some result ≡ waits_by (seat_program (table_sizes self.old) (seat_data place.old)) (found_at self.old.words (word_of self.old.plan (step_of step))) }
        ensures on { IfSome result (IsWaitingFor (seat_program (table_sizes self.old) (seat_data place.old))) }
    {
        let found = step_word(&self.plan, &mut self.words, step);
        pass_link(&mut self.holders, seat, step);
        end_link(&mut self.ends, step);
        let waits = awaited(&place.point, found);
        let sizes = self.sizes();
        let next = place.point.next(sizes, place.calling(), found);
        place.follow(sizes, next, &mut self.outcomes);
        waits
    }

    /// A step on the ids that finds a word; for what its seat waits, if it does.
    pub(crate) fn make_aside(&mut self, place: &mut Seat, step: Aside) -> Option<On>
        requires kind { IsOnWord step }
        requires may { IsFitStep self.old (seat_data place.old) (Step.Aside step) }
        requires room { HasRoom place.old }
        ensures made { (seat : ℕ) → Makes self.old self.new seat (seat_data place.old) (seat_data place.new) (Step.Aside step) Unasked }
        ensures waits { (found : ℕ) × FoundBeside self.old (seat_data place.old) step found × (is_some result ≡ waits_by (seat_program (table_sizes self.old) (seat_data place.old)) found) }
        ensures on { IfSome result (IsWaitingFor (seat_program (table_sizes self.old) (seat_data place.old))) }
    {
        let found = self.ids.step(step);
        let waits = awaited(&place.point, found);
        let sizes = self.sizes();
        let next = place.point.next(sizes, place.calling(), found);
        place.follow(sizes, next, &mut self.outcomes);
        waits
    }

    /// The call in the seat's hand goes into its home, as an equal one.
    pub(crate) fn put_call(&mut self, place: &mut Seat, slot: u16) -> Result<(), NoMemory>
        requires may { IsFitStep self.old (seat_data place.old) (Step.Aside (Aside.PutCall slot)) }
        requires room { HasRoom place.old }
        ensures ok { OnOk result ((seat : ℕ) → Makes self.old self.new seat (seat_data place.old) (seat_data place.new) (Step.Aside (Aside.PutCall slot)) Unasked) }
        ensures err { OnErr result (IsCutTable self.old self.new) }
    {
        // A seat whose call goes home has one in hand.
        let Some(call) = place.hand.call() else {
            return Err(NoMemory);
        };
        let Ok(call) = call.share() else {
            return Err(NoMemory);
        };
        let found = self.ids.put_call(slot, call);
        let sizes = self.sizes();
        let next = place.point.next(sizes, place.calling(), found);
        place.follow(sizes, next, &mut self.outcomes);
        Ok(())
    }

    /// A call is taken out of its home.
    pub(crate) fn take_call(&mut self, place: &mut Seat, slot: u16) -> Result<(), NoMemory>
        requires may { IsFitStep self.old (seat_data place.old) (Step.Aside (Aside.TakeCall slot)) }
        requires room { HasRoom place.old }
        ensures ok { OnOk result ((seat : ℕ) → Makes self.old self.new seat (seat_data place.old) (seat_data place.new) (Step.Aside (Aside.TakeCall slot)) Unasked) }
        ensures err { OnErr result (IsCutTable self.old self.new) }
    {
        // The call lies there.
        let Some(call) = self.ids.take_call(slot) else {
            return Err(NoMemory);
        };
        let Ok(next) = place.with_call(self.alloc, &mut self.pool, call) else {
            return Err(NoMemory);
        };
        if !has_room(place) {
            return Err(NoMemory);
        }
        place.follow(self.sizes(), next, &mut self.outcomes);
        Ok(())
    }

    /// The message that the seat has goes to its home.
    pub(crate) fn put_message(
        &mut self,
        place: &mut Seat,
        request: u16,
        author: Author,
    ) -> Result<(), NoMemory>
        requires may { IsFitStep self.old (seat_data place.old) (Step.PutMessage request author) }
        requires room { HasRoom place.old ⊎ AsksNone (seat_program (table_sizes self.old) (seat_data place.old)) }
        ensures ok { OnOk result ((seat : ℕ) → Makes self.old self.new seat (seat_data place.old) (seat_data place.new) (Step.PutMessage request author) Unasked) }
        ensures err { OnErr result (IsCutTable self.old self.new) }
    {
        put_message(
            self.alloc,
            &mut self.letters,
            request,
            author,
            &mut place.hand,
        )?;
        let sizes = self.sizes();
        let next = place.point.next(sizes, place.calling(), 0);
        place.follow(sizes, next, &mut self.outcomes);
        Ok(())
    }

    /// A message is taken out of its home.
    pub(crate) fn take_message(&mut self, place: &mut Seat, request: u16)
        requires next { IsNext self.old (seat_data place.old) (Step.TakeMessage request) }
        requires fits { Fits self.old (seat_data place.old) (Step.TakeMessage request) }
        requires room { HasRoom place.old }
        ensures { (seat : ℕ) → Makes self.old self.new seat (seat_data place.old) (seat_data place.new) (Step.TakeMessage request) Unasked }
    {
        let author = take_message(&mut self.letters, request, &mut place.out);
        let next = place.point.with_message(author);
        place.follow(self.sizes(), next, &mut self.outcomes);
    }

    /// A link is taken out of its home.
    pub(crate) fn take_home(&mut self, place: &mut Seat, seat: u16, link: u16)
        requires next { IsNext self.old (seat_data place.old) (Step.TakeHome link) }
        requires fits { Fits self.old (seat_data place.old) (Step.TakeHome link) }
        requires sized { IsSized self.old }
        requires room { HasRoom place.old }
        ensures { Makes self.old self.new seat (seat_data place.old) (seat_data place.new) (Step.TakeHome link) Unasked }
    {
        let places = take_home(&mut self.holders, &self.nexts, link, seat);
        let next = place.point.with_link(places);
        place.follow(self.sizes(), next, &mut self.outcomes);
    }

    /// A link goes home.
    pub(crate) fn put_home(&mut self, place: &mut Seat, link: u16, places: u32)
        requires next { IsNext self.old (seat_data place.old) (Step.PutHome link places) }
        requires fits { Fits self.old (seat_data place.old) (Step.PutHome link places) }
        requires sized { IsSized self.old }
        requires room { HasRoom place.old }
        ensures { (seat : ℕ) → Makes self.old self.new seat (seat_data place.old) (seat_data place.new) (Step.PutHome link places) Unasked }
    {
        put_home(&mut self.holders, &mut self.nexts, link, places);
        let next = place.point.link_home();
        place.follow(self.sizes(), next, &mut self.outcomes);
    }

    /// What is next of the message in hand is put into a link; what the link answered.
    pub(crate) fn put_bytes(
        &mut self,
        place: &mut Seat,
        link: u16,
        author: Author,
    ) -> Result<Put, NoMemory>
        requires next { (asked : Bool) × IsNext self.old (seat_data place.old) (Step.PutBytes link asked author) }
        requires fits { Fits self.old (seat_data place.old) (Step.PutBytes link false author) }
        requires sized { IsSized self.old }
        requires room { HasRoom place.old }
        ensures ok { IfOk result (λ put. (seat : ℕ) (asked : Bool) → Makes self.old self.new seat (seat_data place.old) (seat_data place.new) (Step.PutBytes link asked author) (OfPut put)) }
        ensures err { OnErr result (IsCutTable self.old self.new) }
    {
        // What a `send` puts is no frame.
        let Some(out) = &mut place.out else {
            return Err(NoMemory);
        };
        if !is_of(out, author) {
            return Err(NoMemory);
        }
        let (answer, whole) = put_bytes(&mut self.ends, link, out);
        let next = place.point.put_answered(answer, whole);
        place.follow(self.sizes(), next, &mut self.outcomes);
        Ok(answer)
    }

    /// A link is asked whether it takes more; what it answered.
    pub(crate) fn ask_ready(&mut self, place: &mut Seat, link: u16) -> Ready
        requires next { IsNext self.old (seat_data place.old) (Step.AskReady link) }
        requires fits { Fits self.old (seat_data place.old) (Step.AskReady link) }
        requires sized { IsSized self.old }
        requires room { HasRoom place.old }
        ensures { (seat : ℕ) → Makes self.old self.new seat (seat_data place.old) (seat_data place.new) (Step.AskReady link) (OfReady result) }
    {
        let answer = ask_ready(&mut self.ends, link);
        let next = place.point.ready_answered(answer);
        place.follow(self.sizes(), next, &mut self.outcomes);
        answer
    }

    /// The next step of a seat aside of the sockets; what its tick answers.
    fn step_aside(&mut self, place: &mut Seat, step: Aside) -> Result<Tick, NoMemory>
        requires may { IsFitStep self.old (seat_data place.old) (Step.Aside step) }
        requires room { HasRoom place.old }
        ensures ok { IfOk result (λ tick. (seat : ℕ) → StepTold self.old self.new seat (seat_data place.old) (seat_data place.new) (Step.Aside step) tick) }
        ensures err { OnErr result (IsCutTable self.old self.new) }
    {
        let kind = step.kind();
        match step {
            Aside::PutCall(slot) => {
                self.put_call(place, slot)?;
                Ok(Tick::Moved(kind))
            }
            Aside::TakeCall(slot) => {
                self.take_call(place, slot)?;
                Ok(Tick::Moved(kind))
            }
            _ => match self.make_aside(place, step) {
                Some(on) => Ok(Tick::Waits(on)),
                None => Ok(Tick::Moved(kind)),
            },
        }
    }

    /// The next step of a seat; what its tick answers.
    pub(crate) fn step(
        &mut self,
        place: &mut Seat,
        seat: u16,
        step: &Step,
    ) -> Result<Tick, NoMemory>
        requires may { IsFitStep self.old (seat_data place.old) step.now }
        requires sized { IsSized self.old }
        requires room { HasRoom place.old ⊎ AsksNone (seat_program (table_sizes self.old) (seat_data place.old)) }
        ensures ok { IfOk result (λ tick. StepTold self.old self.new seat (seat_data place.old) (seat_data place.new) step.now tick) }
        ensures err { OnErr result (IsCutTable self.old self.new) }
        ensures none { AsksNone (seat_program (table_sizes self.old) (seat_data place.old)) → IsOk result }
    {
        let kind = step.kind();
        match *step {
            Step::Table(step) => match self.make_table_step(place, seat, step) {
                Some(on) => Ok(Tick::Waits(on)),
                None => Ok(Tick::Moved(kind)),
            },
            Step::Aside(step) => self.step_aside(place, step),
            Step::PutMessage(request, author) => {
                self.put_message(place, request, author)?;
                Ok(Tick::Moved(kind))
            }
            Step::TakeMessage(request) => {
                self.take_message(place, request);
                Ok(Tick::Moved(kind))
            }
            Step::TakeHome(link) => {
                self.take_home(place, seat, link);
                Ok(Tick::Moved(kind))
            }
            Step::PutHome(link, places) => {
                self.put_home(place, link, places);
                Ok(Tick::Moved(kind))
            }
            Step::PutBytes(link, _, author) => {
                self.put_bytes(place, link, author)?;
                Ok(Tick::Moved(kind))
            }
            Step::AskReady(link) => match self.ask_ready(place, link) {
                Ready::NotYet => Ok(Tick::Waits(On::Out(link))),
                Ready::Now | Ready::Failed => Ok(Tick::Moved(kind)),
            },
        }
    }
}
