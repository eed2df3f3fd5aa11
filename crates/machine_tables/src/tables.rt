ghost use Rattle.std.specs.Prelude.{◌≡◌, ◌+◌, ◌<◌, true, Some, None, IfSome, IfNone, IfOk, OnOk, OnErr, length};
ghost use Rattle.machine_model.specs.Machines.{MachineState, table_of, IsSized};
ghost use Rattle.client_seats.specs.ClientSeatState.{seat_data};
ghost use Rattle.client_seats.specs.ClientSeatFollowing.{IsPrepared};
ghost use Rattle.machine_model.specs.MachineSteps.{HasNoStep, NextIs, StepFits, PreparedAt, ReadyAt, StandsAt, MayStand};
ghost use Rattle.machine_model.specs.PassingOverTaken.{HasPassed};
ghost use Rattle.machine_model.specs.TickAnswersOfStep.{TickTold};
ghost use Rattle.machine_model.specs.ReadingSteps.{NextReadIs, HasNoRead, ReadFits, TickRead, IsCutShort};
ghost use Rattle.machine_model.specs.Driving.{BeganEnding, IsPlain, told_ending};

use crate::table::{Table, has_room};
use crate::waiting::{is_rest, stands};
use client_seats::Seat;
use machine_model::Tick;
use reader_points::ReadStep;
use reader_seats::ReaderSeat;
use seat_programs::Sizes;
use seat_states::{CallStep, Point, SendStep, Step};
use sock_io::{In, Linker, NoMemory, Out, Peer};
use sock_message::BlockPool;
use sock_words::Kind;
use std::alloc::Global;
use std::collections::VecDeque;
use std::marker::Model;

/// The number of the first reader's seat.
pub const READERS: u16 = 32;

/// The seats, and the tables on which they step.
#[derive(Drop)]
pub struct Tables<O: Out, I: In, P: Peer> {
    pub table: Table<O, I, P>,
    pub seats: Vec<Seat>,
    /// The reader of each link.
    pub readers: Vec<ReaderSeat>,
    /// The `open`s that the ending goes over.
    pub opens: VecDeque<u16>,
    /// Whether memory ran out in a step: then nothing more is made.
    pub short: bool,
}

impl<O: Out, I: In, P: Peer> Model for Tables<O, I, P> {
    ghost use Rattle.std.specs.Prelude.{map};
    ghost use Rattle.client_seats.specs.ClientSeatState.{seat_data};
    ghost use Rattle.machine_model.specs.Machines.{MachineState};

    ghost Value = { MachineState };

    ghost view = { λ m. record {
      table = m.table;
      seats = map seat_data m.seats.items;
      readers = m.readers.items;
      opens = m.opens.items;
      short = m.short;
    } };
}

/// Whether the reader of a link has a seat: there are fewer links.
fn has_reader(link: u16) -> bool
    ensures { result ≡ true → 32 + link < 65536 }
{
    link < u16::MAX - READERS
}

/// What the next step of a client needs in hand is made, where it isn't there; whether it is, and the client's point stands.
#[inline(always)]
fn is_prepared(place: &mut Seat, alloc: Global, pool: &mut BlockPool) -> bool
    ensures prepared { result ≡ true → (sizes : Sizes) → IsPrepared sizes (seat_data place.old) (seat_data place.new) }
    ensures stand { result ≡ true → MayStand (seat_data place.new) }
{
    let Ok(()) = place.prepare(alloc, pool) else {
        return false;
    };
    // Each word found fits, so each point stands.
    stands(&place.point)
}

impl<O: Out, I: In, P: Peer> Tables<O, I, P> {
    /// How many seats of clients there are.
    pub fn seat_count(&self) -> u16
        ensures { result ≡ self.now.plan.seats }
    {
        self.table.plan.seats
    }

    /// How many links.
    pub fn link_count(&self) -> u16
        ensures { result ≡ self.now.plan.links }
    {
        self.table.plan.links
    }

    /// Whether a client has nothing left to do.
    #[inline(always)]
    pub fn is_at_rest(&self, seat: u16) -> bool
        ensures { result ≡ true → HasNoStep self.now seat }
    {
        let at = usize::from(seat);
        at < self.seats.len() && is_rest(&self.seats[at].point)
    }

    /// A client that finds the request or the id slot taken that it tries goes on to the one behind it, if there is one.
    /// Most of its steps are such, and nothing else is changed by them.
    #[inline(always)]
    pub fn pass(&mut self, seat: u16) -> Option<Tick>
        ensures some { IfSome result (λ tick. HasPassed self.old self.new seat tick) }
        ensures none { IfNone result (self.new ≡ self.old) }
    {
        let at = usize::from(seat);
        if at >= self.seats.len() {
            return None;
        }
        let place = &mut self.seats[at];
        match place.point {
            Point::Send(sending, SendStep::Claim(request)) => {
                if !self.table.passes_request(request) {
                    return None;
                }
                place.point = Point::Send(sending, SendStep::Claim(request + 1));
                Some(Tick::Moved(Kind::C1))
            }
            Point::Call(CallStep::ClaimId(slot, socket)) => {
                if !self.table.passes_slot(slot) {
                    return None;
                }
                place.point = Point::Call(CallStep::ClaimId(slot + 1, socket));
                Some(Tick::Moved(Kind::I1))
            }
            _ => None,
        }
    }

    /// What the next step of a client needs in hand is made, where it isn't there, and its point stands. Its program stays.
    pub fn prepare(&mut self, seat: u16) -> Result<(), NoMemory>
        requires { seat < length self.old.seats }
        ensures ok { OnOk result (PreparedAt self.old self.new seat) }
        ensures err { OnErr result (IsCutShort self.old self.new) }
    {
        let Table { alloc, pool, .. } = &mut self.table;
        let place = &mut self.seats[usize::from(seat)];
        if !is_prepared(place, *alloc, pool) {
            self.short = true;
            return Err(NoMemory);
        }
        Ok(())
    }

    /// The next step of a client that was prepared for it, if it has one.
    pub fn next_step(&self, seat: u16) -> Option<Step>
        requires ready { ReadyAt self.now seat }
        requires stand { StandsAt self.now seat }
        ensures some { IfSome result (λ step. NextIs self.now seat step) }
        ensures none { IfNone result (HasNoStep self.now seat) }
    {
        let at = usize::from(seat);
        if at < self.seats.len() {
            let place = &self.seats[at];
            match place.point {
                Point::Rest => None,
                _ => place.point.step(place.calling()),
            }
        } else {
            None
        }
    }

    /// Makes the next step of a client; what its tick answers.
    pub fn step(&mut self, seat: u16, step: &Step) -> Result<Tick, NoMemory>
        requires next { NextIs self.old seat step.now }
        requires ready { ReadyAt self.old seat }
        requires fits { StepFits self.old seat step.now }
        requires sized { IsSized (table_of self.old) }
        ensures ok { IfOk result (λ tick. TickTold self.old self.new seat step.now tick) }
        ensures err { OnErr result (IsCutShort self.old self.new) }
    {
        let place = &mut self.seats[usize::from(seat)];
        if !has_room(place) {
            self.short = true;
            return Err(NoMemory);
        }
        let Ok(tick) = self.table.step(place, seat, step) else {
            self.short = true;
            return Err(NoMemory);
        };
        Ok(tick)
    }

    /// Makes the next step of seat 0, which asks no link, holds no life and calls nothing. It takes no memory.
    pub fn step_first(&mut self, step: &Step) -> Tick
        requires plain { IsPlain self.old }
        requires next { NextIs self.old 0 step.now }
        requires ready { ReadyAt self.old 0 }
        requires fits { StepFits self.old 0 step.now }
        requires sized { IsSized (table_of self.old) }
        ensures { TickTold self.old self.new 0 step.now result }
    {
        let place = &mut self.seats[0];
        match self.table.step(place, 0, step) {
            Ok(tick) => tick,
            Err(_) => Tick::Idle,
        }
    }

    /// The next step of the reader of a link, if it has one.
    pub fn next_read(&self, link: u16) -> Option<ReadStep>
        ensures some { IfSome result (λ step. NextReadIs self.now link step) }
        ensures none { IfNone result (HasNoRead self.now link) }
    {
        let at = usize::from(link);
        if at < self.readers.len() {
            self.readers[at].step()
        } else {
            None
        }
    }

    /// Makes the next step of the reader of a link; what its tick answers.
    pub fn read<L: Linker<O = O, I = I, P = P>>(
        &mut self,
        links: &mut L,
        link: u16,
        step: ReadStep,
    ) -> Result<Tick, NoMemory>
        requires next { NextReadIs self.old link step }
        requires fits { ReadFits self.old link step }
        requires sized { IsSized (table_of self.old) }
        ensures ok { IfOk result (λ tick. TickRead self.old self.new (32 + link) link step tick) }
        ensures err { OnErr result (IsCutShort self.old self.new) }
        ensures says { L.state links.new ≡ L.state links.old }
    {
        if !has_reader(link) {
            self.short = true;
            return Err(NoMemory);
        }
        let reader = &mut self.readers[usize::from(link)];
        let Ok(tick) = self.table.read(links, reader, READERS + link, step) else {
            self.short = true;
            return Err(NoMemory);
        };
        Ok(tick)
    }

    /// Seat 0 begins the ending, over the `open`s.
    pub fn begin_ending(&mut self)
        requires { 0 < length self.old.seats }
        ensures { BeganEnding self.old self.new }
    {
        let first = &mut self.seats[0];
        std::mem::swap(&mut first.ending, &mut self.opens);
        self.opens.clear();
        first.end_next();
    }

    /// From now on the run is ending: what isn't there at a take won't come.
    pub fn tell_ending(&mut self)
        ensures { self.new ≡ told_ending self.old }
    {
        self.table.ending = true;
    }
}
