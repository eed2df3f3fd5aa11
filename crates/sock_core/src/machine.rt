ghost use Rattle.std.specs.Prelude.{◌≡◌, ◌≢◌, ℕ, List, ◌+◌, ◌-◌, true, false, ◌<◌, ◌≤◌, [], Ok, IfOk, OnOk, OnErr, IfErr, length, map, vec_len};
ghost use Rattle.brpc_model.specs.ReturnedLink.{LinkEnd};
ghost use Rattle.brpc_model.specs.Script.{script_of};
ghost use Rattle.brpc_model.specs.Operations.{link_names};
ghost use Rattle.sock_io.specs.LinkHalves.{OutState, InState, end_of};
ghost use Rattle.seat_programs.specs.ScriptSetupToEnding.{beginning, programs, readers_from, all_programs, sizes_of, place_words};
ghost use Rattle.machine_model.specs.run_theorems.specs.Below.joint_runs.proofs.StartsWithBothRules.{AreFor};
ghost use Rattle.sock_core.specs.MachineBeginning.{AreUnused, IsMade, TellsLinks};
ghost use Rattle.machine_model.specs.MachineLinks.{Taken, Given, Agrees, AgreesGave};
ghost use Rattle.machine_model.specs.Machines.{MOST_LEFT as most_left, HasSizes, core_with, ending_by};
ghost use Rattle.machine_model.specs.MachineRuns.{SameLinks, SameTable, Ticked, Led, Still, HasMoved, PlayedOn, RanFirst, Settled};
ghost use Rattle.machine_model.specs.Driving.{LastsAtMost, LeavesFewer, Leaves, WentOn, IsPlain, FirstRests, TickedFirst, told_ending};

use crate::finished::{Finished, gather_places};
use crate::inputs::Wanted;
use crate::prepared::Prepared;
use machine_model::Tick;
use machine_tables::{READERS, Table, Tables, parts_of};
use script_lang::Script;
use sock_io::{Ends, In, Linker, NoMemory, Out, Peer};
use sock_message::BlockPool;
use sock_words::{Kind, PlaceWord};
use std::alloc::Global;
use std::marker::Model;

/// More ticks than a machine has left that move.
const MOST_LEFT: u64 = 1 << 49;

/// Why no machine was made: memory ran out. The links are handed back as they were.
#[derive(Drop)]
pub struct NotMade<O: Out, I: In, P: Peer> {
    pub ends: Vec<Ends<O, I, P>>,
}

/// All seats of a script, and the tables on which they step, on one thread.
/// The sockets are those of io.md and memory_management.md, the call ids those of bthread_id.md.
#[derive(Drop)]
pub struct Machine<O: Out, I: In, P: Peer> {
    tables: Tables<O, I, P>,
    /// Room for the place words of `finish`.
    places: Vec<PlaceWord>,
}

impl<O: Out, I: In, P: Peer> Model for Machine<O, I, P> {
    ghost use Rattle.std.specs.Prelude.{◌≡◌, [], vec_capacity};
    ghost use Rattle.machine_model.specs.Machines.{MachineState, IsMachine};

    ghost Value = { MachineState };

    ghost view = { λ m. m.tables };

    ghost invariant = { λ m. IsMachine m.tables (vec_capacity m.places) × (m.places.items ≡ []) };
}

impl<O: Out, I: In, P: Peer> Machine<O, I, P> {
    /// A step of a client that isn't at rest and passes over nothing.
    #[inline(never)]
    fn step_client(&mut self, seat: u16) -> Result<Tick, NoMemory>
        requires client { seat < length self.old.seats }
        requires enough { self.old.short ≡ false }
        ensures went { WentOn self.old self.new seat result }
        ensures rest { OnOk result (seat ≢ 0 → FirstRests self.old → FirstRests self.new) }
    {
        self.tables.prepare(seat)?;
        let Some(step) = self.tables.next_step(seat) else {
            return Ok(Tick::Idle);
        };
        self.tables.step(seat, &step)
    }

    /// A step of a client. Most find it at rest, or find what it wants taken.
    #[inline(always)]
    fn advance_client(&mut self, seat: u16) -> Result<Tick, NoMemory>
        requires client { seat < length self.old.seats }
        requires enough { self.old.short ≡ false }
        ensures went { WentOn self.old self.new seat result }
        ensures rest { OnOk result (seat ≢ 0 → FirstRests self.old → FirstRests self.new) }
    {
        if self.tables.is_at_rest(seat) {
            return Ok(Tick::Idle);
        }
        let Some(tick) = self.tables.pass(seat) else {
            return self.step_client(seat);
        };
        Ok(tick)
    }

    /// A step of the reader of a link.
    #[inline(never)]
    fn advance_reader<L: Linker<O = O, I = I, P = P>>(
        &mut self,
        links: &mut L,
        link: u16,
    ) -> Result<Tick, NoMemory>
        requires { self.old.short ≡ false }
        ensures went { WentOn self.old self.new (32 + link) result }
        ensures rest { OnOk result (FirstRests self.old → FirstRests self.new) }
        ensures says { L.state links.new ≡ L.state links.old }
    {
        let Some(step) = self.tables.next_read(link) else {
            return Ok(Tick::Idle);
        };
        self.tables.read(links, link, step)
    }

    /// A step of any seat.
    #[inline(always)]
    fn advance<L: Linker<O = O, I = I, P = P>>(
        &mut self,
        links: &mut L,
        seat: u16,
    ) -> Result<Tick, NoMemory>
        ensures tick { IfOk result (λ tick. Ticked self.old self.new seat tick) }
        ensures left { IfOk result (λ tick. Leaves tick self.old self.new) }
        ensures enough { OnOk result ((self.old.short ≡ false) × (self.new.short ≡ false)) }
        ensures same { SameTable self.old self.new × SameLinks self.old self.new }
        ensures rest { OnOk result (seat ≢ 0 → FirstRests self.old → FirstRests self.new) }
        ensures sizes { ∥ HasSizes self.new ∥₁ }
        ensures says { L.state links.new ≡ L.state links.old }
    {
        if self.tables.short {
            return Err(NoMemory);
        }
        if seat < self.clients() {
            self.advance_client(seat)
        } else if seat >= READERS {
            self.advance_reader(links, seat - READERS)
        } else {
            Ok(Tick::Idle)
        }
    }

    /// A step of seat 0, which asks no link, holds no life and calls nothing. It takes no memory.
    fn advance_first(&mut self) -> Tick
        requires plain { IsPlain self.old }
        requires enough { self.old.short ≡ false }
        ensures tick { Ticked self.old self.new 0 result }
        ensures left { Leaves result self.old self.new }
        ensures first { TickedFirst self.old self.new }
        ensures enough { self.new.short ≡ false }
        ensures sizes { ∥ HasSizes self.new ∥₁ }
    {
        match self.tables.next_step(0) {
            Some(step) => self.tables.step_first(&step),
            None => Tick::Idle,
        }
    }

    /// Seat 0 begins the ending.
    fn begin_ending(&mut self)
        requires enough { self.old.short ≡ false }
        requires rest { FirstRests self.old }
        ensures core { (took : Taken) (gave : Given) → core_with self.new took gave ≡ ending_by self.old.opens (core_with self.old took gave) }
        ensures plan { (self.new.plan ≡ self.old.plan) × (self.new.ids.plan ≡ self.old.ids.plan) }
        ensures links { self.new.links ≡ self.old.links }
        ensures ends { self.new.ends ≡ self.old.ends }
        ensures plain { IsPlain self.new }
        ensures enough { self.new.short ≡ false }
    {
        self.tables.begin_ending();
    }

    /// From now on the run is ending.
    fn tell_ending(&mut self)
        ensures { self.new ≡ told_ending self.old }
    {
        self.tables.tell_ending();
    }

    /// How many seats of clients there are, at most 32.
    fn clients(&self) -> u16
        ensures count { result ≡ self.now.plan.seats }
        ensures seats { result ≡ length self.now.seats }
        ensures some { 0 < result }
        ensures few { result ≤ 32 }
        ensures sizes { ∥ HasSizes self.now ∥₁ }
    {
        self.tables.seat_count()
    }

    /// How many links there are, and so many readers.
    fn links(&self) -> u16
        ensures count { result ≡ self.now.plan.links }
        ensures few { result ≤ 32 }
    {
        self.tables.link_count()
    }

    /// More ticks than it has left that move; none where memory ran out.
    fn most_left(&self) -> Result<u64, NoMemory>
        ensures most { IfOk result (λ n. n ≡ most_left) }
        ensures left { OnOk result (LastsAtMost self.now (most_left - 1)) }
        ensures short { OnErr result (self.now.short ≡ true) }
        ensures sizes { ∥ HasSizes self.now ∥₁ }
    {
        if self.tables.short {
            Err(NoMemory)
        } else {
            Ok(MOST_LEFT)
        }
    }

    /// A tick of a seat: its next step, if it has one. Seat 0 makes its ending in `settle` alone, and a seat that the
    /// script doesn't have makes no step. Once memory ran out the machine is only to be taken apart.
    pub fn tick<L: Linker<O = O, I = I, P = P>>(
        &mut self,
        links: &mut L,
        seat: u16,
    ) -> Result<Tick, NoMemory>
        requires rest { FirstRests self.old }
        ensures tick { IfOk result (λ tick. Ticked self.old self.new seat tick) }
        ensures left { IfOk result (λ tick. Leaves tick self.old self.new) }
        ensures enough { OnOk result ((self.old.short ≡ false) × (self.new.short ≡ false)) }
        ensures rest { OnOk result (FirstRests self.new) }
        ensures same { SameTable self.old self.new × SameLinks self.old self.new }
        ensures sizes { ∥ HasSizes self.new ∥₁ }
        ensures says { L.state links.new ≡ L.state links.old }
    {
        if seat == 0 {
            if self.tables.short {
                return Err(NoMemory);
            }
            return Ok(Tick::Idle);
        }
        self.advance(links, seat)
    }

    /// Ticks of a seat up to its first step of this kind, or to where it waits or has no step left.
    pub fn tick_until<L: Linker<O = O, I = I, P = P>>(
        &mut self,
        links: &mut L,
        seat: u16,
        kind: Kind,
    ) -> Result<(), NoMemory>
        requires rest { FirstRests self.old }
        ensures led { OnOk result (Led self.old self.new seat kind) }
        ensures rest { OnOk result (FirstRests self.new) }
        ensures same { SameTable self.old self.new × SameLinks self.old self.new }
        ensures sizes { ∥ HasSizes self.new ∥₁ }
        ensures says { L.state links.new ≡ L.state links.old }
    {
        for _ in 0..self.most_left()? {
            if self.tick(links, seat)?.is_last(kind) {
                return Ok(());
            }
        }
        Ok(())
    }

    /// A tick of each client and then of each reader, and whether one of them moved.
    fn round<L: Linker<O = O, I = I, P = P>>(&mut self, links: &mut L) -> Result<bool, NoMemory>
        requires rest { FirstRests self.old }
        requires enough { self.old.short ≡ false }
        ensures moved { result ≡ Ok true → HasMoved self.old self.new × LeavesFewer self.old self.new }
        ensures still { result ≡ Ok false → Still self.old self.new × (self.new.short ≡ false) }
        ensures rest { OnOk result (FirstRests self.new) }
        ensures same { SameTable self.old self.new × SameLinks self.old self.new }
        ensures says { L.state links.new ≡ L.state links.old }
    {
        let mut moved = false;
        for seat in 1..self.clients() {
            if self.advance(links, seat)?.is_moved() {
                moved = true;
            }
        }
        for link in 0..self.links() {
            if self.advance(links, READERS + link)?.is_moved() {
                moved = true;
            }
        }
        Ok(moved)
    }

    /// Such rounds, up to one in which nothing moved.
    fn play_on<L: Linker<O = O, I = I, P = P>>(&mut self, links: &mut L) -> Result<(), NoMemory>
        requires rest { FirstRests self.old }
        ensures ok { OnOk result (PlayedOn self.old self.new × (self.new.short ≡ false)) }
        ensures rest { OnOk result (FirstRests self.new) }
        ensures same { SameTable self.old self.new × SameLinks self.old self.new }
        ensures says { L.state links.new ≡ L.state links.old }
    {
        for _ in 0..self.most_left()? {
            if !self.round(links)? {
                return Ok(());
            }
        }
        Ok(())
    }

    /// Steps of seat 0, until it has none left. They take no memory.
    fn run_first(&mut self)
        requires plain { IsPlain self.old }
        requires enough { self.old.short ≡ false }
        ensures ran { RanFirst self.old self.new }
        ensures rest { FirstRests self.new }
        ensures enough { self.new.short ≡ false }
    {
        let Ok(most) = self.most_left() else {
            return;
        };
        for _ in 0..most {
            if !self.advance_first().is_moved() {
                return;
            }
        }
    }

    /// Plays the script to its end: rounds of one tick for each client and then for each reader, up to one in which nothing
    /// moved; then the ending by seat 0, which goes over each `open`; and such rounds again, in which a reader finds that what
    /// isn't there won't come. It always returns.
    pub fn settle<L: Linker<O = O, I = I, P = P>>(&mut self, links: &mut L) -> Result<(), NoMemory>
        requires rest { FirstRests self.old }
        ensures settled { OnOk result (Settled self.old self.new) }
        ensures plan { (self.new.plan ≡ self.old.plan) × (self.new.ids.plan ≡ self.old.ids.plan) }
        ensures ends { SameLinks self.old self.new }
        ensures says { L.state links.new ≡ L.state links.old }
    {
        self.play_on(links)?;
        self.begin_ending();
        self.run_first();
        self.tell_ending();
        self.play_on(links)
    }
}

impl<O: Out, I: In, P: Peer> Machine<O, I, P> {
    /// The machine of a script, behind its setup, over the links that were opened for it: one for each `open`, in order, of
    /// which none is finished or was closed by its other end, and none took or gave anything. All memory that the setup
    /// wants is taken before any link is touched, so where it runs out they are given back as they were.
    pub fn new(
        alloc: Global,
        script: &Script,
        ends: Vec<Ends<O, I, P>>,
    ) -> Result<Self, NotMade<O, I, P>>
        requires script { (bytes : List ℕ) × (script_of bytes ≡ Ok script.now) }
        requires links { length ends.items ≡ length (link_names script.now) }
        requires unused { AreUnused (λ (e : _). O.state e.out) (λ (e : _). I.state e.inn) ends.items }
        ensures made { IfOk result (IsMade script.now) }
        ensures over { IfOk result (TellsLinks (λ (e : _). O.state e.out) (λ (e : _). I.state e.inn) ends.items) }
        ensures back { IfErr result (λ e. e.ends ≡ ends) }
    {
        let Ok(prepared) = Prepared::of(alloc, script) else {
            return Err(NotMade { ends });
        };
        Machine::of(alloc, prepared, ends)
    }

    /// The same of a script that was prepared, of which no line is needed any more.
    pub fn of(
        alloc: Global,
        script: Prepared,
        ends: Vec<Ends<O, I, P>>,
    ) -> Result<Self, NotMade<O, I, P>>
        requires script { (bytes : List ℕ) × (script_of bytes ≡ Ok script) }
        requires links { length ends.items ≡ length (link_names script) }
        requires unused { AreUnused (λ (e : _). O.state e.out) (λ (e : _). I.state e.inn) ends.items }
        ensures made { IfOk result (IsMade script) }
        ensures over { IfOk result (TellsLinks (λ (e : _). O.state e.out) (λ (e : _). I.state e.inn) ends.items) }
        ensures back { IfErr result (λ e. e.ends ≡ ends) }
    {
        let mut machine = Machine::start(alloc, script.into_wanted(), ends)?;
        machine.run_first();
        Ok(machine)
    }

    /// The machine of what a script wants, of which each client stands before its first step. Client 0 is the setup, which
    /// opens sockets alone, and the ending goes over the `open`s. There is one link for each, which took and gave nothing.
    fn start(
        alloc: Global,
        wanted: Wanted,
        ends: Vec<Ends<O, I, P>>,
    ) -> Result<Self, NotMade<O, I, P>>
        requires for_ { AreFor wanted.plan wanted.id_plan (map (λ (tasks : _). tasks.items) wanted.clients.items) wanted.calls.items wanted.opens.items }
        requires seats { vec_len wanted.clients ≡ wanted.plan.seats }
        requires links { (vec_len ends ≡ wanted.plan.links) × (length wanted.opens.items ≡ wanted.plan.links) }
        requires unused { AreUnused (λ (e : _). O.state e.out) (λ (e : _). I.state e.inn) ends.items }
        ensures core { IfOk result (λ m. core_with m (λ k. []) (λ k. []) ≡ beginning wanted.plan wanted.id_plan (all_programs (programs (sizes_of wanted.plan wanted.id_plan) (map (λ (tasks : _). tasks.items) wanted.clients.items)) (readers_from wanted.calls.items 0 wanted.opens.items))) }
        ensures agrees { IfOk result (λ m. Agrees m.links (λ k. []) × AgreesGave m.links (λ k. [])) }
        ensures plain { IfOk result IsPlain }
        ensures plan { IfOk result (λ m. (m.plan ≡ wanted.plan) × (m.ids.plan ≡ wanted.id_plan)) }
        ensures opens { IfOk result (λ m. (m.opens ≡ wanted.opens.items) × (m.calls ≡ wanted.calls.items)) }
        ensures over { IfOk result (TellsLinks (λ (e : _). O.state e.out) (λ (e : _). I.state e.inn) ends.items) }
        ensures err { IfErr result (λ e. e.ends ≡ ends) }
    {
        let Wanted {
            plan,
            id_plan,
            clients,
            calls,
            opens,
        } = wanted;
        let Ok(parts) = parts_of(alloc, &plan, &id_plan, clients, &opens) else {
            return Err(NotMade { ends });
        };
        let table = Table {
            plan,
            words: parts.words,
            letters: parts.letters,
            ends,
            holders: parts.holders,
            nexts: parts.nexts,
            ids: parts.ids,
            id_slots: id_plan.slots,
            calls,
            ending: false,
            outcomes: parts.outcomes,
            alloc,
            pool: BlockPool::new(alloc),
            room: parts.room,
        };
        Ok(Machine {
            tables: Tables {
                table,
                seats: parts.seats,
                readers: parts.readers,
                opens,
                short: false,
            },
            places: parts.places,
        })
    }

    /// Takes the machine apart: the outcomes so far, the place words, and the links.
    pub fn finish(self) -> Finished<O, I, P>
        ensures outcomes { result.outcomes.items ≡ self.outcomes }
        ensures places { result.places.items ≡ place_words self.plan self.words }
        ensures ends { map (λ (e : _). end_of (O.state e.out) (I.state e.inn)) result.ends.items ≡ self.ends }
        ensures took { map (λ (o : OutState). o.took) self.links.outs ≡ map (λ (e : LinkEnd). e.took) self.ends }
        ensures gave_count { map (λ (i : InState). i.gave) self.links.inns ≡ map (λ (e : LinkEnd). e.gave_count) self.ends }
        ensures gave { map (λ (i : InState). i.gave_bytes) self.links.inns ≡ map (λ (e : LinkEnd). e.gave) self.ends }
        ensures letters { length self.letters ≡ self.plan.requests }
    {
        let Machine { tables, mut places } = self;
        let Table {
            plan,
            words,
            ends,
            outcomes,
            ..
        } = tables.table;
        gather_places(&mut places, &plan, &words);
        Finished {
            outcomes,
            places,
            ends,
        }
    }
}
