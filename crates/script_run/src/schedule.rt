ghost use Rattle.std.specs.Prelude.{◌≡◌, ◌∷◌, [], ℕ, List, Ok, false, min, OnOk, map, replicate};
ghost use Rattle.brpc_model.specs.Script.{script_of};
ghost use Rattle.seat_programs.specs.Ticks.{seats_of};
ghost use Rattle.seat_programs.specs.ScheduledRuns.{Scheduled};
ghost use Rattle.brpc_model.specs.Operations.{seat_number, turn_of, schedule};
ghost use Rattle.script_items.specs.LineMeaning.{seat_of};
ghost use Rattle.sock_core.specs.MachineBeginning.{IsMade};
ghost use Rattle.machine_model.specs.MachineLinks.{AreAlwaysReady};
ghost use Rattle.machine_model.specs.MachineRuns.{SameLinks};
ghost use Rattle.script_run.specs.Outlines.{meant};
ghost use Rattle.script_run.specs.Played.{IsPlayable, HasPlayed, HasRun, HasTurns, turns_of};

use crate::mark::Mark;
use crate::outline::Outline;
use script_draw::DrawnSeats;
use script_items::Seat;
use sock_core::{Machine, Tick};
use sock_io::{Linker, NoMemory};

/// By which schedule a script is run.
#[derive(Clone, Copy, Debug, PartialEq, Eq)]
pub enum Schedule {
    /// Its own lines.
    Own,
    /// One tick each of the seats that are drawn from this seed.
    Drawn(u64),
}

/// The number of a seat: that of a client, and 32 + k for the reader of link k. There are fewer seats than 65,535.
fn seat_number(seat: Seat) -> u16
    ensures { result ≡ min (seat_number (seat_of seat)) 65535 }
{
    match seat {
        Seat::Client(client) => client,
        Seat::Reader(link) => 32u16.saturating_add(link),
    }
}

/// A tick of a seat, and whether it had a step left: where it hadn't, more ticks would change nothing.
fn tick_seat<L: Linker>(
    machine: &mut Machine<L::O, L::I, L::P>,
    links: &mut L,
    seat: u16,
) -> Result<bool, NoMemory>
    requires playable { IsPlayable machine.old }
    ensures ticked { OnOk result (HasPlayed (λ c moments. seats_of moments ≡ seat ∷ []) machine.old machine.new) }
    ensures idle { result ≡ Ok false → (n : ℕ) → HasPlayed (λ c moments. seats_of moments ≡ replicate n seat) machine.old machine.new }
    ensures playable { OnOk result (IsPlayable machine.new) }
    ensures ends { SameLinks machine.old machine.new }
    ensures says { L.state links.new ≡ L.state links.old }
{
    match machine.tick(links, seat)? {
        Tick::Moved(_) | Tick::Waits(_) => Ok(true),
        Tick::Idle => Ok(false),
    }
}

/// So many ticks of a seat. Where it has no step left, the rest of them would change nothing.
fn play_ticks<L: Linker>(
    machine: &mut Machine<L::O, L::I, L::P>,
    links: &mut L,
    seat: u16,
    ticks: u32,
) -> Result<(), NoMemory>
    requires playable { IsPlayable machine.old }
    ensures played { OnOk result (HasPlayed (λ c moments. seats_of moments ≡ replicate ticks seat) machine.old machine.new) }
    ensures playable { OnOk result (IsPlayable machine.new) }
    ensures ends { SameLinks machine.old machine.new }
    ensures says { L.state links.new ≡ L.state links.old }
{
    for _ in 0..ticks {
        if !tick_seat(machine, links, seat)? {
            return Ok(());
        }
    }
    Ok(())
}

/// Plays a line by its mark, where it is one of the schedule.
fn play_mark<L: Linker>(
    machine: &mut Machine<L::O, L::I, L::P>,
    links: &mut L,
    mark: &Mark,
) -> Result<(), NoMemory>
    requires playable { IsPlayable machine.old }
    ensures played { OnOk result (HasPlayed (HasTurns machine.old.plan (turn_of (meant mark.now))) machine.old machine.new) }
    ensures playable { OnOk result (IsPlayable machine.new) }
    ensures ends { SameLinks machine.old machine.new }
    ensures says { L.state links.new ≡ L.state links.old }
{
    match mark {
        Mark::Tick { seat, ticks } => play_ticks(machine, links, seat_number(*seat), *ticks),
        Mark::To { seat, kind } => machine.tick_until(links, seat_number(*seat), *kind),
        _ => Ok(()),
    }
}

/// Plays the lines of the schedule, in order.
fn play_marks<L: Linker>(
    machine: &mut Machine<L::O, L::I, L::P>,
    links: &mut L,
    marks: &[Mark],
) -> Result<(), NoMemory>
    requires playable { IsPlayable machine.old }
    ensures played { OnOk result (HasPlayed (λ c. Scheduled machine.old.plan c (schedule (map meant marks.now))) machine.old machine.new) }
    ensures playable { OnOk result (IsPlayable machine.new) }
    ensures ends { SameLinks machine.old machine.new }
    ensures says { L.state links.new ≡ L.state links.old }
{
    for mark in marks {
        play_mark(machine, links, mark)?;
    }
    Ok(())
}

/// Plays a schedule of a script, and then settles it.
pub fn play<L: Linker>(
    machine: &mut Machine<L::O, L::I, L::P>,
    links: &mut L,
    script: &Outline,
    schedule: Schedule,
) -> Result<(), NoMemory>
    requires script { (bytes : List ℕ) × (script_of bytes ≡ Ok script.now) }
    requires made { IsMade script.now machine.old }
    ensures run { OnOk result (AreAlwaysReady machine.old.links → HasRun script.now (turns_of script.now schedule) machine.old machine.new) }
    ensures plan { OnOk result ((machine.new.plan ≡ machine.old.plan) × (machine.new.ids.plan ≡ machine.old.ids.plan)) }
    ensures ends { SameLinks machine.old machine.new }
    ensures says { L.state links.new ≡ L.state links.old }
{
    match schedule {
        Schedule::Own => play_marks(machine, links, script.marks())?,
        Schedule::Drawn(seed) => {
            let plan = script.plan();
            let mut seats = DrawnSeats::new(plan.seats - 1, plan.links, seed);
            for _ in 0..seats.count(plan.operations) {
                let seat = seats.next_seat();
                tick_seat(machine, links, seat)?;
            }
        }
    }
    machine.settle(links)
}
