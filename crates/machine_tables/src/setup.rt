ghost use Rattle.std.specs.Prelude.{◌≡◌, ◌*◌, ◌≤◌, ℕ, List, [], None, IfOk, OnOk, ◌++◌, length, map, replicate, vec_len, vec_capacity};
ghost use Rattle.seat_programs.specs.ScriptSetupToEnding.{free_slot, free_slots, opening_words, programs};
ghost use Rattle.client_seats.specs.ClientSeatState.{seat_data};
ghost use Rattle.machine_model.specs.LetterHomes.{letters_in};
ghost use Rattle.machine_model.specs.MachineParts.{AreBegun, AreReading, AreParts, said_first};

use call_slots::{CallSlots, push_zeros};
use client_seats::Seat;
use corr_core::Plan as IdPlan;
use machine_model::HomeMessage;
use reader_seats::ReaderSeat;
use seat_programs::{Sizes, Task};
use sock_message::NoMemory;
use sock_model::{name_index, place_count, word_count};
use sock_words::{Outcome, PlaceWord, Plan, Vref};
use std::alloc::{AllocError, Global};
use std::collections::VecDeque;

/// Appends the words of a slot that is free at this version.
fn push_slot(words: &mut Vec<u64>, first: u32) -> Result<(), AllocError>
    ensures { OnOk result (words.new.items ≡ words.old.items ++ free_slot first) }
{
    words.extend_from_slice(&[0, Vref::pack(first, 0).0, 0, 0, 0, 0])
}

/// Appends so many slots that are free at this version.
fn push_slots(words: &mut Vec<u64>, slots: u16, first: u32) -> Result<(), AllocError>
    ensures { OnOk result (words.new.items ≡ words.old.items ++ free_slots first slots) }
{
    for _ in 0..slots {
        push_slot(words, first)?;
    }
    Ok(())
}

/// The words of a table before its first step.
fn opening_words(alloc: Global, plan: &Plan) -> Result<Vec<u64>, AllocError>
    ensures { IfOk result (λ words. words.items ≡ opening_words plan.now) }
{
    let count = word_count(plan);
    let mut words = Vec::with_capacity(alloc, count)?;
    push_slots(&mut words, plan.slots, plan.first)?;
    push_zeros(&mut words, count - name_index(plan, 0))?;
    Ok(words)
}

/// So many places at each of which nothing is.
fn empty_places<T: Drop>(alloc: Global, count: u16) -> Result<Vec<Option<T>>, AllocError>
    ensures { IfOk result (λ places. places.items ≡ replicate count None) }
{
    let mut places = Vec::with_capacity(alloc, usize::from(count))?;
    for _ in 0..count {
        places.push(None)?;
    }
    Ok(places)
}

/// Of each of so many links no message has a place.
fn no_nexts(alloc: Global, links: u16) -> Result<Vec<u32>, AllocError>
    ensures { IfOk result (λ nexts. nexts.items ≡ replicate links 0) }
{
    let mut nexts = Vec::new(alloc);
    for _ in 0..links {
        nexts.push(0)?;
    }
    Ok(nexts)
}

/// The seats of these clients, each before its first step. Outcomes that need no step are told.
fn seats_of(
    alloc: Global,
    sizes: Sizes,
    clients: Vec<VecDeque<Task>>,
    outcomes: &mut [Option<Outcome>],
) -> Result<Vec<Seat>, AllocError>
    ensures seats { IfOk result (λ seats. AreBegun sizes (map seat_data seats.items) (map (λ (tasks : _). tasks.items) clients.items)) }
    ensures told { OnOk result (outcomes.new ≡ said_first outcomes.old (programs sizes (map (λ (tasks : _). tasks.items) clients.items))) }
{
    let mut seats = Vec::new(alloc);
    for tasks in clients {
        let mut seat = Seat::new(alloc, tasks);
        seat.go_on(sizes, outcomes);
        seats.push(seat)?;
    }
    Ok(seats)
}

/// The readers of the links of these `open`s, in order, each before its first step.
fn readers_of(alloc: Global, opens: &VecDeque<u16>) -> Result<Vec<ReaderSeat>, AllocError>
    requires { length opens.now.items ≤ 65535 }
    ensures { IfOk result (λ readers. (calls : List ℕ) → AreReading calls opens.now.items readers.items) }
{
    let mut readers = Vec::new(alloc);
    let mut link = 0u16;
    for operation in opens {
        readers.push(ReaderSeat::new(alloc, link, *operation))?;
        link += 1;
    }
    Ok(readers)
}

/// All of a machine but its links, its calls and the `open`s of its ending, before its first step.
#[derive(Drop)]
pub struct Parts {
    pub words: Vec<u64>,
    /// The home of each request.
    pub letters: Vec<Option<Box<HomeMessage>>>,
    /// Who has each link in hand.
    pub holders: Vec<Option<u16>>,
    /// How many messages of each link have places.
    pub nexts: Vec<u32>,
    pub ids: CallSlots,
    pub seats: Vec<Seat>,
    pub readers: Vec<ReaderSeat>,
    pub outcomes: Vec<Option<Outcome>>,
    /// Room for all place words.
    pub places: Vec<PlaceWord>,
    /// Room for what a reader takes at once.
    pub room: Vec<u8>,
}

/// The parts of a machine of these clients, and of the readers of the links of these `open`s.
pub fn parts_of(
    alloc: Global,
    plan: &Plan,
    id_plan: &IdPlan,
    clients: Vec<VecDeque<Task>>,
    opens: &VecDeque<u16>,
) -> Result<Parts, NoMemory>
    requires few { length opens.now.items ≤ 65535 }
    ensures parts { IfOk result (λ parts. (calls : List ℕ) → AreParts plan.now id_plan.now (map (λ (tasks : _). tasks.items) clients.items) calls opens.now.items parts.words.items (letters_in parts.letters.items) parts.holders.items parts.nexts.items parts.ids (map seat_data parts.seats.items) parts.readers.items parts.outcomes.items) }
    ensures places { IfOk result (λ parts. parts.places.items ≡ []) }
    ensures places_room { IfOk result (λ parts. 8 * plan.now.operations ≤ vec_capacity parts.places) }
    ensures room { IfOk result (λ parts. vec_len parts.room ≡ 4096) }
{
    let words = opening_words(alloc, plan)?;
    let letters = empty_places(alloc, plan.requests)?;
    let holders = empty_places(alloc, plan.links)?;
    let nexts = no_nexts(alloc, plan.links)?;
    let ids = CallSlots::new(alloc, *id_plan)?;
    let mut outcomes = empty_places(alloc, plan.operations)?;
    let places = Vec::with_capacity(alloc, place_count(plan) as usize)?;
    let sizes = Sizes {
        slots: plan.slots,
        requests: plan.requests,
        ids: id_plan.slots,
    };
    let seats = seats_of(alloc, sizes, clients, &mut outcomes)?;
    let readers = readers_of(alloc, opens)?;
    let room = vec![in alloc; 0u8; 4096]?;
    Ok(Parts {
        words,
        letters,
        holders,
        nexts,
        ids,
        seats,
        readers,
        outcomes,
        places,
        room,
    })
}
