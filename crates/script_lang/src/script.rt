ghost use Rattle.std.specs.Prelude.{◌≡◌, ℕ, List, Ok, map, IfOk};
ghost use Rattle.brpc_model.specs.LinePlaceFaults as model;
ghost use Rattle.brpc_model.specs.Script.{script_of};
ghost use Rattle.brpc_model.specs.Limits.{KeepsLimits};
ghost use Rattle.script_items.specs.LineMeaning.{item};
ghost use Rattle.script_lang.specs.CountedLines.{counts_of};
ghost use Rattle.script_lang.specs.OperationNumbers.{numbers_of};
ghost use Rattle.seat_programs.specs.Tasks.{calls, id_plan_of, opens, plan_of};

use crate::counts::Counts;
use crate::names::NameList;
use crate::numbering::Numbering;
use corr_core::Plan as IdPlan;
use script_items::{DEFAULT_FIRST, DEFAULT_REQUESTS, DEFAULT_SLOTS, Line};
use sock_words::Plan;
use std::alloc::{AllocError, Global};
use std::marker::Model;

/// The seat of the reader of the first link: those before it are the clients'.
const READERS: u16 = 32;

/// The lines of a script that say something, in their order, with what was found of them as they
/// were read: their names, how many there are of each sort, and which number each operation has.
/// Contracts see the list of what the lines say.
#[derive(Drop)]
pub struct Script {
    lines: Vec<Line>,
    /// In the order of first mention.
    names: NameList,
    counts: Counts,
    numbering: Numbering,
}

impl Model for Script {
    ghost use Rattle.std.specs.Prelude.{◌≡◌, List, map};
    ghost use Rattle.brpc_model.specs.Items.{Item};
    ghost use Rattle.brpc_model.specs.LinePlaceFaults as model;
    ghost use Rattle.script_items.specs.LineMeaning.{item};
    ghost use Rattle.script_lang.specs.CountedLines.{counts_of};
    ghost use Rattle.script_lang.specs.OperationNumbers.{numbers_of};

    ghost Value = { List Item };

    ghost view = { λ s. map item s.lines.items };

    ghost invariant = { λ s. (s.names ≡ model.names (map item s.lines.items)) × (s.counts ≡ counts_of (map item s.lines.items)) × (s.numbering ≡ numbers_of (map item s.lines.items)) };
}

/// What is found of lines that were made otherwise, as their reader finds it.
fn found_of(alloc: Global, lines: &[Line]) -> Result<(NameList, Counts, Numbering), AllocError>
    requires { (bytes : List ℕ) × (script_of bytes ≡ Ok (map item lines.now)) }
    ensures { IfOk result (λ found. (found.0 ≡ model.names (map item lines.now)) × (found.1 ≡ counts_of (map item lines.now)) × (found.2 ≡ numbers_of (map item lines.now))) }
{
    let mut names = NameList::new(alloc);
    let mut counts = Counts::new();
    let mut numbering = Numbering::new(alloc);
    for line in lines {
        names.add_mentioned(line)?;
        numbering.add(line, counts.operations as u16)?;
        counts = counts.with(line);
    }
    Ok((names, counts, numbering))
}

impl Script {
    /// The script of these lines, of which this was found.
    pub(crate) fn new(
        lines: Vec<Line>,
        names: NameList,
        counts: Counts,
        numbering: Numbering,
    ) -> Self
        requires names { names ≡ model.names (map item lines.items) }
        requires counts { counts ≡ counts_of (map item lines.items) }
        requires numbering { numbering ≡ numbers_of (map item lines.items) }
        ensures { result ≡ map item lines.items }
    {
        Script {
            lines,
            names,
            counts,
            numbering,
        }
    }

    /// The script of lines that were made otherwise, and are what is read of some bytes. The
    /// memory is for their names and numbers.
    pub fn of(alloc: Global, lines: Vec<Line>) -> Result<Self, AllocError>
        requires { (bytes : List ℕ) × (script_of bytes ≡ Ok (map item lines.items)) }
        ensures { IfOk result (λ script. script ≡ map item lines.items) }
    {
        match found_of(alloc, &lines) {
            Ok((names, counts, numbering)) => Ok(Script::new(lines, names, counts, numbering)),
            Err(fault) => {
                drop(lines);
                Err(fault)
            }
        }
    }

    /// Its lines.
    pub fn lines(&self) -> &[Line]
        ensures { map item result.now ≡ self.now }
    {
        self.lines.as_slice()
    }

    /// Its lines, as a vector.
    pub fn into_lines(self) -> Vec<Line>
        ensures { map item result.items ≡ self }
    {
        self.lines
    }

    /// Its names, in the order of first mention, by which they are numbered.
    pub fn names(&self) -> &NameList
        ensures { result.now ≡ model.names self.now }
    {
        &self.names
    }

    /// Which number each of its operations has.
    pub(crate) fn numbering(&self) -> &Numbering
        ensures { result.now ≡ numbers_of self.now }
    {
        &self.numbering
    }

    /// The numbers of the `open` operations, in the order of their links.
    pub fn opens(&self) -> &[u16]
        ensures { result.now ≡ opens self.now }
    {
        self.numbering.opens()
    }

    /// The numbers of the `call` operations, in their order.
    pub fn calls(&self) -> &[u16]
        ensures { result.now ≡ calls self.now }
    {
        self.numbering.calls()
    }

    /// The sizes of its table: what its lines give or count, and a seat for each client and one
    /// for the setup.
    pub fn plan(&self) -> Plan
        requires { KeepsLimits self.now }
        ensures { result ≡ plan_of self.now }
    {
        Plan {
            slots: self.counts.slots.unwrap_or(DEFAULT_SLOTS) as u16,
            links: self.counts.links as u16,
            requests: self.counts.requests.unwrap_or(DEFAULT_REQUESTS) as u16,
            names: self.names.len() as u16,
            operations: self.counts.operations as u16,
            seats: self.counts.clients as u16 + 1,
            first: self.counts.first.unwrap_or(DEFAULT_FIRST),
        }
    }

    /// The sizes of its table of call ids: a slot for each call, and a seat for each client and
    /// for the reader of each link.
    pub fn id_plan(&self) -> IdPlan
        requires { KeepsLimits self.now }
        ensures { result ≡ id_plan_of self.now }
    {
        IdPlan {
            slots: self.counts.calls as u16,
            operations: self.counts.operations as u16,
            seats: READERS + self.counts.links as u16,
        }
    }
}
