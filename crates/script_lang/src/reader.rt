ghost use Rattle.std.specs.Prelude.{◌≡◌, ◌+◌, ◌^◌, ◌<◌, ◌||◌, false, nat_lt, List, [], length, Option, OnOk};
ghost use Rattle.brpc_model.specs.Items.{Item, mentioned};
ghost use Rattle.brpc_model.specs.LinePlaceFaults.{with_names};
ghost use Rattle.brpc_model.specs.Script.{with_line, whole};
ghost use Rattle.script_items.specs.LineMeaning.{item};
ghost use Rattle.script_lang.specs.CountedLines.{IsWithinLimits, is_one_too_many};
ghost use Rattle.script_lang.specs.KnownLines.{Knows, Keeps, Notes, HasNames, FaultIs, JudgedIs, PlaceIs, LineIs, WholeIs};

use crate::counts::Counts;
use crate::error::ScriptError;
use crate::held;
use crate::names::NameList;
use crate::numbering::Numbering;
use crate::script::Script;
use crate::uses::{CallUse, first_hanging, first_lost, note_use};
use script_items::{Line, LineFault, read_line};
use std::alloc::{AllocError, Global};

/// The most names of a script.
const MAX_NAMES: usize = 64;

/// A line at a wrong place.
const MISPLACED: u8 = 8;
/// One client, link, operation, schedule line or name too many.
const TOO_MANY: u8 = 9;
/// A call that the script doesn't have.
const NO_CALL: u8 = 10;
/// A `join` in a script where a link has no server.
const MAY_HANG: u8 = 11;
/// A `drop` of what isn't held, or a second `hold`.
const UNPAIRED: u8 = 12;

/// What is kept of the lines so far. After an error the reader is of no use.
#[derive(Drop)]
pub struct Reader {
    alloc: Global,
    /// How many lines came, comments and empty ones included.
    count: u32,
    /// Those that say something.
    lines: Vec<Line>,
    counts: Counts,
    /// The names in the order of first mention.
    names: NameList,
    /// The names that the client in hand holds.
    held: NameList,
    /// Which number each operation has.
    numbering: Numbering,
    uses: Vec<CallUse>,
}

impl Reader {
    /// Before the first line.
    pub fn new(alloc: Global) -> Self
        ensures { Knows result [] }
    {
        Reader {
            alloc,
            count: 0,
            lines: Vec::new(alloc),
            counts: Counts::new(),
            names: NameList::new(alloc),
            held: NameList::new(alloc),
            numbering: Numbering::new(alloc),
            uses: Vec::new(alloc),
        }
    }

    /// One more line, without what ends it.
    pub fn read(&mut self, line: &[u8]) -> Result<(), ScriptError>
        requires count { self.old.count + 1 < 2 ^ 32 }
        requires limits { IsWithinLimits self.old.counts }
        ensures { (said : List (Option Item)) → Knows self.old said → LineIs (with_line (Ok said) line.now) result self.new }
    {
        match read_line(self.alloc, self.counts.clients, self.counts.links, line) {
            Ok(None) => {
                self.count += 1;
                Ok(())
            }
            Ok(Some(line)) => self.place(line),
            Err(LineFault::Kind(kind)) => Err(self.fault(kind)),
            Err(LineFault::NoMemory) => Err(ScriptError::NoMemory),
        }
    }

    /// A fault of this kind in the line that comes next.
    fn fault(&self, kind: u8) -> ScriptError
        requires { self.now.count + 1 < 2 ^ 32 }
        ensures { result ≡ ScriptError.Fault (self.now.count + 1) kind }
    {
        ScriptError::Fault {
            line: self.count + 1,
            kind,
        }
    }

    /// A line that says something, at its place.
    fn place(&mut self, line: Line) -> Result<(), ScriptError>
        requires count { self.old.count + 1 < 2 ^ 32 }
        requires limits { IsWithinLimits self.old.counts }
        ensures { (said : List (Option Item)) → Knows self.old said → PlaceIs said (item line) result self.new }
    {
        match self.judge(&line) {
            Ok(()) => {}
            Err(fault) => {
                drop(line);
                return Err(fault);
            }
        }
        self.keep(line)?;
        Ok(())
    }

    /// Adds the names of a line, and judges it at its place.
    fn judge(&mut self, line: &Line) -> Result<(), ScriptError>
        requires { self.old.count + 1 < 2 ^ 32 }
        ensures names { OnOk result (self.new ≡ record self.old { names = with_names self.old.names (mentioned (item line.now)) }) }
        ensures room { OnOk result (is_one_too_many self.old.counts (item line.now) ≡ false) }
        ensures judged { (said : List (Option Item)) → Knows self.old said → JudgedIs said (item line.now) result }
    {
        self.names.add_mentioned(line)?;
        match self.fault_of(line) {
            Some(kind) => Err(self.fault(kind)),
            None => Ok(()),
        }
    }

    /// The kind of the fault of a line at this place, where its names are among the names already.
    fn fault_of(&self, line: &Line) -> Option<u8>
        ensures kind { (before : List Item) → HasNames self.now before (item line.now) → FaultIs before (item line.now) result }
        ensures room { result ≡ None → is_one_too_many self.now.counts (item line.now) ≡ false }
    {
        if self.counts.is_misplaced(line) {
            Some(MISPLACED)
        } else if self.is_full(line) {
            Some(TOO_MANY)
        } else if held::is_unpaired(&self.held, line) {
            Some(UNPAIRED)
        } else {
            None
        }
    }

    /// Whether the line is one too many of its sort, or its names are.
    fn is_full(&self, line: &Line) -> bool
        ensures { result ≡ (is_one_too_many self.now.counts (item line.now) || nat_lt 64 (length self.now.names)) }
    {
        self.counts.is_one_too_many(line) || self.names.len() > MAX_NAMES
    }

    /// Keeps a line that stands where it may, and whose names are among the names already.
    fn keep(&mut self, line: Line) -> Result<(), AllocError>
        requires count { self.old.count + 1 < 2 ^ 32 }
        requires limits { IsWithinLimits self.old.counts }
        ensures { OnOk result (Keeps self.old self.new line) }
    {
        match self.note(&line) {
            Ok(()) => {}
            Err(fault) => {
                drop(line);
                return Err(fault);
            }
        }
        self.lines.push(line)?;
        Ok(())
    }

    /// Notes what a line says that stands where it may: all of `keep` but the line itself.
    fn note(&mut self, line: &Line) -> Result<(), AllocError>
        requires count { self.old.count + 1 < 2 ^ 32 }
        requires limits { IsWithinLimits self.old.counts }
        ensures { OnOk result (Notes self.old self.new (item line.now)) }
    {
        self.numbering.add(line, self.counts.operations as u16)?;
        self.counts = self.counts.with(line);
        held::add(&mut self.held, line)?;
        self.count += 1;
        note_use(&mut self.uses, line, self.count)?;
        Ok(())
    }

    /// The script that the lines are together.
    pub fn finish(self) -> Result<Script, ScriptError>
        requires { (said : List (Option Item)) × Knows self said }
        ensures { (said : List (Option Item)) → Knows self said → WholeIs (whole (Ok said)) result }
    {
        if let Some(line) = first_lost(&self.uses, &self.numbering) {
            drop(self);
            return Err(ScriptError::Fault {
                line,
                kind: NO_CALL,
            });
        }
        if let Some(line) = first_hanging(&self.uses, self.counts.unserved) {
            drop(self);
            return Err(ScriptError::Fault {
                line,
                kind: MAY_HANG,
            });
        }
        let mut lines = self.lines;
        // They are kept for a whole run.
        lines.shrink_to_fit();
        Ok(Script::new(lines, self.names, self.counts, self.numbering))
    }
}
