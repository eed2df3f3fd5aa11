ghost use Rattle.std.specs.Prelude.{◌≡◌, ◌≤◌, not, [], ◌∷◌, filter, length, map, bytes_eq, IfOk, OnOk, OnErr};
ghost use Rattle.std.specs.List.{list_any};
ghost use Rattle.brpc_model.specs.Items.{mentioned};
ghost use Rattle.brpc_model.specs.LinePlaceFaults.{with_names};
ghost use Rattle.script_items.specs.LineMeaning.{item};
ghost use Rattle.seat_programs.specs.Tasks.{name_number};

use script_items::{Line, Name, Names};
use std::alloc::{AllocError, Global};
use std::marker::Model;

/// Some names, in the order in which they were added. Contracts see the list of them.
#[derive(Drop)]
pub struct NameList {
    alloc: Global,
    names: Vec<Name>,
}

impl Model for NameList {
    ghost use Rattle.std.specs.Prelude.{ℕ, List};

    ghost Value = { List (List ℕ) };

    ghost view = { λ l. l.names.items };
}

impl NameList {
    /// No names.
    pub fn new(alloc: Global) -> Self
        ensures { result ≡ [] }
    {
        NameList {
            alloc,
            names: Vec::new(alloc),
        }
    }

    /// How many names there are.
    pub fn len(&self) -> usize
        ensures { result ≡ length self.now }
    {
        self.names.len()
    }

    /// Whether the name is among them.
    pub fn contains(&self, name: &Name) -> bool
        ensures { result ≡ list_any (bytes_eq name.now) self.now }
    {
        self.names
            .iter()
            .any(|known| name.as_slice() == known.as_slice())
    }

    /// The number of a name, by its place among them, from 0; how many there are where it isn't
    /// among them.
    pub fn number_of(&self, name: &Name) -> u16
        requires { length self.now ≤ 64 }
        ensures { result ≡ name_number self.now name.now }
    {
        let names = self.names.as_slice();
        let mut number = 0u16;
        for known in names {
            if known.as_slice() == name.as_slice() {
                return number;
            }
            number += 1;
        }
        number
    }

    /// The numbers of the one or two names of a call.
    pub fn numbers_of(&self, names: &Names) -> Result<Vec<u16>, AllocError>
        requires { length self.now ≤ 64 }
        ensures { IfOk result (λ numbers. numbers.items ≡ map (name_number self.now) names.now) }
    {
        let (first, second) = names.parts();
        let mut numbers = Vec::new(self.alloc);
        numbers.push(self.number_of(first))?;
        if let Some(second) = second {
            numbers.push(self.number_of(second))?;
        }
        Ok(numbers)
    }

    /// Adds a copy of the name, where it isn't among them yet.
    pub fn add(&mut self, name: &Name) -> Result<(), AllocError>
        ensures ok { OnOk result (self.new ≡ with_names self.old (name.now ∷ [])) }
        ensures err { OnErr result (self.new ≡ self.old) }
    {
        if !self.contains(name) {
            let text = Vec::from_slice(self.alloc, name.as_slice())?;
            self.names.push(Name::new(text))?;
        }
        Ok(())
    }

    /// Takes the name out, wherever it stands.
    pub fn remove(&mut self, name: &Name)
        ensures { self.new ≡ filter (λ n. not (bytes_eq name.now n)) self.old }
    {
        self.names
            .retain(|known| name.as_slice() != known.as_slice());
    }

    /// Takes all names out.
    pub fn clear(&mut self)
        ensures { self.new ≡ [] }
    {
        self.names.clear();
    }

    /// Adds the names that a line mentions, in their order, each where it isn't there yet.
    pub fn add_mentioned(&mut self, line: &Line) -> Result<(), AllocError>
        ensures { OnOk result (self.new ≡ with_names self.old (mentioned (item line.now))) }
    {
        match line {
            Line::Open(open) => self.add(&open.name),
            Line::Send(send) => self.add(&send.name),
            Line::Call(call) => self.add_both(&call.names),
            Line::Fail { name, .. } => self.add(name),
            Line::Hold(name) | Line::Drop(name) => self.add(name),
            _ => Ok(()),
        }
    }

    /// Adds the one or two names of a call.
    fn add_both(&mut self, names: &Names) -> Result<(), AllocError>
        ensures { OnOk result (self.new ≡ with_names self.old names.now) }
    {
        let (first, second) = names.parts();
        self.add(first)?;
        match second {
            Some(second) => self.add(second),
            None => Ok(()),
        }
    }
}
