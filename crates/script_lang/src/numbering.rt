ghost use Rattle.std.specs.Prelude.{◌≡◌, ◌+◌, ◌-◌, ◌<◌, ◌∷◌, ◌++◌, [], true, false, unwrap_or, OnOk};
ghost use Rattle.script_items.specs.LineMeaning.{item};
ghost use Rattle.script_lang.specs.OperationNumbers.{no_numbers, numbers_behind, end_of, start_of, operation_in, has_call};

use script_items::{Line, Target};
use std::alloc::{AllocError, Global};
use std::marker::Model;

/// Which number each operation of some lines has, from 0, noted line by line: so a script is gone
/// over once, and whatever asks later for a `C.I`, for the `open`s, for the calls or for the
/// operations of a client finds them here.
#[derive(Drop)]
pub struct Numbering {
    /// How many operations there are.
    operations: u16,
    /// Of each operation whether it is a call.
    are_calls: Vec<bool>,
    /// The numbers of those that open a link.
    opens: Vec<u16>,
    /// The numbers of those that are calls.
    calls: Vec<u16>,
    /// Of each client but the setup the number of its first operation.
    begins: Vec<u16>,
}

impl Model for Numbering {
    ghost use Rattle.script_lang.specs.OperationNumbers.{Numbers};

    ghost Value = { Numbers };

    ghost view = { λ n. record { operations = n.operations; are_calls = n.are_calls.items; opens = n.opens.items; calls = n.calls.items; begins = n.begins.items } };
}

impl Numbering {
    /// Before the first line.
    pub fn new(alloc: Global) -> Self
        ensures { result ≡ no_numbers }
    {
        Numbering {
            operations: 0,
            are_calls: Vec::new(alloc),
            opens: Vec::new(alloc),
            calls: Vec::new(alloc),
            begins: Vec::new(alloc),
        }
    }

    /// One more line, which has this number if it is an operation. After an error the numbering is
    /// of no use.
    pub fn add(&mut self, line: &Line, number: u16) -> Result<(), AllocError>
        requires { number < 65535 }
        ensures { OnOk result (self.new ≡ numbers_behind self.old number (item line.now)) }
    {
        match line {
            Line::Slots(_) | Line::Requests(_) | Line::First(_) | Line::Sched => Ok(()),
            Line::Tick { .. } | Line::To { .. } => Ok(()),
            Line::Client => self.add_client(number),
            Line::Open(_) => self.add_open(number),
            Line::Call(_) => self.add_call(number),
            _ => self.add_operation(number, false),
        }
    }

    fn add_client(&mut self, number: u16) -> Result<(), AllocError>
        ensures { OnOk result (self.new ≡ record self.old { begins = self.old.begins ++ number ∷ [] }) }
    {
        self.begins.push(number)?;
        Ok(())
    }

    fn add_open(&mut self, number: u16) -> Result<(), AllocError>
        requires { number < 65535 }
        ensures { OnOk result (self.new ≡ record self.old { operations = number + 1; are_calls = self.old.are_calls ++ false ∷ []; opens = self.old.opens ++ number ∷ [] }) }
    {
        self.opens.push(number)?;
        self.add_operation(number, false)
    }

    fn add_call(&mut self, number: u16) -> Result<(), AllocError>
        requires { number < 65535 }
        ensures { OnOk result (self.new ≡ record self.old { operations = number + 1; are_calls = self.old.are_calls ++ true ∷ []; calls = self.old.calls ++ number ∷ [] }) }
    {
        self.calls.push(number)?;
        self.add_operation(number, true)
    }

    fn add_operation(&mut self, number: u16, is_call: bool) -> Result<(), AllocError>
        requires { number < 65535 }
        ensures { OnOk result (self.new ≡ record self.old { operations = number + 1; are_calls = self.old.are_calls ++ is_call ∷ [] }) }
    {
        self.are_calls.push(is_call)?;
        self.operations = number + 1;
        Ok(())
    }

    /// The numbers of the operations that open a link, in their order.
    pub fn opens(&self) -> &[u16]
        ensures { result.now ≡ self.now.opens }
    {
        self.opens.as_slice()
    }

    /// The numbers of the calls, in their order.
    pub fn calls(&self) -> &[u16]
        ensures { result.now ≡ self.now.calls }
    {
        self.calls.as_slice()
    }

    /// How many operations come before the end of a client's; the setup is 0.
    fn end_of(&self, client: usize) -> u16
        ensures { result ≡ end_of self.now client }
    {
        self.begins.get(client).copied().unwrap_or(self.operations)
    }

    /// How many operations come before those of a client.
    fn start_of(&self, client: usize) -> u16
        ensures { result ≡ start_of self.now client }
    {
        match client {
            0 => 0,
            _ => self.end_of(client - 1),
        }
    }

    /// How many operations a client has, the setup for 0.
    pub fn count_of(&self, client: usize) -> u16
        ensures { result ≡ end_of self.now client - start_of self.now client }
    {
        self.end_of(client).saturating_sub(self.start_of(client))
    }

    /// The number of the operation `C.I`, if there is one.
    fn find(&self, target: &Target) -> Option<u16>
        ensures { result ≡ operation_in self.now target.now.client target.now.number }
    {
        let client = target.client as usize;
        let start = self.start_of(client);
        let count = self.end_of(client).saturating_sub(start);
        if target.number == 0 || target.number > u64::from(count) {
            return None;
        }
        Some(start + (target.number - 1) as u16)
    }

    /// The number of the operation `C.I`; 0 where there is none.
    pub fn number_of(&self, target: &Target) -> u16
        ensures { result ≡ unwrap_or (operation_in self.now target.now.client target.now.number) 0 }
    {
        self.find(target).unwrap_or(0)
    }

    /// Whether the operation `C.I` is there and is a call.
    pub fn is_call(&self, target: Target) -> bool
        ensures { result ≡ has_call self.now target.client target.number }
    {
        match self.find(&target) {
            Some(number) => self
                .are_calls
                .get(usize::from(number))
                .copied()
                .unwrap_or(false),
            None => false,
        }
    }
}
