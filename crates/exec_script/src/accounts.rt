ghost use Rattle.std.specs.Prelude.{◌≡◌, ◌≤◌, slice_index, IfOk};
ghost use Rattle.exec_script.specs.Scripts.{IsChange};
ghost use Rattle.exec_script.specs.Accounting.{told_of_more, told_of, more_on, balances_behind, where_fine, new_book, told_at, book_behind};

use crate::op::Change;
use crate::told::Told;
use std::alloc::{AllocError, Global};
use std::marker::Model;

/// Adds an amount to an account, where that may hold it.
fn add(balances: &mut [u64; 16], account: u8, amount: u64) -> Told
    requires { account ≤ 15 }
    ensures told { result ≡ told_of balances.old (Change.Add account amount) }
    ensures balances { balances.new ≡ balances_behind balances.old (Change.Add account amount) }
{
    let at = usize::from(account);
    let have = balances[at];
    match have.checked_add(amount) {
        Some(sum) => {
            balances[at] = sum;
            Told::Fine
        }
        None => Told::High { have },
    }
}

/// Takes an amount off an account that has enough.
fn sub(balances: &mut [u64; 16], account: u8, amount: u64) -> Told
    requires { account ≤ 15 }
    ensures told { result ≡ told_of balances.old (Change.Sub account amount) }
    ensures balances { balances.new ≡ balances_behind balances.old (Change.Sub account amount) }
{
    let at = usize::from(account);
    let have = balances[at];
    if have < amount {
        return Told::Low { have };
    }
    balances[at] = have - amount;
    Told::Fine
}

/// Moves an amount from one account that has enough to another that may hold it. Within one account nothing changes.
fn shift(balances: &mut [u64; 16], from: u8, to: u8, amount: u64) -> Told
    requires from { from ≤ 15 }
    requires to { to ≤ 15 }
    ensures told { result ≡ told_of balances.old (Change.Move from to amount) }
    ensures balances { balances.new ≡ balances_behind balances.old (Change.Move from to amount) }
{
    let giver = usize::from(from);
    let taker = usize::from(to);
    let have = balances[giver];
    if have < amount {
        return Told::Low { have };
    }
    let other = balances[taker];
    if from != to && u64::MAX - other < amount {
        return Told::High { have: other };
    }
    balances[giver] = have - amount;
    balances[taker] += amount;
    Told::Fine
}

/// Sixteen accounts that begin at 0, and what was told of the tasks that ran on them.
#[derive(Drop)]
pub struct Accounts {
    balances: [u64; 16],
    /// By lines.
    told: Vec<Option<Told>>,
}

impl Model for Accounts {
    ghost use Rattle.exec_script.specs.Accounting.{Book};

    ghost Value = { Book };

    ghost view = { λ a. record { balances = a.balances; told = a.told.items } };
}

impl Accounts {
    /// Before the first task of a script of so many lines.
    pub fn new(alloc: Global, lines: usize) -> Result<Accounts, AllocError>
        ensures { IfOk result (λ accounts. accounts ≡ new_book lines) }
    {
        let told = vec![in alloc; None; lines]?;
        Ok(Accounts {
            balances: [0; 16],
            told,
        })
    }

    /// Runs the task of a line. It takes no memory.
    pub fn run(&mut self, line: u32, change: Change)
        requires { IsChange change }
        ensures { self.new ≡ book_behind self.old (record { line = line; change = change }) }
    {
        let told = self.change(change);
        let line = line as usize;
        if line > 0 && line <= self.told.len() {
            self.told[line - 1] = Some(told);
        }
    }

    /// Changes the balances, and tells of it.
    fn change(&mut self, change: Change) -> Told
        requires { IsChange change }
        ensures told { result ≡ told_of self.old.balances change }
        ensures balances { self.new ≡ record self.old { balances = balances_behind self.old.balances change } }
    {
        match change {
            Change::Add { account, amount } => add(&mut self.balances, account, amount),
            Change::Sub { account, amount } => sub(&mut self.balances, account, amount),
            Change::Move { from, to, amount } => shift(&mut self.balances, from, to, amount),
        }
    }

    /// What each account has.
    pub fn balances(&self) -> &[u64]
        ensures { result.now ≡ self.now.balances }
    {
        &self.balances
    }

    /// What was told of the task of each line, if it ran.
    pub fn told(&self) -> &[Option<Told>]
        ensures { result.now ≡ self.now.told }
    {
        &self.told
    }
}
