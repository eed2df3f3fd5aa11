// What clients open, and the names that the setup opened.
ghost use Rattle.std.specs.Prelude.{◌≡◌, ◌<◌, ◌≤◌, ◌==◌, ◌&&◌, ◌++◌, OnOk, IfOk, length, vec_capacity};
ghost use Rattle.sock_open.specs.SocketTableOpening.{IsRoom};
ghost use Rattle.call_run.specs.Threads.{opens_in, opens_of, is_opened, opened_in, opening_in, openings, name_if, opened_names};

use call_client::Told;
use seat_programs::{Op, Task};
use sock_words::Outcome;
use std::alloc::{AllocError, Global};
use std::collections::VecDeque;

/// An `open`: its number, and its name.
#[derive(Drop)]
pub struct Opening {
    pub number: u16,
    pub name: u16,
}

/// How many sockets it opens.
fn opens_in(op: &Op) -> usize
    ensures count { result ≡ opens_in op.now }
    ensures most { result ≤ 1 }
{
    match op {
        Op::Open(_, _) => 1,
        _ => 0,
    }
}

/// How many sockets they open.
pub fn opens_of(tasks: &VecDeque<Task>) -> usize
    ensures { result ≡ opens_of tasks.now.items }
{
    let mut count = 0;
    'opens: for task in tasks {
        count += opens_in(&task.op);
    }
    count
}

fn push_opening(task: &Task, found: &mut Vec<Opening>) -> Result<(), AllocError>
    ensures { OnOk result (found.new.items ≡ found.old.items ++ opening_in task.now.number task.now.op) }
{
    match &task.op {
        Op::Open(name, _) => {
            found.push(Opening {
                number: task.number,
                name: *name,
            })?;
            Ok(())
        }
        _ => Ok(()),
    }
}

/// The `open`s among these.
pub fn openings(alloc: Global, tasks: &VecDeque<Task>) -> Result<Vec<Opening>, AllocError>
    ensures { IfOk result (λ found. found.items ≡ openings tasks.now.items) }
{
    let mut found = Vec::new(alloc);
    'openings: for task in tasks {
        push_opening(task, &mut found)?;
    }
    Ok(found)
}

fn is_opened(outcome: &Outcome) -> bool
    ensures { result ≡ is_opened outcome.now }
{
    matches!(outcome, Outcome::Opened { .. })
}

/// Whether it tells that the operation of this number opened a socket.
fn tells_opened(one: &Told, number: u16) -> bool
    ensures { result ≡ ((one.now.number == number) && is_opened one.now.outcome) }
{
    one.number == number && is_opened(&one.outcome)
}

/// Whether any of them does.
fn was_opened(told: &[Told], number: u16) -> bool
    ensures { result ≡ opened_in number told.now }
{
    'tolds: for one in told {
        let opened = tells_opened(one, number);
        if opened {
            return true;
        }
    }
    false
}

/// The name of an `open` that got a socket.
fn push_name(told: &[Told], opening: &Opening, names: &mut Vec<u16>)
    requires room { length names.old.items < vec_capacity names.old }
    ensures items { names.new.items ≡ names.old.items ++ name_if told.now opening.now }
    ensures capacity { vec_capacity names.new ≡ vec_capacity names.old }
{
    let opened = was_opened(told, opening.number);
    if opened {
        names.push_reserved(opening.name);
    }
}

/// The names of the `open`s that got a socket, in their order.
pub fn opened_names(told: &[Told], openings: &[Opening], names: &mut Vec<u16>)
    requires room { IsRoom (length openings.now) names.old }
    ensures { names.new.items ≡ opened_names told.now openings.now }
{
    'names: for opening in openings {
        push_name(told, opening, names);
    }
}
