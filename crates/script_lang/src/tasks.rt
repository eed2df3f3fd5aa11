ghost use Rattle.std.specs.Prelude.{◌≡◌, ◌≤◌, ◌++◌, [], List, length, map, IfOk, OnOk};
ghost use Rattle.std.specs.List.{AllByRecursion};
ghost use Rattle.brpc_model.specs.LinePlaceFaults as model;
ghost use Rattle.script_items.specs.LineMeaning.{item, call_of};
ghost use Rattle.seat_programs.specs.Tasks.{Numbered, asked_of, op_of};
ghost use Rattle.seat_programs.specs.ScriptSetupToEnding.{all_tasks};
ghost use Rattle.sock_message.specs.InsideMessages.{KeepsLimits as IsWithinLimits};
ghost use Rattle.brpc_model.specs.Limits.{KeepsLimits};
ghost use Rattle.script_lang.specs.OperationNumbers.{numbers_of};
ghost use Rattle.script_lang.specs.TasksByLine.{AreNumbersOf, IsShort, numbered_as, task_at};

use crate::names::NameList;
use crate::numbering::Numbering;
use crate::script::Script;
use script_items::{CallLine, Line, is_client, is_open, is_operation};
use seat_programs::{Op, Task};
use sock_message::{BlockPool, Call, Message, NoMemory};
use std::alloc::{AllocError, Global};
use std::collections::VecDeque;

/// A call of a script, by numbers. The memory is for its bytes.
fn call_in(
    alloc: Global,
    pool: &mut BlockPool,
    names: &NameList,
    number: u16,
    call: &CallLine,
) -> Result<Call, NoMemory>
    requires names { length names.now ≤ 64 }
    requires limits { IsWithinLimits (asked_of names.now number (call_of call.now)) }
    ensures { IfOk result (λ c. c ≡ asked_of names.now number (call_of call.now)) }
{
    let numbers = names.numbers_of(&call.names)?;
    Call::new(
        alloc,
        pool,
        number,
        numbers,
        call.service.as_slice(),
        call.method.as_slice(),
        call.payload.as_slice(),
        call.attachment.as_slice(),
        call.retry + 2,
    )
}

/// What a line asks for, by numbers; the numbering is that of all operations. The memory is for a message or a call.
fn op_of(
    alloc: Global,
    pool: &mut BlockPool,
    names: &NameList,
    numbering: &Numbering,
    number: u16,
    link: u16,
    line: &Line,
) -> Result<Option<Op>, NoMemory>
    requires names { length names.now ≤ 64 }
    requires short { IsShort (item line.now) }
    ensures { IfOk result (λ op. (all : List Numbered) → AreNumbersOf numbering.now all → op ≡ op_of all names.now (numbered_as number link (item line.now)) (item line.now)) }
{
    match line {
        Line::Open(open) => Ok(Some(Op::Open(names.number_of(&open.name), link))),
        Line::Send(send) => {
            let message = Message::new(alloc, pool, send.bytes.as_slice())?;
            Ok(Some(Op::Send(names.number_of(&send.name), message)))
        }
        Line::Call(call) => Ok(Some(Op::Call(call_in(alloc, pool, names, number, call)?))),
        Line::Expire(target) => Ok(Some(Op::Expire(numbering.number_of(target)))),
        Line::Join(target) => Ok(Some(Op::Join(numbering.number_of(target)))),
        Line::Hold(name) => Ok(Some(Op::Hold(names.number_of(name)))),
        Line::Drop(name) => Ok(Some(Op::Drop(names.number_of(name)))),
        Line::Fail { name, code } => Ok(Some(Op::Fail(names.number_of(name), *code))),
        _ => Ok(None),
    }
}

/// Adds the task of an operation, if it has one.
fn push_task(
    alloc: Global,
    pool: &mut BlockPool,
    tasks: &mut VecDeque<Task>,
    names: &NameList,
    numbering: &Numbering,
    number: u16,
    link: u16,
    line: &Line,
) -> Result<(), NoMemory>
    requires names { length names.now ≤ 64 }
    requires short { IsShort (item line.now) }
    ensures { OnOk result ((all : List Numbered) → AreNumbersOf numbering.now all → tasks.new.items ≡ tasks.old.items ++ task_at all names.now number link (item line.now)) }
{
    if let Some(op) = op_of(alloc, pool, names, numbering, number, link, line)? {
        tasks.push_back(Task { number, op })?;
    }
    Ok(())
}

/// An empty queue with room for the tasks of this client, the setup's first: one for each of its operations.
fn queue_of(
    alloc: Global,
    numbering: &Numbering,
    client: usize,
) -> Result<VecDeque<Task>, AllocError>
    ensures { IfOk result (λ q. q.items ≡ []) }
{
    VecDeque::with_capacity(alloc, usize::from(numbering.count_of(client)))
}

/// The tasks of the setup and of each client of these lines, which have these names and this
/// numbering.
fn tasks_of(
    alloc: Global,
    pool: &mut BlockPool,
    names: &NameList,
    numbering: &Numbering,
    lines: &[Line],
) -> Result<Vec<VecDeque<Task>>, NoMemory>
    requires names { names.now ≡ model.names (map item lines.now) }
    requires numbering { numbering.now ≡ numbers_of (map item lines.now) }
    requires limits { KeepsLimits (map item lines.now) }
    requires calls { AllByRecursion IsShort (map item lines.now) }
    ensures { IfOk result (λ clients. map (λ q. q.items) clients.items ≡ all_tasks (map item lines.now)) }
{
    let mut clients = Vec::new(alloc);
    let mut tasks = queue_of(alloc, numbering, 0)?;
    let mut number = 0u16;
    let mut link = 0u16;
    for line in lines {
        if is_client(line) {
            clients.push(tasks)?;
            tasks = queue_of(alloc, numbering, clients.len())?;
        } else if is_operation(line) {
            push_task(
                alloc, pool, &mut tasks, names, numbering, number, link, line,
            )?;
            number += 1;
            if is_open(line) {
                link += 1;
            }
        }
    }
    clients.push(tasks)?;
    Ok(clients)
}

impl Script {
    /// The tasks of the setup and of each client, in the order of the script. The bytes of each
    /// message and of each call are copied once, into blocks of the pool.
    pub fn tasks(
        &self,
        alloc: Global,
        pool: &mut BlockPool,
    ) -> Result<Vec<VecDeque<Task>>, NoMemory>
        requires limits { KeepsLimits self.now }
        requires calls { AllByRecursion IsShort self.now }
        ensures { IfOk result (λ clients. map (λ q. q.items) clients.items ≡ all_tasks self.now) }
    {
        tasks_of(alloc, pool, self.names(), self.numbering(), self.lines())
    }
}
