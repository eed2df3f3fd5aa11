//! What is said of scripts of execution queues.
ghost use Rattle.std.specs.Prelude.{All};
ghost use Rattle.exec_script.specs.Scripts.{IsOp};

use exec_script::{Accounts, Answer, ExecFault, ExecScript, Op, push_ending, push_fault};
use std::alloc::{AllocError, Global};
use std::str;

/// How many lines the script of a text has, or the line of its first fault.
pub fn fault_or_ops(alloc: Global, text: &str) -> Result<String, AllocError> {
    match ExecScript::read(alloc, text.as_bytes()) {
        Ok(script) => {
            let count = script.ops().len();
            format!(in alloc; "ops {count}")
        }
        Err(fault) => fault_said(alloc, fault),
    }
}

/// The line of a fault.
fn fault_said(alloc: Global, fault: ExecFault) -> Result<String, AllocError> {
    let mut text = Vec::new(alloc);
    match fault {
        ExecFault::Fault { line, kind } => push_fault(&mut text, line, kind)?,
        ExecFault::NoMemory => return Err(AllocError),
    }
    in_one_line(alloc, &text)
}

/// The lines of a text, parted by ` / `.
fn in_one_line(alloc: Global, text: &[u8]) -> Result<String, AllocError> {
    let Ok(text) = str::from_utf8(text) else {
        return String::from_str(alloc, "no text");
    };
    let mut said = String::new(alloc);
    let mut is_first = true;
    for line in text.lines() {
        if !is_first {
            said.push_str(" / ")?;
        }
        said.push_str(line)?;
        is_first = false;
    }
    Ok(said)
}

/// What became of a line by its letter: accepted and run, dropped, refused, stopped the queue, or found it stopped.
fn answer_of(letter: char) -> Answer {
    match letter {
        'r' => Answer::Refused,
        's' => Answer::Stopped,
        'y' => Answer::Already,
        _ => Answer::Accepted,
    }
}

/// What is printed of a queue whose lines were answered so, where those that were accepted ran in the order of their lines.
pub fn ended(alloc: Global, letters: &str, text: &str) -> Result<String, AllocError> {
    let script = match ExecScript::read(alloc, text.as_bytes()) {
        Ok(script) => script,
        Err(fault) => return fault_said(alloc, fault),
    };
    told(alloc, script.ops(), letters)
}

fn told(alloc: Global, ops: &[Op], letters: &str) -> Result<String, AllocError>
    requires { All IsOp ops.now }
{
    let mut accounts = Accounts::new(alloc, ops.len())?;
    let mut answers: Vec<Answer> = Vec::new(alloc);
    let mut order: Vec<u32> = Vec::new(alloc);
    let mut line = 0u32;
    let mut letters = letters.chars();
    for op in ops {
        line = line.saturating_add(1);
        let letter = letters.next().unwrap_or('a');
        answers.push(answer_of(letter))?;
        if letter == 'a' || letter == 'd' {
            order.push(line)?;
        }
        if letter == 'a' {
            run(&mut accounts, line, *op);
        }
    }
    let mut text = Vec::new(alloc);
    push_ending(&mut text, &accounts, &answers, &order)?;
    in_one_line(alloc, &text)
}

/// The task of a line runs.
fn run(accounts: &mut Accounts, line: u32, op: Op)
    requires { IsOp op }
{
    if let Op::Task(change) = op {
        accounts.run(line, change);
    }
}

/// What is printed where one submitter does all lines in their order.
pub fn played(alloc: Global, text: &str) -> Result<String, AllocError> {
    let script = match ExecScript::read(alloc, text.as_bytes()) {
        Ok(script) => script,
        Err(fault) => return fault_said(alloc, fault),
    };
    let mut letters = String::new(alloc);
    let mut is_stopped = false;
    for op in script.ops() {
        letters.push(letter_of(op, is_stopped))?;
        is_stopped = is_stopped || matches!(op, Op::Stop);
    }
    told(alloc, script.ops(), letters.as_str())
}

/// What becomes of a line, where the queue was stopped before or not.
fn letter_of(op: &Op, is_stopped: bool) -> char {
    match (op, is_stopped) {
        (Op::Task(_), false) => 'a',
        (Op::Task(_), true) => 'r',
        (Op::Stop, false) => 's',
        (Op::Stop, true) => 'y',
    }
}
