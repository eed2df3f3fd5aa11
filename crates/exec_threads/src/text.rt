// What is printed of a script that was done.
ghost use Rattle.std.specs.Prelude.{◌≤◌, IfOk};
ghost use Rattle.exec_script.specs.QueueEnds.{IsEndingText};
ghost use Rattle.exec_threads.specs.TasksOfLines.{IsScript};

use crate::run::{NoMemory, run_script};
use exec_script::{ExecScript, push_ending};
use std::alloc::Global;
use std::sync::Wait;
use std::thread::Threads;

/// Runs a script by so many submitters, from 1 to 30, and tells how its queue ended.
pub fn ended_text<R: Threads + Wait + Sync>(
    rt: &R,
    alloc: Global,
    script: &ExecScript,
    submitters: u16,
) -> Result<Vec<u8>, NoMemory>
    requires some { 1 ≤ submitters }
    requires few { submitters ≤ 30 }
    requires script { IsScript script.now }
    ensures { IfOk result (λ text. IsEndingText submitters script.now text.items) }
{
    let done = run_script(rt, alloc, script, submitters)?;
    let mut text = Vec::new(alloc);
    push_ending(&mut text, &done.accounts, &done.answers, &done.order)?;
    Ok(text)
}
