// What a script asks of its clients, and the room that a run needs for its links.
ghost use Rattle.std.specs.Prelude.{◌≡◌, ℕ, List, Ok, map, IfOk};
ghost use Rattle.brpc_model.specs.Script.{script_of};
ghost use Rattle.seat_programs.specs.ScriptSetupToEnding.{all_tasks};
ghost use Rattle.script_parts.specs.ReadyThreadRun.{IsReady};

use crate::halves::{Halves, room_for};
use script_lang::{BlockPool, NoMemory, Script};
use seat_programs::Task;
use sock_io::{In, Out, Peer};
use sock_words::Plan;
use std::alloc::Global;
use std::collections::VecDeque;

/// All that a run needs besides its links: the operations of the setup and of each client, and the numbers of the `open`s and of the
/// calls.
#[derive(Drop)]
pub struct Ready<O: Out, I: In, P: Peer> {
    pub plan: Plan,
    pub slots: u16,
    pub setup: VecDeque<Task>,
    pub clients: Vec<VecDeque<Task>>,
    pub opens: Vec<u16>,
    pub calls: Vec<u16>,
    pub halves: Halves<O, I, P>,
}

/// The operations of the setup and of each client.
fn all_tasks(alloc: Global, script: &Script) -> Result<Vec<VecDeque<Task>>, NoMemory>
    requires { (bytes : List ℕ) × (script_of bytes ≡ Ok script.now) }
    ensures { IfOk result (λ clients. map (λ tasks. tasks.items) clients.items ≡ all_tasks script.now) }
{
    let mut pool = BlockPool::new(alloc);
    script.tasks(alloc, &mut pool)
}

/// What a script asks for, and room for the halves of so many links.
pub fn prepare<O: Out, I: In, P: Peer>(
    alloc: Global,
    script: &Script,
    count: usize,
) -> Result<Ready<O, I, P>, NoMemory>
    requires script { (bytes : List ℕ) × (script_of bytes ≡ Ok script.now) }
    ensures { IfOk result (IsReady script.now count) }
{
    let opens = Vec::from_slice(alloc, script.opens())?;
    let calls = Vec::from_slice(alloc, script.calls())?;
    let halves = room_for(alloc, count)?;
    let mut clients = all_tasks(alloc, script)?;
    let setup = clients.remove(0);
    Ok(Ready {
        plan: script.plan(),
        slots: script.id_plan().slots,
        setup,
        clients,
        opens,
        calls,
        halves,
    })
}
