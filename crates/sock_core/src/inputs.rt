ghost use Rattle.std.specs.Prelude.{◌≡◌, ℕ, List, Ok, map, IfOk};
ghost use Rattle.brpc_model.specs.Script.{script_of};
ghost use Rattle.seat_programs.specs.ScriptSetupToEnding.{all_tasks};
ghost use Rattle.seat_programs.specs.Tasks.{plan_of, id_plan_of, opens, calls};

use corr_core::Plan as IdPlan;
use script_lang::{BlockPool, NoMemory, Script};
use seat_programs::Task;
use sock_words::Plan;
use std::alloc::Global;
use std::collections::VecDeque;

/// What a script wants of a machine.
#[derive(Drop)]
pub struct Wanted {
    pub plan: Plan,
    /// The sizes of the table of ids.
    pub id_plan: IdPlan,
    /// The tasks of the setup and of each client.
    pub clients: Vec<VecDeque<Task>>,
    /// The operations that are calls.
    pub calls: Vec<u16>,
    /// The `open`s that the ending goes over.
    pub opens: VecDeque<u16>,
}

/// What a script that was read wants. Its messages are copied into blocks of a pool of their own.
pub fn wanted_of(alloc: Global, script: &Script) -> Result<Wanted, NoMemory>
    requires { (bytes : List ℕ) × (script_of bytes ≡ Ok script.now) }
    ensures plan { IfOk result (λ w. w.plan ≡ plan_of script.now) }
    ensures id_plan { IfOk result (λ w. w.id_plan ≡ id_plan_of script.now) }
    ensures calls { IfOk result (λ w. w.calls.items ≡ calls script.now) }
    ensures clients { IfOk result (λ w. map (λ (tasks : _). tasks.items) w.clients.items ≡ all_tasks script.now) }
    ensures opens { IfOk result (λ w. w.opens.items ≡ opens script.now) }
{
    let mut pool = BlockPool::new(alloc);
    Ok(Wanted {
        plan: script.plan(),
        id_plan: script.id_plan(),
        calls: Vec::from_slice(alloc, script.calls())?,
        clients: script.tasks(alloc, &mut pool)?,
        opens: VecDeque::from_vec(Vec::from_slice(alloc, script.opens())?),
    })
}
