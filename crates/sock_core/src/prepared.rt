ghost use Rattle.std.specs.Prelude.{◌≡◌, ℕ, List, Ok, IfOk, map};
ghost use Rattle.brpc_model.specs.Script.{script_of};
ghost use Rattle.seat_programs.specs.Tasks.{plan_of};
ghost use Rattle.sock_core.specs.MachineBeginning.{IsWanted};

use crate::inputs::{Wanted, wanted_of};
use ghosts::Ghosts;
use script_lang::{Line, NoMemory, Script};
use sock_words::Plan;
use std::alloc::Global;
use std::marker::Model;

/// A script that was read and whose tasks are made, so that its lines aren't needed for its run. Contracts see the script.
#[derive(Drop)]
pub struct Prepared {
    lines: Ghosts<Line>,
    wanted: Wanted,
}

impl Model for Prepared {
    ghost use Rattle.std.specs.Prelude.{List, map};
    ghost use Rattle.brpc_model.specs.Items.{Item};
    ghost use Rattle.script_items.specs.LineMeaning.{item};
    ghost use Rattle.sock_core.specs.MachineBeginning.{IsWanted};

    ghost Value = { List Item };

    ghost view = { λ p. map item p.lines.list };

    ghost invariant = { λ p. IsWanted (map item p.lines.list) p.wanted.plan p.wanted.id_plan (map (λ (tasks : _). tasks.items) p.wanted.clients.items) p.wanted.calls.items p.wanted.opens.items };
}

impl Prepared {
    /// The script, prepared. Its messages are copied into blocks of a pool of their own.
    pub fn of(alloc: Global, script: &Script) -> Result<Prepared, NoMemory>
        requires { (bytes : List ℕ) × (script_of bytes ≡ Ok script.now) }
        ensures { IfOk result (λ p. p ≡ script.now) }
    {
        let wanted = wanted_of(alloc, script)?;
        let lines = script.lines();
        Ok(Prepared {
            lines: Ghosts::of(&lines),
            wanted,
        })
    }

    /// The sizes of its table.
    pub fn plan(&self) -> Plan
        ensures { result ≡ plan_of self.now }
    {
        self.wanted.plan
    }

    /// What it wants of a machine.
    pub(crate) fn into_wanted(self) -> Wanted
        ensures { IsWanted self result.plan result.id_plan (map (λ (tasks : _). tasks.items) result.clients.items) result.calls.items result.opens.items }
    {
        self.wanted
    }
}
