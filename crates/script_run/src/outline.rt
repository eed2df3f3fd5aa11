ghost use Rattle.std.specs.Prelude.{◌≡◌, List, Ok, IfOk, map};
ghost use Rattle.script_items.specs.LineMeaning.{item};
ghost use Rattle.seat_programs.specs.Tasks.{plan_of};
ghost use Rattle.script_run.specs.Outlines.{outlined, meant};

use crate::mark::Mark;
use crate::marks::{lines_of, marks_of};
use ghosts::Ghosts;
use script_lang::{Line, Script};
use sock_words::Plan;
use std::alloc::{AllocError, Global};
use std::marker::Model;

/// What is left of a script whose tasks are made: as much as its schedule and its report want. Contracts see the script.
#[derive(Drop)]
pub struct Outline {
    lines: Ghosts<Line>,
    plan: Plan,
    marks: Vec<Mark>,
}

impl Model for Outline {
    ghost use Rattle.std.specs.Prelude.{◌≡◌, List, map};
    ghost use Rattle.brpc_model.specs.Items.{Item};
    ghost use Rattle.script_items.specs.LineMeaning.{item};
    ghost use Rattle.seat_programs.specs.Tasks.{plan_of};
    ghost use Rattle.script_run.specs.Outlines.{outlined, meant};

    ghost Value = { List Item };

    ghost view = { λ o. map item o.lines.list };

    ghost invariant = { λ o. (o.plan ≡ plan_of (map item o.lines.list)) × (map meant o.marks.items ≡ map outlined (map item o.lines.list)) };
}

impl Outline {
    /// What is left of a script whose table has these sizes.
    pub fn of(alloc: Global, script: Script, plan: Plan) -> Result<Outline, AllocError>
        requires { plan ≡ plan_of script }
        ensures { IfOk result (λ o. o ≡ script) }
    {
        let lines = script.into_lines();
        let all = Ghosts::of(&lines);
        Ok(Outline {
            lines: all,
            plan,
            marks: marks_of(alloc, lines)?,
        })
    }

    /// The sizes of its table.
    pub fn plan(&self) -> Plan
        ensures { result ≡ plan_of self.now }
    {
        self.plan
    }

    /// What is left of each line.
    pub fn marks(&self) -> &[Mark]
        ensures { map meant result.now ≡ map outlined self.now }
    {
        self.marks.as_slice()
    }

    /// Lines of which as much is left.
    pub fn into_lines(self, alloc: Global) -> Result<Vec<Line>, AllocError>
        ensures { IfOk result (λ lines. map item lines.items ≡ map outlined self) }
    {
        lines_of(alloc, self.marks)
    }
}
