// The accounts of a queue, which run its tasks.
ghost use Rattle.std.specs.Prelude.{◌≡◌, [], map, IfOk};
ghost use Rattle.exec_script.specs.Accounting.{book_after};
ghost use Rattle.exec_threads.specs.TasksOfLines.{most_lines, run_of_task};

use exec_queue::{Runner, Task};
use exec_script::{Accounts, Change, ChangeParts};
use ghosts::Ghosts;
use std::alloc::{AllocError, Global};
use std::marker::Model;

/// As many lines as a script may have.
const MOST_LINES: usize = 4096;

/// The accounts of a script, with room for what is told of the longest. Contracts see the tasks that ran on them.
#[derive(Drop)]
pub struct Bank {
    accounts: Accounts,
    ran: Ghosts<Task>,
}

impl Model for Bank {
    ghost use Rattle.std.specs.Prelude.{◌≡◌, map};
    ghost use Rattle.exec_script.specs.Accounting.{book_after};
    ghost use Rattle.std.specs.Prelude.{List};
    ghost use Rattle.exec_queue.specs.declared.task.Task as model;
    ghost use Rattle.exec_threads.specs.TasksOfLines.{most_lines, run_of_task};

    ghost Value = { List model.Task };

    ghost view = { λ b. b.ran.list };

    ghost invariant = { λ b. b.accounts ≡ book_after most_lines (map run_of_task b.ran.list) };
}

impl Bank {
    /// Before the first task.
    pub fn new(alloc: Global) -> Result<Bank, AllocError>
        ensures { IfOk result (λ bank. bank ≡ []) }
    {
        let accounts = Accounts::new(alloc, MOST_LINES)?;
        Ok(Bank {
            accounts,
            ran: Ghosts::of(&0u8),
        })
    }

    /// The accounts behind these tasks.
    pub fn accounts(self) -> Accounts
        ensures { result ≡ book_after most_lines (map run_of_task self) }
    {
        self.accounts
    }
}

impl Runner for Bank {
    ghost ran = { λ b. b };

    fn run(&mut self, task: &Task) {
        let change = Change::of(ChangeParts {
            kind: task.kind,
            a: task.a,
            b: task.b,
            amount: task.amount,
        });
        self.accounts.run(task.line, change);
        let with = (&self.ran, task);
        self.ran = Ghosts::of(&with);
    }
}
