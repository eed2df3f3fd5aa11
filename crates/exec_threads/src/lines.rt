// The task of a line.
ghost use Rattle.std.specs.Prelude.{◌≡◌, ◌≤◌};
ghost use Rattle.exec_script.specs.Scripts.{IsChange};
ghost use Rattle.exec_queue.specs.Tasks.{IsTask};
ghost use Rattle.exec_threads.specs.TasksOfLines.{task_on};

use exec_queue::Task;
use exec_script::Change;

/// The task that makes this change, for the line of this number.
pub fn task_of(line: u32, change: Change) -> Task
    requires { IsChange change }
    ensures task { result ≡ task_on line change }
    ensures is { IsTask result }
    ensures line { result.line ≡ line }
{
    match change {
        Change::Add { account, amount } => Task {
            kind: 1,
            a: account,
            b: 0,
            line,
            amount,
        },
        Change::Sub { account, amount } => Task {
            kind: 2,
            a: account,
            b: 0,
            line,
            amount,
        },
        Change::Move { from, to, amount } => Task {
            kind: 3,
            a: from,
            b: to,
            line,
            amount,
        },
    }
}
