ghost use Rattle.std.specs.Prelude.{◌≡◌, ◌++◌, ◌∷◌, [], List};
ghost use Rattle.exec_queue.specs.Tasks.{IsTask};

use crate::task::Task;

/// Whoever runs the tasks of a queue. It takes no memory.
pub trait Runner: Drop {
    ghost use Rattle.exec_queue.specs.declared.task.Task.{Task};

    /// The tasks that it ran, in their order. What else it has follows from these.
    ghost ran: { Self → List Task };

    /// Runs one.
    fn run(&mut self, task: &Task)
        requires { IsTask task.now }
        ensures { ran self.new ≡ ran self.old ++ task.now ∷ [] };
}
