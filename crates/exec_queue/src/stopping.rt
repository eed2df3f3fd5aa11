// A queue is stopped.
ghost use Rattle.std.specs.Prelude.{◌≡◌, List, true, false, OnErr, OnOk, IfErr};
ghost use Rattle.exec_queue.specs.declared.task.Task as model;
ghost use Rattle.exec_queue.specs.StoppedQueue.{failings, FoundStopped};
ghost use Rattle.exec_queue.specs.Submitters.{IsQueuePlan, IsSubmitter};

use crate::queue::{TaskQueue, TaskSubmitter};
use sock_io::Out;
use sock_table::Gone;
use sock_words::{EFAILEDSOCKET, Vref};

/// The queue had been stopped before: the word that was found.
#[derive(Drop)]
pub struct Already {
    pub found: Vref,
}

impl<O: Out> TaskQueue<O> {
    /// Stops the queue: behind this step no task is accepted, and one at most is still begun.
    /// bRPC's `execution_queue_stop` (execution_queue.md).
    pub fn stop(&self, by: &mut TaskSubmitter<O>) -> Result<(), Already>
        ghost ts: { List model.Task }
        requires plan { IsQueuePlan self.now.table.rule.plan }
        requires by { IsSubmitter self.now ts by.old }
        ensures by { IsSubmitter self.now ts by.new }
        ensures number { by.new.number ≡ by.old.number }
        ensures first { OnOk result ((by.old.told ≡ false) × (by.old.stops ≡ 0)) }
        ensures stopped { OnOk result ((by.new.stops ≡ 1) × (failings self.now.id.0 by.new.seat.me.0 ≡ 1)) }
        ensures already { IfErr result (λ e. FoundStopped self.now.id.0 e.found.0 by.old.seat.me.0 by.new.seat.me.0) }
        ensures told { OnErr result ((by.new.told ≡ true) × (by.new.stops ≡ by.old.stops)) }
        ensures same { OnOk result (by.new.told ≡ by.old.told) }
        ensures full { by.new.full ≡ by.old.full }
    {
        let sock = match self.table.add_reference(&mut by.seat, self.id) {
            Ok(sock) => sock,
            Err(Gone { found }) => {
                by.told = true;
                return Err(Already { found });
            }
        };
        let stopped = self.table.set_failed(&mut by.seat, &sock, EFAILEDSOCKET);
        self.table.release(&mut by.seat, sock);
        match stopped {
            Ok(()) => {
                by.stops = by.stops.saturating_add(1);
                Ok(())
            }
            Err(found) => {
                by.told = true;
                Err(Already { found: found.found })
            }
        }
    }
}
