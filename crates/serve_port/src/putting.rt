// Replies are put whole.
ghost use Rattle.std.specs.Prelude.{◌≡◌, false, OnOk, OnErr};
ghost use Rattle.sock_io.specs.FaultCauses.{Rose};
ghost use Rattle.serve_port.specs.ServiceSteps.{Puts};

use io_buf::{BlockPool, IoBuf};
use link_pauses::Pauses;
use sock_io::{Failed, Out, Put, Ready};
use std::sync::Wait;

/// Waits until the half takes more.
fn wait_ready<R: Wait, O: Out>(rt: &R, out: &mut O) -> Result<(), Failed>
    requires { (O.state out.old).finished ≡ false }
    ensures took { (O.state out.new).took ≡ (O.state out.old).took }
    ensures finished { (O.state out.new).finished ≡ (O.state out.old).finished }
    ensures now { OnOk result ((O.state out.new).faults ≡ (O.state out.old).faults) }
    ensures failed { OnErr result (Rose (O.state out.old).faults (O.state out.new).faults) }
{
    let pauses = Pauses::new();
    'asks: for _ in rt.forever() {
        match out.ready() {
            Ready::Now => return Ok(()),
            Ready::NotYet => pauses.pause(rt),
            Ready::Failed => return Err(Failed),
        }
    }
    unreachable!()
}

/// Puts all bytes of the buffer, and gives the blocks that come free so back to the pool.
pub fn put_all<R: Wait, O: Out>(
    rt: &R,
    pool: &mut BlockPool,
    bytes: &mut IoBuf,
    out: &mut O,
) -> Result<(), Failed>
    requires { (O.state out.old).finished ≡ false }
    ensures { Puts (O.state out.old) (O.state out.new) bytes.old.items result }
{
    'puts: for _ in rt.forever() {
        if bytes.is_empty() {
            return Ok(());
        }
        match out.put(bytes.first_piece()) {
            Put::Took(count) => bytes.recycle_front(pool, count),
            Put::Again => wait_ready(rt, out)?,
            Put::Failed => return Err(Failed),
        }
    }
    unreachable!()
}
