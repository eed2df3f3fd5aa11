// A connection, with how its service ended.
ghost use Rattle.std.specs.Prelude.{◌≡◌};
ghost use Rattle.sock_io.specs.LinkHalves.{IsUnused};
ghost use Rattle.serve_port.specs.ServiceSteps.{HasServed};

use crate::guest::Guest;
use crate::service::{Service, ServiceEnd};
use crate::talking::serve_one;
use sock_io::{In, Out};
use std::alloc::Global;
use std::sync::Wait;

/// The halves of a connection that was accepted, and how its service ended.
#[derive(Drop)]
pub struct Connection<O: Out, I: In> {
    pub out: O,
    pub inn: I,
    pub service: Service,
}

impl<O: Out, I: In> Connection<O, I> {
    /// One that wasn't served yet.
    pub fn new(out: O, inn: I) -> Self
        ensures { (result.out ≡ out) × (result.inn ≡ inn) }
    {
        Connection {
            out,
            inn,
            service: Service {
                end: ServiceEnd::NoMemory,
                frames: 0,
            },
        }
    }
}

impl<O: Out, I: In> Guest for Connection<O, I> {
    ghost use Rattle.sock_io.specs.LinkHalves.{IsUnused};
    ghost use Rattle.serve_port.specs.ServiceSteps.{HasServed};

    ghost waits = { λ c. IsUnused (O.state c.out) (I.state c.inn) };

    ghost served = { HasServed O.state I.state };

    fn serve<R: Wait>(&mut self, rt: &R, alloc: Global) {
        self.service = serve_one(rt, alloc, &mut self.out, &mut self.inn);
    }
}
