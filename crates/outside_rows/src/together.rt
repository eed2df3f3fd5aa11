// A gate where the first operations of three clients wait for one another.
use crate::waits::Shared;
use sock_io::Gate;
use std::sync::Wait;

/// How many clients meet.
pub const CLIENTS: u64 = 3;

/// Holds the first operation of each client until all three are at theirs.
#[derive(Drop)]
pub struct MeetingGate {
    pub met: Shared,
}

impl Gate for MeetingGate {
    fn pass<R: Wait>(&self, _rt: &R, client: u16, operation: u16) {
        if client > 0 && operation == 1 {
            let _ = self.met.note();
            self.met.wait(CLIENTS);
        }
    }
}
