// What is served beside what else comes.

use std::alloc::Global;
use std::sync::Wait;

/// What waits to be served.
pub trait Guest: Drop {
    /// It waits.
    ghost waits: { Self → Type 0 };

    /// It was served.
    ghost served: { Self → Type 0 };

    fn serve<R: Wait>(&mut self, rt: &R, alloc: Global)
        requires { waits self.old }
        ensures { served self.new };
}
