// What a client has for its calls.
ghost use Rattle.std.specs.Prelude.{◌≡◌, [], false};
ghost use Rattle.call_errors.specs.ClientBooks.{books_of};

use crate::retries::Retry;
use corr_id::IdSeat;
use rpc_client::Told;
use sock_message::{BlockPool, Call};
use std::alloc::Global;
use std::collections::VecDeque;

/// A client's part for calls: its seat of the table of ids, the retries that it keeps, the oldest first, what it tells of the
/// calls that it ended, and whether memory was wanting.
#[derive(Drop)]
pub struct CallSeat {
    pub seat: IdSeat<Call>,
    pub retries: VecDeque<Retry>,
    pub told: Vec<Told>,
    pub starved: bool,
    pub pool: BlockPool,
    pub alloc: Global,
}

impl CallSeat {
    /// A client with this seat, which ended no call yet.
    pub fn new(alloc: Global, seat: IdSeat<Call>) -> CallSeat
        ensures seat { result.seat ≡ seat }
        ensures books { books_of result ≡ record { retries = []; told = []; starved = false } }
    {
        CallSeat {
            seat,
            retries: VecDeque::new(alloc),
            told: Vec::new(alloc),
            starved: false,
            pool: BlockPool::new(alloc),
            alloc,
        }
    }
}
