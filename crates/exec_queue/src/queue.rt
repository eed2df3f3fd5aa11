use sock_io::Out;
use sock_rule::SockSeat;
use sock_table::SockTable;
use sock_words::SocketId;

/// A queue of tasks, shared by its submitters, over the writing half that runs them.
#[derive(Drop)]
pub struct TaskQueue<O: Out> {
    pub table: SockTable<O>,
    pub id: SocketId,
}

/// Whoever submits tasks: its seat, and what its calls answered.
#[derive(Drop)]
pub struct TaskSubmitter<O: Out> {
    pub seat: SockSeat<O>,
    /// Its number, from 1.
    pub number: u16,
    /// How many of its calls of `stop` answered Ok.
    pub stops: u32,
    /// Whether `Stopped` or `Already` was answered to it.
    pub told: bool,
    /// Whether `Full` was.
    pub full: bool,
}
