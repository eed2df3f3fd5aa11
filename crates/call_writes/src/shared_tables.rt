use corr_id::IdTable;
use sock_io::Out;
use sock_message::Call;
use sock_table::SockTable;
use std::sync::Wait;

/// The tables that threads share, of sockets and of the ids of calls, and what they wait by.
#[derive(Drop)]
pub struct SharedTables<'a, O: Out, R: Wait> {
    pub rt: &'a R,
    pub socks: &'a SockTable<O>,
    pub ids: &'a IdTable<Call>,
}
