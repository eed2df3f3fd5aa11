use corr_id::IdTable;
use sock_io::Out;
use sock_message::Call;
use sock_table::SockTable;

/// The tables that threads share: of the sockets, and of the ids of calls.
#[derive(Drop)]
pub struct Tables<O: Out> {
    pub socks: SockTable<O>,
    pub ids: IdTable<Call>,
}
