use crate::tables::Tables;
use sock_io::Out;
use std::sync::Wait;

/// The tables at which a client acts, and what it waits by.
#[derive(Drop)]
pub struct CallTables<'a, O: Out, R: Wait> {
    pub rt: &'a R,
    pub tables: &'a Tables<O>,
}
