// What the rule of a table is told once.
use ghosts::Ghosts;
use sock_model::Plan;

/// Which way the bytes of each link go, in the order of the links. It has no bytes.
pub type Ways = Ghosts<[u64; 0]>;

/// The sizes of a table, and the ways of its links.
#[derive(Drop)]
pub struct TableKey {
    pub plan: Plan,
    pub ways: Ways,
}
