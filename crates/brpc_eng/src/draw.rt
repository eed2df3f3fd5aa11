ghost use Rattle.std.specs.Prelude.{◌*◌, ◌≤◌};

/// A script that is drawn: `SEED CLIENTS OPS`.
#[derive(Clone, Copy)]
pub struct Draw {
    pub seed: u32,
    /// How many clients, 1 to 31.
    pub clients: u32,
    /// How many operations each client has, at least 1; at most 4,092 in all.
    pub operations: u32,
    ghost some_clients: { 1 ≤ clients },
    ghost clients_in: { clients ≤ 31 },
    ghost some_operations: { 1 ≤ operations },
    ghost all_in: { clients * operations ≤ 4092 },
}
