ghost use Rattle.std.specs.Prelude.{◌≤◌};

/// A port, and how many connections are served there: `PORT N`.
#[derive(Clone, Copy)]
pub struct Doors {
    /// 1 to 65,535.
    pub port: u32,
    /// 1 to 31.
    pub connections: u32,
    ghost port_in: { port ≤ 65535 },
    ghost some_connections: { 1 ≤ connections },
    ghost connections_in: { connections ≤ 31 },
}
