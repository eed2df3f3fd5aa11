ghost use Rattle.std.specs.Prelude.{◌≤◌};

/// A retry that is kept: the id of its call, and the attempt that is to be tried.
#[derive(Drop)]
pub struct Retry {
    pub id: u64,
    pub attempt: u8,
    pub ghost low: { attempt ≤ 6 },
}
