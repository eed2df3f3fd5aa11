ghost use Rattle.std.specs.Prelude.{◌≡◌, ◌||◌};
ghost use Rattle.loop_link.specs.ServingFedBytes.{is_reached};

/// Whether so many responses are all that are given.
pub(crate) fn is_reached(end: Option<u32>, made: u64) -> bool
    ensures { result ≡ is_reached end made }
{
    match end {
        Some(most) => u64::from(most) <= made,
        None => false,
    }
}

/// Whether the server gives its end: so many responses were made, or it met a fault.
pub(crate) fn gives_end(end: Option<u32>, made: u64, faulty: bool) -> bool
    ensures { result ≡ (is_reached end made || faulty) }
{
    is_reached(end, made) || faulty
}
