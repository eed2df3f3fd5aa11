ghost use Rattle.std.specs.Prelude.{◌≡◌, ◌↔◌, ◌≤◌, Contains, IsTrue};
ghost use Rattle.sock_io.specs.FaultCauses.{Rose, next_number};

/// One more fault, or as many as the count holds.
pub fn risen(count: u64) -> u64
    ensures later { count ≤ result }
    ensures rose { Rose count result }
{
    count.saturating_add(1)
}

/// The number of the next call, from 1 on.
pub(crate) fn next_call(calls: u64) -> u64
    ensures { result ≡ next_number calls }
{
    calls.saturating_add(1)
}

/// Whether the number stands among these.
pub(crate) fn is_listed(numbers: &[u64], number: u64) -> bool
    ensures { IsTrue result ↔ Contains numbers.now number }
{
    numbers.contains(&number)
}

/// Whether the number stands among these, which are of 32 bits.
pub(crate) fn is_counted(numbers: &[u32], number: u64) -> bool
    ensures { IsTrue result ↔ Contains numbers.now number }
{
    numbers.iter().any(|n| u64::from(*n) == number)
}
