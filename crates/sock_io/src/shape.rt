ghost use Rattle.std.specs.Prelude.{◌≡◌};
ghost use Rattle.sock_io.specs.PutAnswers.{fails_at, pauses_at};

use sock_words::Shape;

/// Whether the put of this number fails.
pub(crate) fn does_fail(shape: &Shape, number: u64) -> bool
    ensures { result ≡ fails_at shape.now number }
{
    shape.fail != 0 && u64::from(shape.fail) <= number
}

/// Whether the put of this number answers `Again`, unless the one before it did.
pub(crate) fn does_pause(shape: &Shape, number: u64) -> bool
    ensures { result ≡ pauses_at shape.now number }
{
    shape.again != 0 && number % u64::from(shape.again) == 0
}
