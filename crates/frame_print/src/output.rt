ghost use Rattle.std.specs.Prelude.{◌≡◌, ◌≤◌, drop, length};
ghost use Rattle.frame_print.specs.TextWrittenToSink.{Writes};

use sock_io::{Failed, Sink};

/// What stands behind a place.
pub fn from_place(bytes: &[u8], at: usize) -> &[u8]
    requires { at ≤ length bytes.now }
    ensures { result.now ≡ drop at bytes.now }
{
    &bytes[at..]
}

/// Writes a text whole.
pub fn write_all<K: Sink>(out: &mut K, text: &[u8]) -> Result<(), Failed>
    ensures { Writes (K.state out.old) (K.state out.new) text.now result }
{
    sock_io::write_all(out, text)
}
