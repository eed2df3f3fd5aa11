ghost use Rattle.std.specs.Prelude.{◌≡◌, ◌<◌, ◌^◌, ℕ, length, IfOk};
ghost use Rattle.brpc_model.specs.Script.{script_of};

use crate::error::ScriptError;
use crate::reader::Reader;
use crate::script::Script;
use crate::text::first_line;
use std::alloc::Global;

/// The script that these bytes are.
///
/// A script is lines that end with a line feed, which the last may lack; a carriage return directly
/// before a line feed is dropped. Empty lines and lines that begin with `#` say nothing, and are
/// counted. The lines are judged in their order for the kinds of fault 1 to 9 and 12, and in one
/// line the lowest kind counts; where none has such a fault they are judged in order for 10, and
/// then for 11.
///
/// | kind | fault |
/// | --- | --- |
/// | 1 | a byte other than a space, a line feed and the printable ASCII characters |
/// | 2 | an unknown first word |
/// | 3 | a wrong number of words, an unknown option or one given twice |
/// | 4 | a number that is malformed or out of its range, or a seat that the script doesn't have |
/// | 5 | bad hexadecimal |
/// | 6 | a length out of its limits |
/// | 7 | a malformed name, service, method or kind of step |
/// | 8 | a line at a wrong place |
/// | 9 | too many clients, operations, links, names or schedule lines |
/// | 10 | a `C.I` that is no `call` of this script |
/// | 11 | a `join` in a script in which an `open` lacks `serve` |
/// | 12 | a `drop` of a name that isn't held, or a second `hold` of a name without a `drop` between |
///
/// `NoMemory` comes where memory ran out, whatever the bytes are.
pub fn read_script(alloc: Global, bytes: &[u8]) -> Result<Script, ScriptError>
    requires { length bytes.now < 2 ^ 32 }
    ensures script { IfOk result (λ script. script_of bytes.now ≡ Ok script) }
    ensures fault { (line kind : ℕ) → result ≡ Err (ScriptError.Fault line kind) → script_of bytes.now ≡ Err (line, kind) }
{
    let mut reader = Reader::new(alloc);
    let mut rest = bytes;
    while !rest.is_empty() {
        let (line, behind) = first_line(rest);
        reader.read(line)?;
        rest = behind;
    }
    reader.finish()
}
