// The arguments that the program is started with.
ghost use Rattle.std.specs.Prelude.{◌≡◌, IfOk, drop, map, string_bytes};
ghost use Rattle.std.specs.Vec.Iter.{into_iter_items};
ghost use Rattle.brpc_main.specs.CommandLineWords.{arguments};
ghost use Rattle.brpc_main.specs.ProgramEnding.{begins_with_serve};

use std::alloc::{AllocError, Global};
use std::env::Args;
use std::io;

/// All arguments. Where they can't be had as text there are none.
pub fn all_of(alloc: Global, args: io::Result<Args>) -> Result<Vec<String>, AllocError>
    ensures { IfOk result (λ all. all.items ≡ arguments args) }
{
    match args {
        Ok(args) => listed(alloc, args),
        Err(_) => Ok(Vec::new(alloc)),
    }
}

/// The arguments as a list.
fn listed(alloc: Global, args: Args) -> Result<Vec<String>, AllocError>
    ensures { IfOk result (λ all. all.items ≡ into_iter_items args) }
{
    args.collect(alloc)
}

/// All but the first, which is the program's name.
pub fn behind_first(args: &[String]) -> &[String]
    ensures { result.now ≡ drop 1 args.now }
{
    match args.split_first() {
        Some((_, words)) => words,
        None => &[],
    }
}

/// Whether the first word is `serve`.
pub fn is_serve(words: &[String]) -> bool
    ensures { result ≡ begins_with_serve (map string_bytes words.now) }
{
    match words.split_first() {
        Some((word, _)) => word.as_str() == "serve",
        None => false,
    }
}
