ghost use Rattle.std.specs.Prelude.{◌==◌, ℕ};
ghost use Rattle.std.specs.List.{slice_split};
ghost use Rattle.brpc_model.specs.Text.{words};
ghost use Rattle.brpc_model.specs.Items.{Item};
ghost use Rattle.brpc_model.specs.ScriptLineFaults.{names_in, call_in, target_in};
ghost use Rattle.script_items.specs.PartReaderAnswers.{Answers};
ghost use Rattle.script_items.specs.LineMeaning.{call_of};
ghost use Rattle.script_items.specs.CallBodies.{bodies_of};

use crate::fault::{BAD_LENGTH, BAD_NAME, BAD_NUMBER, BAD_WORDS, LineFault, both};
use crate::line::{CallLine, Target};
use crate::names::Names;
use crate::numbers::read_wide;
use crate::options::{Command, read_attachment, read_retry};
use crate::parts::{read_hex, read_method, read_name, read_service};
use crate::words::{split_last, split_once};
use sock_words::OwnedBytes;
use std::alloc::Global;

/// One name, or two parted by a comma.
fn read_names(alloc: Global, word: &[u8]) -> Result<Names, LineFault>
    ensures { Answers (λ n. n) result (names_in (slice_split (λ b. b == 44) word.now)) }
{
    let Some((first, second)) = split_once(word, b',') else {
        return Ok(Names::new(read_name(alloc, word)?, None));
    };
    if split_once(second, b',').is_some() {
        return Err(BAD_NAME);
    }
    let (first, second) = both(read_name(alloc, first), read_name(alloc, second))?;
    Ok(Names::new(first, Some(second)))
}

/// The payload and the attachment of a call, of at most 65,280 bytes together.
fn read_bodies(
    alloc: Global,
    payload: &[u8],
    options: &[u8],
) -> Result<(OwnedBytes, OwnedBytes), LineFault>
    ensures { Answers (λ p. p) result (bodies_of payload.now (words options.now)) }
{
    let (payload, attachment) = both(read_hex(alloc, payload), read_attachment(alloc, options))?;
    let length = payload.as_slice().len();
    if length <= 65280 && attachment.as_slice().len() <= 65280 - length {
        Ok((payload, attachment))
    } else {
        Err(BAD_LENGTH)
    }
}

/// A call, from its names, its `SERVICE.METHOD`, its payload and its options. The last dot parts
/// the service from the method.
pub fn read_call(
    alloc: Global,
    names: &[u8],
    method: &[u8],
    payload: &[u8],
    options: &[u8],
) -> Result<CallLine, LineFault>
    ensures { Answers call_of result (call_in names.now method.now payload.now (words options.now)) }
{
    if !Command::Call.knows_all(options) {
        return Err(BAD_WORDS);
    }
    let (service, method) = split_last(method, b'.');
    let names = read_names(alloc, names);
    let called = both(read_service(alloc, service), read_method(alloc, method));
    let bodies = read_bodies(alloc, payload, options);
    let retry = read_retry(options);
    let ((names, (service, method)), ((payload, attachment), retry)) = both(
        both(names, called),
        both(bodies, retry),
    )?;
    Ok(CallLine {
        names,
        service,
        method,
        payload,
        attachment,
        retry,
    })
}

/// `C.I`: two numbers of 64 bits, parted by a dot; `BAD_NUMBER` otherwise. Whether there is such a call is judged when all
/// lines were read.
pub fn read_target(word: &[u8]) -> Result<Target, LineFault>
    ensures { (make : ℕ → ℕ → Item) →
        Answers (λ t. make t.client t.number) result (target_in make (slice_split (λ b. b == 46) word.now)) }
{
    let Some((client, number)) = split_once(word, b'.') else {
        return Err(BAD_NUMBER);
    };
    if split_once(number, b'.').is_some() {
        return Err(BAD_NUMBER);
    }
    let (client, number) = both(read_wide(client), read_wide(number))?;
    Ok(Target { client, number })
}
