ghost use Rattle.std.specs.Prelude.{◌≡◌, ◌+◌, ◌*◌, ◌≤◌, length, reverse, sum, pos, IfOk};
ghost use Rattle.brpc_model.specs.Frame.{body_limit};
ghost use Rattle.brpc_model.specs.Reply.{served, echo, summing};
ghost use Rattle.rpc_meta.specs.MetaMeaning.{request_of};
ghost use Rattle.rpc_server.specs.ServiceAnswers.{IsAnswer, IsSmall};

use io_buf::{BlockPool, IoBuf, NoMemory};
use rpc_meta::RequestMeta;
use std::alloc::Global;

/// What a service answers.
#[derive(Drop)]
pub enum Answer {
    /// A payload and an attachment.
    Gives { payload: IoBuf, attachment: IoBuf },
    /// No payload, but why.
    Refuses(Refusal),
}

/// Why a request is refused, in the order in which it is looked for.
#[derive(Clone, Copy, PartialEq, Eq, Debug)]
pub enum Refusal {
    /// The payload is compressed, and unread.
    BadRequest,
    /// There is no such service.
    NoService,
    /// The service has no such method.
    NoMethod,
}

/// Answers a request: `Echo.Echo` payload and attachment as they came, `Echo.Reverse` the payload reversed, `Sum.Bytes` the
/// sum of the payload's bytes in eight bytes, the highest first. Payload and attachment are those of a frame, and so small.
pub fn serve(
    alloc: Global,
    pool: &mut BlockPool,
    compress_type: i32,
    request: &RequestMeta,
    payload: IoBuf,
    attachment: IoBuf,
) -> Result<Answer, NoMemory>
    requires { length payload.items + length attachment.items ≤ body_limit }
    ensures answer { IfOk result (λ a. IsAnswer (served compress_type (request_of request.now) payload.items attachment.items) a) }
    ensures small { IfOk result IsSmall }
{
    if compress_type != 0 {
        return Ok(Answer::Refuses(Refusal::BadRequest));
    }
    serve_plain(alloc, pool, request, payload, attachment)
}

// The services, of a payload that isn't compressed.
fn serve_plain(
    alloc: Global,
    pool: &mut BlockPool,
    request: &RequestMeta,
    payload: IoBuf,
    attachment: IoBuf,
) -> Result<Answer, NoMemory>
    requires { length payload.items + length attachment.items ≤ body_limit }
    ensures answer { IfOk result (λ a. IsAnswer (served (pos 0) (request_of request.now) payload.items attachment.items) a) }
    ensures small { IfOk result IsSmall }
{
    let method = request.method.as_slice();
    let service = request.service.as_slice();
    if service == b"Echo".as_slice() {
        serve_echo(alloc, pool, method, payload, attachment)
    } else if service == b"Sum".as_slice() {
        serve_sum(alloc, pool, method, payload)
    } else {
        Ok(Answer::Refuses(Refusal::NoService))
    }
}

// The methods of `Echo`.
fn serve_echo(
    alloc: Global,
    pool: &mut BlockPool,
    method: &[u8],
    payload: IoBuf,
    attachment: IoBuf,
) -> Result<Answer, NoMemory>
    requires { length payload.items + length attachment.items ≤ body_limit }
    ensures answer { IfOk result (λ a. IsAnswer (echo method.now payload.items attachment.items) a) }
    ensures small { IfOk result IsSmall }
{
    if method == b"Echo".as_slice() {
        Ok(Answer::Gives {
            payload,
            attachment,
        })
    } else if method == b"Reverse".as_slice() {
        Ok(Answer::Gives {
            payload: reversed(alloc, pool, &payload)?,
            attachment: IoBuf::new(alloc),
        })
    } else {
        Ok(Answer::Refuses(Refusal::NoMethod))
    }
}

// The method of `Sum`.
fn serve_sum(
    alloc: Global,
    pool: &mut BlockPool,
    method: &[u8],
    payload: IoBuf,
) -> Result<Answer, NoMemory>
    requires { length payload.items ≤ body_limit }
    ensures answer { IfOk result (λ a. IsAnswer (summing method.now payload.items) a) }
    ensures small { IfOk result IsSmall }
{
    if method != b"Bytes".as_slice() {
        return Ok(Answer::Refuses(Refusal::NoMethod));
    }
    let total = sum_of(payload);
    let mut bytes = IoBuf::new(alloc);
    bytes.append_bytes(pool, &total.to_be_bytes())?;
    Ok(Answer::Gives {
        payload: bytes,
        attachment: IoBuf::new(alloc),
    })
}

// The bytes, the last one first.
fn reversed(alloc: Global, pool: &mut BlockPool, payload: &IoBuf) -> Result<IoBuf, NoMemory>
    ensures { IfOk result (λ b. b.items ≡ reverse payload.now.items) }
{
    let mut room = vec![in alloc; 0u8; payload.len()]?;
    payload.copy_to(&mut room);
    room.reverse();
    let mut bytes = IoBuf::new(alloc);
    bytes.append_bytes(pool, &room)?;
    Ok(bytes)
}

// The sum of the bytes of a payload.
fn sum_of(mut payload: IoBuf) -> u64
    requires { length payload.items ≤ body_limit }
    ensures { result ≡ sum payload.items }
{
    let mut total = 0u64;
    while !payload.is_empty() {
        let piece = payload.first_piece();
        total += sum_of_piece(piece);
        let taken = piece.len();
        payload.pop_front(taken);
    }
    total
}

// The sum of the bytes of one reference.
fn sum_of_piece(piece: &[u8]) -> u64
    requires { length piece.now ≤ 8192 }
    ensures sum { result ≡ sum piece.now }
    ensures at_most { result ≤ 255 * length piece.now }
{
    piece.iter().map(|byte| u64::from(*byte)).sum()
}
