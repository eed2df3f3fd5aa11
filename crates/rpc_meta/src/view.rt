ghost use Rattle.std.specs.Prelude.{◌≡◌, Some, option_map};
ghost use Rattle.pb_wire.specs.brpc_model.specs.Meta.{int32, read_meta};
ghost use Rattle.rpc_meta.specs.Answer.{answer_as, request_from, response_from};
ghost use Rattle.rpc_meta.specs.MetaMeaning.{meaning, request_of, response_of};
ghost use Rattle.rpc_meta.specs.MetaParts.{names_of, outcome_of};
ghost use Rattle.rpc_meta.specs.ViewedMeta.{viewed, request_viewed, response_viewed};

use crate::fault::MetaFault;
use crate::gather::gather_parts;
use crate::meta::{RequestMeta, ResponseMeta, RpcMeta};
use crate::parts::{RequestParts, ResponseParts};

/// A meta, with its names and its text where they lie.
#[derive(Clone, Copy)]
pub struct MetaView<'a> {
    /// What is asked for, in a request.
    pub request: Option<RequestView<'a>>,
    /// How it went, in a response.
    pub response: Option<ResponseView<'a>>,
    /// How the payload is compressed, 0 for not at all.
    pub compress_type: i32,
    /// The correlation id, as an unsigned number.
    pub correlation_id: u64,
    /// How many of the body's last bytes are the attachment.
    pub attachment_size: i32,
}

/// The request part of a meta.
#[derive(Clone, Copy)]
pub struct RequestView<'a> {
    /// The service's name.
    pub service: &'a [u8],
    /// The method's name.
    pub method: &'a [u8],
    /// An id for logs, as an unsigned number.
    pub log_id: Option<u64>,
}

/// The response part of a meta.
#[derive(Clone, Copy)]
pub struct ResponseView<'a> {
    /// The error code, 0 for success.
    pub code: i32,
    /// The error's text.
    pub text: &'a [u8],
}

impl MetaView<'_> {
    /// The meta of a frame that was cut out.
    #[inline]
    pub fn of(meta: &RpcMeta) -> MetaView<'_>
        ensures { viewed result ≡ meaning meta.now }
    {
        MetaView {
            request: request_in(&meta.request),
            response: response_in(&meta.response),
            compress_type: meta.compress_type,
            correlation_id: meta.correlation_id,
            attachment_size: meta.attachment_size,
        }
    }

    /// Reads the meta that these bytes are.
    ///
    /// The last occurrence of a number or of bytes counts, occurrences of a request are merged and so are those
    /// of a response, and a known field of another wire type is skipped like an unknown one. Faults come in the
    /// order of [`MetaFault`]: first the whole wire form, messages inside it where they stand.
    #[inline(always)]
    pub fn read(bytes: &[u8]) -> Result<MetaView<'_>, MetaFault>
        ensures { answer_as viewed result ≡ Some (read_meta bytes.now) }
    {
        let parts = gather_parts(bytes)?;
        if parts.request.is_none() && parts.response.is_none() {
            return Err(MetaFault::Neither);
        }
        let request = view_request(parts.request)?;
        let response = view_response(parts.response);
        Ok(MetaView {
            request,
            response,
            compress_type: low_signed(parts.compress_type),
            correlation_id: parts.correlation_id,
            attachment_size: low_signed(parts.attachment_size),
        })
    }
}

// The request of a meta.
fn request_in(request: &Option<RequestMeta>) -> Option<RequestView<'_>>
    ensures { option_map request_viewed result ≡ option_map request_of request.now }
{
    let request = request.as_ref()?;
    Some(RequestView {
        service: request.service.as_slice(),
        method: request.method.as_slice(),
        log_id: request.log_id,
    })
}

// The response of a meta.
fn response_in(response: &Option<ResponseMeta>) -> Option<ResponseView<'_>>
    ensures { option_map response_viewed result ≡ option_map response_of response.now }
{
    let response = response.as_ref()?;
    Some(ResponseView {
        code: response.code,
        text: response.text.as_slice(),
    })
}

// A request must have its service, and then its method.
#[inline(always)]
fn view_request(parts: Option<RequestParts<'_>>) -> Result<Option<RequestView<'_>>, MetaFault>
    ensures { answer_as (option_map request_viewed) result ≡ Some (request_from (option_map names_of parts.entry)) }
{
    let Some(parts) = parts else {
        return Ok(None);
    };
    let Some(service) = parts.service else {
        return Err(MetaFault::NoService);
    };
    let Some(method) = parts.method else {
        return Err(MetaFault::NoMethod);
    };
    Ok(Some(RequestView {
        service,
        method,
        log_id: parts.log_id,
    }))
}

// A response with its code and its text.
#[inline(always)]
fn view_response(parts: Option<ResponseParts<'_>>) -> Option<ResponseView<'_>>
    ensures { option_map response_viewed result ≡ option_map response_from (option_map outcome_of parts.entry) }
{
    let parts = parts?;
    Some(ResponseView {
        code: low_signed(parts.code),
        text: parts.text,
    })
}

// An int32: the low 32 bits of its varint, signed.
#[inline(always)]
fn low_signed(number: u64) -> i32
    ensures { result ≡ int32 number }
{
    ((number % 0x1_0000_0000) as u32).cast_signed()
}
