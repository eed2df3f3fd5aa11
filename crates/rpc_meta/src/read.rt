ghost use Rattle.std.specs.Prelude.{◌≡◌, IfOk, IfSome, option_map};
ghost use Rattle.pb_wire.specs.brpc_model.specs.Meta.{read_meta};
ghost use Rattle.rpc_meta.specs.Answer.{answer_as};
ghost use Rattle.rpc_meta.specs.MetaMeaning.{request_of, response_of, meaning};
ghost use Rattle.rpc_meta.specs.ViewedMeta.{viewed};

use crate::fault::MetaFault;
use crate::meta::{MetaBytes, RequestMeta, ResponseMeta, RpcMeta};
use crate::view::MetaView;
use std::alloc::{AllocError, Global};

impl RpcMeta {
    /// Reads the meta that these bytes are, as [`MetaView::read`] does, and copies its names and its text.
    /// Only `NoMemory` may come at any time.
    #[inline(always)]
    pub fn read(alloc: Global, bytes: &[u8]) -> Result<RpcMeta, MetaFault>
        ensures { IfSome (answer_as meaning result) (λ read. read ≡ read_meta bytes.now) }
    {
        let view = MetaView::read(bytes)?;
        let request = copy_request(alloc, view)?;
        let response = copy_response(alloc, view)?;
        Ok(RpcMeta {
            request,
            response,
            compress_type: view.compress_type,
            correlation_id: view.correlation_id,
            attachment_size: view.attachment_size,
        })
    }
}

// The request of a view, with names of its own.
#[inline(always)]
fn copy_request(alloc: Global, view: MetaView<'_>) -> Result<Option<RequestMeta>, AllocError>
    ensures { IfOk result (λ copied. option_map request_of copied ≡ (viewed view.entry).request) }
{
    match view.request {
        Some(request) => Ok(Some(RequestMeta {
            service: MetaBytes::copy(alloc, request.service)?,
            method: MetaBytes::copy(alloc, request.method)?,
            log_id: request.log_id,
        })),
        None => Ok(None),
    }
}

// The response of a view, with a text of its own.
#[inline(always)]
fn copy_response(alloc: Global, view: MetaView<'_>) -> Result<Option<ResponseMeta>, AllocError>
    ensures { IfOk result (λ copied. option_map response_of copied ≡ (viewed view.entry).response) }
{
    match view.response {
        Some(response) => Ok(Some(ResponseMeta {
            code: response.code,
            text: MetaBytes::copy(alloc, response.text)?,
        })),
        None => Ok(None),
    }
}
