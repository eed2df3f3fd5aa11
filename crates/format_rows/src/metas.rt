//! Metas.
use rpc_meta::{FRONT_BYTES, Front, MetaFault, RequestMeta, ResponseMeta, RpcMeta};
use std::alloc::{AllocError, Global};

/// Bytes in hexadecimal, `-` for none.
pub fn digits(alloc: Global, bytes: &[u8]) -> Result<String, AllocError> {
    if bytes.is_empty() {
        return String::from_str(alloc, "-");
    }
    hex::encode(alloc, bytes)
}

fn request_text(alloc: Global, request: &Option<RequestMeta>) -> Result<String, AllocError> {
    match request {
        Some(request) => {
            let service = digits(alloc, request.service.as_slice())?;
            let method = digits(alloc, request.method.as_slice())?;
            let log = request.log_id;
            format!(in alloc; "request {service} {method} {log:?}")
        }
        None => String::from_str(alloc, "no request"),
    }
}

fn response_text(alloc: Global, response: &Option<ResponseMeta>) -> Result<String, AllocError> {
    match response {
        Some(response) => {
            let text = digits(alloc, response.text.as_slice())?;
            let code = response.code;
            format!(in alloc; "response {code} {text}")
        }
        None => String::from_str(alloc, "no response"),
    }
}

/// All of a meta.
pub fn meta_text(alloc: Global, meta: &RpcMeta) -> Result<String, AllocError> {
    let request = request_text(alloc, &meta.request)?;
    let response = response_text(alloc, &meta.response)?;
    let (compress, id) = (meta.compress_type, meta.correlation_id);
    let attachment = meta.attachment_size;
    format!(in alloc; "{request}, {response}, compress {compress} id {id} attachment {attachment}")
}

/// Whether the meta is spelled in place as these bytes.
fn is_spelled_so(meta: &RpcMeta, bytes: &[u8]) -> bool {
    let Some(sizes) = meta.sizes() else {
        return false;
    };
    if sizes.all > FRONT_BYTES {
        return false;
    }
    let mut front = Front::new();
    meta.spell_to(sizes, &mut front);
    front.as_slice() == bytes
}

/// How it is written.
fn written(alloc: Global, meta: &RpcMeta) -> Result<Vec<u8>, AllocError> {
    let mut out = Vec::new(alloc);
    match meta.write_to(&mut out) {
        Ok(()) => Ok(out),
        Err(_) => Err(AllocError),
    }
}

/// Whether it tells that it takes so many bytes.
fn has_size(meta: &RpcMeta, size: usize) -> bool {
    meta.spelled_size() == Some(size)
}

/// What is read, whether it is written and spelled in place as it was, and whether the size told is that of what is written.
fn read_said(alloc: Global, meta: &RpcMeta, bytes: &[u8]) -> Result<String, AllocError> {
    let text = meta_text(alloc, meta)?;
    let out = written(alloc, meta)?;
    let is_written = out.as_slice() == bytes;
    let is_size = has_size(meta, out.len());
    let is_spelled = is_spelled_so(meta, bytes);
    format!(in alloc; "{text}; written so {is_written}, spelled so {is_spelled}, size {is_size}")
}

/// What stands in the bytes.
fn meta_of(alloc: Global, bytes: &[u8]) -> Result<RpcMeta, MetaFault> {
    RpcMeta::read(alloc, bytes)
}

/// A meta of these bytes, or what is wrong.
pub fn meta_said(alloc: Global, bytes: &[u8]) -> Result<String, AllocError> {
    match meta_of(alloc, bytes) {
        Ok(meta) => read_said(alloc, &meta, bytes),
        Err(fault) => format!(in alloc; "{fault:?}"),
    }
}
