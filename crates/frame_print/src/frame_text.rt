ghost use Rattle.std.specs.Prelude.{option_map};
ghost use Rattle.brpc_model.specs.Spelling.{where_some};
ghost use Rattle.brpc_model.specs.FramesText.{request_text, response_text, frame_line};
ghost use Rattle.rpc_meta.specs.ViewedMeta.{request_viewed, response_viewed};
ghost use Rattle.frame_print.specs.TextWrittenToSink.{Writes};
ghost use Rattle.frame_print.specs.FrameLineView.{bytes_viewed, frame_viewed};
ghost use Rattle.frame_print.specs.FrameEnd.{numbers_text, bytes_text, end_text};

use crate::piece::{Piece, print_pieces};
use crate::view::{BytesView, FrameView};
use prpc_frame::{RequestView, ResponseView};
use sock_io::{Failed, Sink};

/// Writes the line of a frame. It takes no memory.
#[inline(always)]
pub fn print_frame<K: Sink>(out: &mut K, frame: &FrameView) -> Result<(), Failed>
    ensures { Writes (K.state out.old) (K.state out.new) (frame_line (frame_viewed frame.now)) result }
{
    print_pieces(out, &[Piece::Text(b"frame")])?;
    print_request(out, &frame.meta.request)?;
    print_response(out, &frame.meta.response)?;
    print_end(out, frame)
}

// ` request SERVICE METHOD`, where there is one.
#[inline(always)]
fn print_request<K: Sink>(out: &mut K, request: &Option<RequestView>) -> Result<(), Failed>
    ensures { Writes (K.state out.old) (K.state out.new) (where_some request_text (option_map request_viewed request.now)) result }
{
    let Some(request) = request else {
        return Ok(());
    };
    let service = Piece::Hex(request.service);
    let method = Piece::Hex(request.method);
    print_pieces(
        out,
        &[
            Piece::Text(b" request "),
            service,
            Piece::Text(b" "),
            method,
        ],
    )
}

// ` response CODE TEXT`, where there is one.
#[inline(always)]
fn print_response<K: Sink>(out: &mut K, response: &Option<ResponseView>) -> Result<(), Failed>
    ensures { Writes (K.state out.old) (K.state out.new) (where_some response_text (option_map response_viewed response.now)) result }
{
    let Some(response) = response else {
        return Ok(());
    };
    let code = Piece::Signed(response.code);
    let text = Piece::Hex(response.text);
    print_pieces(
        out,
        &[Piece::Text(b" response "), code, Piece::Text(b" "), text],
    )
}

// What stands behind them.
#[inline(always)]
fn print_end<K: Sink>(out: &mut K, frame: &FrameView) -> Result<(), Failed>
    ensures { Writes (K.state out.old) (K.state out.new) (end_text (frame_viewed frame.now)) result }
{
    print_numbers(out, frame.meta.correlation_id, frame.meta.compress_type)?;
    print_bodies(out, frame.payload, frame.attachment)
}

// ` id N compress Z`.
#[inline(always)]
fn print_numbers<K: Sink>(out: &mut K, id: u64, compress: i32) -> Result<(), Failed>
    ensures { Writes (K.state out.old) (K.state out.new) (numbers_text id compress) result }
{
    let (id, compress) = (Piece::Number(id), Piece::Signed(compress));
    print_pieces(
        out,
        &[
            Piece::Text(b" id "),
            id,
            Piece::Text(b" compress "),
            compress,
        ],
    )
}

// ` payload HEX attachment HEX` and the end of the line.
#[inline(always)]
fn print_bodies<'a, K: Sink>(
    out: &mut K,
    payload: BytesView<'a>,
    attachment: BytesView<'a>,
) -> Result<(), Failed>
    ensures { Writes (K.state out.old) (K.state out.new) (bytes_text (bytes_viewed payload.entry) (bytes_viewed attachment.entry)) result }
{
    print_pieces(
        out,
        &[
            Piece::Text(b" payload "),
            Piece::Bytes(payload),
            Piece::Text(b" attachment "),
            Piece::Bytes(attachment),
            Piece::Text(b"\n"),
        ],
    )
}
