use io_buf::IoBuf;
use rpc_meta::RpcMeta;

/// A frame that was cut out of a stream.
#[derive(Drop)]
pub struct Frame {
    /// What the frame is.
    pub meta: RpcMeta,
    /// The body's bytes between the meta and the attachment, in the blocks that were fed.
    pub payload: IoBuf,
    /// The body's last bytes, as many as the meta says, in the blocks that were fed.
    pub attachment: IoBuf,
}
