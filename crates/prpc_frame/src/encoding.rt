ghost use Rattle.std.specs.Prelude.{◌≡◌, ℕ, List, [], ◌+◌, ◌-◌, ◌≤◌, ◌∷◌, ◌++◌, pos, length, All, Ok, IfOk, OnOk};
ghost use Rattle.io_buf.specs.Buffer.{block_sizes, IsSize};
ghost use Rattle.std.specs.Int.{w32, to_be_bytes};
ghost use Rattle.rpc_meta.specs.brpc_model.specs.Frame.{Frame as ModelFrame, IsFrame, Begins, magic, body_limit, frame_bytes, judged};
ghost use Rattle.rpc_meta.specs.brpc_model.specs.Meta.{read_meta};
ghost use Rattle.rpc_meta.specs.brpc_model.specs.Spelling.{meta_bytes};
ghost use Rattle.rpc_meta.specs.MetaMeaning.{meaning};
ghost use Rattle.rpc_meta.specs.MetaSizes.{AreSizes};
ghost use Rattle.rpc_meta.specs.MetaWriting.{HasPart};
ghost use Rattle.prpc_frame.specs.FrameMeaning.{frame_with};

use crate::header::MAGIC;
use io_buf::{BLOCK_BYTES, BlockPool, IoBuf, NoMemory};
use rpc_meta::{FRONT_BYTES, Front, MetaSizes, RpcMeta};
use std::alloc::Global;

/// Writes a frame (brpc's baidu_std.md). The payload and the attachment are shared, not copied.
/// Header and meta are spelled in place up to 128 bytes, and in the pool's scratch memory above, so in
/// a stream of frames no call takes memory but for a block, and once for more than two references.
///
/// The meta's attachment_size is the attachment's length, the meta has a request or a response, and
/// the body has at most 67,108,864 bytes.
#[inline(always)]
pub fn encode(
    alloc: Global,
    pool: &mut BlockPool,
    meta: &RpcMeta,
    payload: &IoBuf,
    attachment: &IoBuf,
) -> Result<IoBuf, NoMemory>
    requires sized { meta.now.attachment_size ≡ pos (length attachment.now.items) }
    requires part { HasPart (meaning meta.now) }
    requires small { length (meta_bytes (meaning meta.now)) + length payload.now.items + length attachment.now.items ≤ body_limit }
    ensures bytes { IfOk result (λ b. b.items ≡ frame_bytes (frame_with (meaning meta.now) payload.now.items attachment.now.items)) }
    ensures frame { IfOk result (λ b. IsFrame b.items (frame_with (meaning meta.now) payload.now.items attachment.now.items)) }

    // It is taken for this frame and for no other, whatever stands behind it.
    ensures only { IfOk result (λ b. (more : List ℕ) →
        judged (b.items ++ more) ≡ Begins (frame_with (meaning meta.now) payload.now.items attachment.now.items) (length b.items - 12)) }

    // Header and meta are one reference up to 8,192 bytes, and the others are those of the payload
    // and then those of the attachment. None is empty.
    ensures sizes { IfOk result (λ b. b.sizes ≡ block_sizes (12 + length (meta_bytes (meaning meta.now))) ++ payload.now.sizes ++ attachment.now.sizes) }
    ensures head { IfOk result (λ b. 12 + length (meta_bytes (meaning meta.now)) ≤ BLOCK_BYTES
        → b.sizes ≡ (12 + length (meta_bytes (meaning meta.now))) ∷ payload.now.sizes ++ attachment.now.sizes) }
    ensures each { IfOk result (λ b. All IsSize b.sizes) }
{
    let mut frame = IoBuf::new(alloc);
    append_front(&mut frame, pool, meta, payload.len() + attachment.len())?;
    append_shared(&mut frame, payload)?;
    append_shared(&mut frame, attachment)?;
    let _ = frame.refs();
    Ok(frame)
}

/// No frame is a proper part of another from the start: of two with which some bytes begin each is
/// the other.
pub fn begins_with_one_frame()
    ensures { (bytes others more rest : List ℕ) (f g : ModelFrame) → IsFrame bytes f → IsFrame others g → bytes ++ more ≡ others ++ rest
        → (bytes ≡ others) × (f ≡ g) }
{}

// Appends the header and the meta to an empty buffer, before so many bytes of payload and attachment.
// The meta's size is counted first, since it stands before it. Few bytes are spelled in place.
#[inline(never)]
fn append_front(
    frame: &mut IoBuf,
    pool: &mut BlockPool,
    meta: &RpcMeta,
    behind: usize,
) -> Result<(), NoMemory>
    requires empty { frame.old.items ≡ [] }
    requires part { HasPart (meaning meta.now) }
    requires small { length (meta_bytes (meaning meta.now)) + behind ≤ body_limit }
    ensures front { OnOk result (frame.new.items ≡ magic ++ to_be_bytes w32 (length (meta_bytes (meaning meta.now)) + behind) ++ to_be_bytes w32 (length (meta_bytes (meaning meta.now))) ++ meta_bytes (meaning meta.now)) }
    ensures sizes { OnOk result (frame.new.sizes ≡ block_sizes (12 + length (meta_bytes (meaning meta.now)))) }
    ensures reads_back { OnOk result (read_meta (meta_bytes (meaning meta.now)) ≡ Ok (meaning meta.now)) }
{
    // The body's limit is below what 64 bits hold.
    let Some(sizes) = meta.sizes() else {
        unreachable!();
    };
    if sizes.all <= FRONT_BYTES - 12 {
        let mut front = Front::new();
        spell_front(&mut front, meta, sizes, behind);
        return frame.append_bytes(pool, front.as_slice());
    }
    append_long(frame, pool, meta, sizes.all, behind)
}

// As `append_front`, of a meta of this size, by way of memory.
#[inline(never)]
fn append_long(
    frame: &mut IoBuf,
    pool: &mut BlockPool,
    meta: &RpcMeta,
    size: usize,
    behind: usize,
) -> Result<(), NoMemory>
    requires empty { frame.old.items ≡ [] }
    requires part { HasPart (meaning meta.now) }
    requires size { size ≡ length (meta_bytes (meaning meta.now)) }
    requires small { length (meta_bytes (meaning meta.now)) + behind ≤ body_limit }
    ensures front { OnOk result (frame.new.items ≡ magic ++ to_be_bytes w32 (length (meta_bytes (meaning meta.now)) + behind) ++ to_be_bytes w32 (length (meta_bytes (meaning meta.now))) ++ meta_bytes (meaning meta.now)) }
    ensures sizes { OnOk result (frame.new.sizes ≡ block_sizes (12 + length (meta_bytes (meaning meta.now)))) }
    ensures reads_back { OnOk result (read_meta (meta_bytes (meaning meta.now)) ≡ Ok (meaning meta.now)) }
{
    let mut front = pool.lend_scratch();
    spell_long(&mut front, meta, size, behind)?;
    frame.append_bytes(pool, &front)?;
    pool.keep_scratch(front);
    Ok(())
}

// Spells the header and the meta in place.
fn spell_front(front: &mut Front, meta: &RpcMeta, sizes: MetaSizes, behind: usize)
    requires empty { front.old ≡ [] }
    requires part { HasPart (meaning meta.now) }
    requires sizes { AreSizes sizes (meaning meta.now) }
    requires room { 12 + sizes.all ≤ FRONT_BYTES }
    requires small { length (meta_bytes (meaning meta.now)) + behind ≤ body_limit }
    ensures front { front.new ≡ magic ++ to_be_bytes w32 (length (meta_bytes (meaning meta.now)) + behind) ++ to_be_bytes w32 (length (meta_bytes (meaning meta.now))) ++ meta_bytes (meaning meta.now) }
    ensures reads_back { read_meta (meta_bytes (meaning meta.now)) ≡ Ok (meaning meta.now) }
{
    put_header(sizes.all, behind, front);
    meta.spell_to(sizes, front);
}

// Spells the header in place, before a meta of this size and so many bytes of payload and attachment.
fn put_header(size: usize, behind: usize, front: &mut Front)
    requires empty { front.old ≡ [] }
    requires small { size + behind ≤ body_limit }
    ensures { front.new ≡ magic ++ to_be_bytes w32 (size + behind) ++ to_be_bytes w32 size }
{
    let meta_bytes = size as u32;
    let body_bytes = (size + behind) as u32;
    front.extend(&MAGIC);
    front.extend(&body_bytes.to_be_bytes());
    front.extend(&meta_bytes.to_be_bytes());
}

// Spells the header and a meta of this size in memory.
fn spell_long(
    front: &mut Vec<u8>,
    meta: &RpcMeta,
    size: usize,
    behind: usize,
) -> Result<(), NoMemory>
    requires part { HasPart (meaning meta.now) }
    requires size { size ≡ length (meta_bytes (meaning meta.now)) }
    requires small { length (meta_bytes (meaning meta.now)) + behind ≤ body_limit }
    ensures front { OnOk result (front.new.items ≡ magic ++ to_be_bytes w32 (length (meta_bytes (meaning meta.now)) + behind) ++ to_be_bytes w32 (length (meta_bytes (meaning meta.now))) ++ meta_bytes (meaning meta.now)) }
    ensures reads_back { OnOk result (read_meta (meta_bytes (meaning meta.now)) ≡ Ok (meaning meta.now)) }
{
    spell_header(size, behind, front)?;
    meta.write_to(front)
}

// Spells the header, before a meta of this size and so many bytes of payload and attachment.
fn spell_header(size: usize, behind: usize, front: &mut Vec<u8>) -> Result<(), NoMemory>
    requires { size + behind ≤ body_limit }
    ensures { OnOk result (front.new.items ≡ magic ++ to_be_bytes w32 (size + behind) ++ to_be_bytes w32 size) }
{
    let meta_bytes = size as u32;
    let body_bytes = (size + behind) as u32;
    front.clear();
    front.extend_from_slice(&MAGIC)?;
    front.extend_from_slice(&body_bytes.to_be_bytes())?;
    front.extend_from_slice(&meta_bytes.to_be_bytes())?;
    Ok(())
}

// Appends references to the part's bytes.
#[inline(always)]
fn append_shared(frame: &mut IoBuf, part: &IoBuf) -> Result<(), NoMemory>
    ensures items { OnOk result (frame.new.items ≡ frame.old.items ++ part.now.items) }
    ensures sizes { OnOk result (frame.new.sizes ≡ frame.old.sizes ++ part.now.sizes) }
{
    frame.append_shared(part)
}
