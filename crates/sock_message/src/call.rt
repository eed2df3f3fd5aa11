ghost use Rattle.std.specs.Prelude.{◌≡◌, IfOk};
ghost use Rattle.sock_message.specs.InsideMessages.{LiesInBlocks};

use io_buf::{BlockPool, IoBuf, NoMemory};
use std::alloc::Global;
use std::marker::Model;
use std::sync::Arc;

/// A call, as its client asks for it (bRPC's bthread_id.md). It is handed from thread to thread with the lock of its id, so
/// all but two of its numbers lie in memory of their own, over which an equal call may be. Contracts see what is asked.
#[derive(Drop)]
pub struct Call {
    /// The number of its operation in the script.
    pub operation: u16,
    /// How many versions its id has: one for the whole call and one for each attempt, 2 to 8.
    pub range: u8,
    body: Arc<Body, Global>,
}

// What is asked of whom.
#[derive(Drop)]
struct Body {
    // The numbers of the names to which its attempts go in turn: one, or two.
    names: Vec<u16>,
    // At most 64 bytes each.
    service: Vec<u8>,
    method: Vec<u8>,
    // In blocks of 8,192 bytes from its start, as its attachment; at most 65,280 bytes both together.
    payload: IoBuf,
    attachment: IoBuf,
}

impl Model for Call {
    ghost use Rattle.std.specs.Arc.{arc_value};
    ghost use Rattle.sock_message.specs.Asked.{Asked};
    ghost use Rattle.sock_message.specs.InsideMessages.{KeepsLimits, LiesInBlocks};

    ghost Value = { Asked };

    ghost view = { λ c. record {
      operation = c.operation;
      names = (arc_value c.body).names.items;
      service = (arc_value c.body).service.items;
      method = (arc_value c.body).method.items;
      payload = (arc_value c.body).payload.items;
      attachment = (arc_value c.body).attachment.items;
      range = c.range;
    } };

    ghost invariant = { λ c. KeepsLimits (record { operation = c.operation; names = (arc_value c.body).names.items; service = (arc_value c.body).service.items; method = (arc_value c.body).method.items; payload = (arc_value c.body).payload.items; attachment = (arc_value c.body).attachment.items; range = c.range }) × LiesInBlocks (arc_value c.body).payload × LiesInBlocks (arc_value c.body).attachment };
}

impl Call {
    ghost use Rattle.sock_message.specs.Asked.{name_of};
    ghost use Rattle.sock_message.specs.InsideMessages.{KeepsLimits};

    /// The call that asks this. The bytes of its payload and of its attachment are copied once, into blocks of the pool.
    pub fn new(
        alloc: Global,
        pool: &mut BlockPool,
        operation: u16,
        names: Vec<u16>,
        service: &[u8],
        method: &[u8],
        payload: &[u8],
        attachment: &[u8],
        range: u8,
    ) -> Result<Call, NoMemory>
        requires { KeepsLimits (record { operation = operation; names = names.items; service = service.now; method = method.now; payload = payload.now; attachment = attachment.now; range = range }) }
        ensures { IfOk result (λ c. c ≡ record { operation = operation; names = names.items; service = service.now; method = method.now; payload = payload.now; attachment = attachment.now; range = range }) }
    {
        let body = Body {
            names,
            service: Vec::from_slice(alloc, service)?,
            method: Vec::from_slice(alloc, method)?,
            payload: in_blocks(alloc, pool, payload)?,
            attachment: in_blocks(alloc, pool, attachment)?,
        };
        Ok(Call {
            operation,
            range,
            body: Arc::new(alloc, body)?,
        })
    }

    /// An equal call, over the same memory.
    pub fn share(&self) -> Result<Call, NoMemory>
        ensures { IfOk result (λ c. c ≡ self.now) }
    {
        let body = Arc::try_clone(&self.body)?;
        Ok(Call {
            operation: self.operation,
            range: self.range,
            body,
        })
    }

    /// The service's name, at most 64 bytes.
    pub fn service(&self) -> &[u8]
        ensures { result.now ≡ self.now.service }
    {
        self.body.service.as_slice()
    }

    /// The method's name, at most 64 bytes.
    pub fn method(&self) -> &[u8]
        ensures { result.now ≡ self.now.method }
    {
        self.body.method.as_slice()
    }

    /// In blocks of 8,192 bytes from its start, as its attachment.
    pub fn payload(&self) -> &IoBuf
        ensures bytes { result.now.items ≡ self.now.payload }
        ensures blocks { LiesInBlocks result.now }
    {
        &self.body.payload
    }

    /// At most 65,280 bytes together with the payload.
    pub fn attachment(&self) -> &IoBuf
        ensures bytes { result.now.items ≡ self.now.attachment }
        ensures blocks { LiesInBlocks result.now }
    {
        &self.body.attachment
    }

    /// The number of the name to which an attempt goes, which is counted from 0: of two names they take turns.
    pub fn name(&self, attempt: u8) -> u16
        ensures name { result ≡ name_of self.now attempt }
        ensures limits { KeepsLimits self.now }
    {
        let names = &self.body.names;
        if names.len() == 1 || attempt % 2 == 0 {
            names[0]
        } else {
            names[1]
        }
    }
}

// A buffer of these bytes, in blocks from its start.
pub(crate) fn in_blocks(
    alloc: Global,
    pool: &mut BlockPool,
    bytes: &[u8],
) -> Result<IoBuf, NoMemory>
    ensures bytes { IfOk result (λ b. b.items ≡ bytes.now) }
    ensures blocks { IfOk result LiesInBlocks }
{
    let mut buf = IoBuf::new(alloc);
    match buf.append_bytes(pool, bytes) {
        Ok(()) => Ok(buf),
        Err(fault) => {
            drop(buf);
            Err(fault)
        }
    }
}
