ghost use Rattle.std.specs.Prelude.{◌≡◌, ◌↔◌, ℕ, List, ◌<◌, ◌≤◌, length, slice_range, Ok, Some, None, IfOk, IfSome};
ghost use Rattle.brpc_model.specs.Wire.{Field as WireField};
ghost use Rattle.pb_wire.specs.WireCallAnswers.{field_in, answer_in, IsBefore};
ghost use Rattle.pb_wire.specs.Form.{IsField, IsMessage};
ghost use Rattle.pb_wire.specs.FieldReader.{ahead, behind, sizeless, left, in_front};

use crate::fault::WireFault;
use crate::values::{Field, read_field};
use std::marker::Model;

/// The fields of a message, one after another.
///
/// After a fault it answers that fault for good. Contracts see where it stands, as a `Reading`.
#[derive(Drop)]
pub struct Fields<'a> {
    bytes: &'a [u8],
    at: usize,
    end: usize,
    fault: Option<WireFault>,
}

impl<'a> Model for Fields<'a> {
    ghost use Rattle.std.specs.Prelude.{◌≤◌, length, option_map};
    ghost use Rattle.pb_wire.specs.WireCallAnswers.{fault_of};
    ghost use Rattle.pb_wire.specs.FieldReader.{Reading};

    ghost Value = { Reading };

    ghost view = { λ s. record { bytes = s.bytes.now; at = s.at; end = s.end; fault = option_map fault_of s.fault } };

    ghost invariant = { λ s. (s.at ≤ s.end) × (s.end ≤ length s.bytes.now) };
}

impl<'a> Fields<'a> {
    /// The fields of the message that these bytes are.
    pub fn new(bytes: &'a [u8]) -> Fields<'a>
        ensures place { result ≡ record { bytes = bytes.now; at = 0; end = length bytes.now; fault = None } }
        ensures spelled { (fs : List WireField) → (left result ≡ Ok fs) ↔ IsMessage 0 bytes.now fs }
    {
        Fields {
            bytes,
            at: 0,
            end: bytes.len(),
            fault: None,
        }
    }

    /// The fields of the message that stands in `bytes` from `from` up to `to`, as a `Span` names it.
    ///
    /// Places are still counted from the start of `bytes`.
    pub fn within(bytes: &'a [u8], from: usize, to: usize) -> Fields<'a>
        requires from_in { from ≤ to }
        requires to_in { to ≤ length bytes.now }
        ensures place { result ≡ record { bytes = bytes.now; at = from; end = to; fault = None } }
        ensures spelled { (fs : List WireField) → (left result ≡ Ok fs) ↔ IsMessage from (slice_range bytes.now from to) fs }
    {
        Fields {
            bytes,
            at: from,
            end: to,
            fault: None,
        }
    }

    /// The next field, or `None` at the message's end.
    ///
    /// A fault is that of the key first, then that of the value; once met it is answered for good.
    #[inline]
    pub fn next(&mut self) -> Result<Option<Field>, WireFault>
        ensures exact { answer_in self.old.bytes result ≡ sizeless (ahead self.old) }
        ensures place { self.new ≡ behind self.old (ahead self.old) }
        ensures message { (self.new.bytes ≡ self.old.bytes) × (self.new.end ≡ self.old.end) }
        ensures rest { left self.old ≡ in_front (answer_in self.old.bytes result) (left self.new) }
        ensures spelled { IfOk result (λ f. IfSome f (λ f. IsField self.old.at (slice_range self.old.bytes self.old.at self.new.at) (field_in self.old.bytes f))) }
        ensures each { (f : WireField) (to : ℕ) → self.old.fault ≡ None → self.old.at ≤ to → to ≤ self.old.end → IsField self.old.at (slice_range self.old.bytes self.old.at to) f → (answer_in self.old.bytes result ≡ Ok (Some f)) × (self.new.at ≡ to) }
        ensures within { IfOk result (λ f. IfSome f (λ f. (self.old.at < self.new.at) × (self.new.at ≤ self.new.end) × (self.new.end ≤ length self.new.bytes) × IsBefore self.new.at f.value)) }
    {
        if let Some(fault) = self.fault {
            return Err(fault);
        }
        if self.at == self.end {
            return Ok(None);
        }
        match read_field(&self.bytes[..self.end], self.at) {
            Ok((field, next)) => {
                self.at = next;
                Ok(Some(field))
            }
            Err(fault) => {
                self.fault = Some(fault);
                Err(fault)
            }
        }
    }
}
