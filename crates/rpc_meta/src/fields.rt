ghost use Rattle.std.specs.Prelude.{◌≡◌, ℕ, ◌+◌, ◌^◌, ◌≤◌, List, ◌++◌, length, Some, IfSome, IfNone, OnOk};
ghost use Rattle.pb_wire.specs.brpc_model.specs.Spelling.{request_bytes, response_bytes};
ghost use Rattle.rpc_meta.specs.MetaMeaning.{request_of, response_of};
ghost use Rattle.rpc_meta.specs.MetaWriting.{Appends, RequestFits, ResponseFits};

use crate::front::{FRONT_BYTES, Front};
use crate::meta::{RequestMeta, ResponseMeta};
use crate::spell::{spell_name, spell_number, spell_text};
use crate::write::{
    append_bytes, append_number, append_text, bytes_size, number_size, spelled, text_size,
};
use pb_wire::NoMemory;

/// A request or a response, as it is written inside a meta.
pub trait MetaPart {
    /// What it says.
    ghost Said: { Type 0 };

    ghost said: { Self → Said };

    /// Its fields.
    ghost bytes: { Said → List ℕ };

    /// Its numbers fit their types.
    ghost Fits: { Said → Type 0 };

    /// How many bytes its fields have: none only where 64 bits don't hold that many.
    fn fields_size(&self) -> Option<usize>
        ensures size { IfSome result (λ n. n ≡ length (bytes (said self.now))) }
        ensures none { IfNone result (2 ^ 64 ≤ length (bytes (said self.now))) };

    /// Appends its fields.
    fn append_fields(&self, out: &mut Vec<u8>) -> Result<(), NoMemory>
        ensures written { Appends out.old.items (bytes (said self.now)) result out.new.items }
        ensures fits { OnOk result (Fits (said self.now)) };

    /// Spells its fields in place.
    fn spell_fields(&self, out: &mut Front)
        requires { length out.old + length (bytes (said self.now)) ≤ FRONT_BYTES }
        ensures exact { out.new ≡ out.old ++ bytes (said self.now) }
        ensures fits { Fits (said self.now) };
}

impl MetaPart for RequestMeta {
    ghost use Rattle.pb_wire.specs.brpc_model.specs.Meta.{RequestMeta as RequestSaid};

    ghost Said = { RequestSaid };

    ghost said = { request_of };

    ghost bytes = { request_bytes };

    ghost Fits = { λ r. RequestFits (Some r) };

    fn fields_size(&self) -> Option<usize> {
        let service = bytes_size(1, self.service.as_slice().len())?;
        let method = bytes_size(2, self.method.as_slice().len())?;
        let log_id = match self.log_id {
            Some(log_id) => number_size(3, log_id),
            None => 0,
        };
        service.checked_add(method)?.checked_add(log_id)
    }

    fn append_fields(&self, out: &mut Vec<u8>) -> Result<(), NoMemory> {
        append_bytes(1, self.service.as_slice(), out)?;
        append_bytes(2, self.method.as_slice(), out)?;
        if let Some(log_id) = self.log_id {
            append_number(3, log_id, out)?;
        }
        Ok(())
    }

    fn spell_fields(&self, out: &mut Front) {
        spell_name(1, &self.service, out);
        spell_name(2, &self.method, out);
        if let Some(log_id) = self.log_id {
            spell_number(3, log_id, out);
        }
    }
}

impl MetaPart for ResponseMeta {
    ghost use Rattle.pb_wire.specs.brpc_model.specs.Meta.{ResponseMeta as ResponseSaid};

    ghost Said = { ResponseSaid };

    ghost said = { response_of };

    ghost bytes = { response_bytes };

    ghost Fits = { λ r. ResponseFits (Some r) };

    fn fields_size(&self) -> Option<usize> {
        let code = number_size(1, spelled(self.code));
        let text = text_size(2, self.text.as_slice())?;
        code.checked_add(text)
    }

    fn append_fields(&self, out: &mut Vec<u8>) -> Result<(), NoMemory> {
        append_number(1, spelled(self.code), out)?;
        append_text(2, self.text.as_slice(), out)
    }

    fn spell_fields(&self, out: &mut Front) {
        spell_number(1, spelled(self.code), out);
        spell_text(2, self.text.as_slice(), out);
    }
}
