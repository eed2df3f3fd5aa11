ghost use Rattle.std.specs.Prelude.{◌≡◌, length};
ghost use Rattle.pb_wire.specs.WireCallAnswers.{field_in, IsBefore};
ghost use Rattle.pb_wire.specs.brpc_model.specs.Wire.{Field as WireField};

use pb_wire::{Field, Value};

/// The last occurrences of a request's fields, so far.
#[derive(Clone, Copy)]
pub struct RequestParts<'a> {
    /// The service's name, where it came.
    pub service: Option<&'a [u8]>,
    /// The method's name, where it came.
    pub method: Option<&'a [u8]>,
    /// An id for logs, where it came.
    pub log_id: Option<u64>,
}

/// The last occurrences of a response's fields, so far; none is 0 or empty.
#[derive(Clone, Copy)]
pub struct ResponseParts<'a> {
    /// The error code, as its varint.
    pub code: u64,
    /// The error's text.
    pub text: &'a [u8],
}

/// The parts of a meta, so far; occurrences of a request are merged, and so are those of a response.
#[derive(Clone, Copy)]
pub struct MetaParts<'a> {
    /// The request, where one came.
    pub request: Option<RequestParts<'a>>,
    /// The response, where one came.
    pub response: Option<ResponseParts<'a>>,
    /// How the payload is compressed, as its varint.
    pub compress_type: u64,
    /// The correlation id.
    pub correlation_id: u64,
    /// The attachment's size, as its varint.
    pub attachment_size: u64,
}

/// The last occurrences of the fields of a message inside a meta, so far.
pub trait Gathering<'a>: Copy {
    /// What they come to.
    ghost Said: { Type 0 };

    ghost said: { Self → Said };

    ghost nothing: { Said };

    ghost added: { Said → WireField → Said };

    /// No field came yet.
    fn none() -> Self
        ensures { said result ≡ nothing };

    /// Adds a field whose places are in `bytes`.
    fn add(self, bytes: &'a [u8], field: Field) -> Self
        requires { IsBefore (length bytes.now) field.value }
        ensures { said result ≡ added (said self) (field_in bytes.now field) };
}

impl<'a> Gathering<'a> for RequestParts<'a> {
    ghost use Rattle.rpc_meta.specs.Gathered.{Names, no_names, name_added};
    ghost use Rattle.rpc_meta.specs.MetaParts.{names_of};

    ghost Said = { Names };

    ghost said = { names_of };

    ghost nothing = { no_names };

    ghost added = { name_added };

    fn none() -> RequestParts<'a> {
        RequestParts {
            service: None,
            method: None,
            log_id: None,
        }
    }

    fn add(mut self, bytes: &'a [u8], field: Field) -> RequestParts<'a> {
        match (field.number, field.value) {
            (1, Value::Span(from, to)) => self.service = Some(&bytes[from..to]),
            (2, Value::Span(from, to)) => self.method = Some(&bytes[from..to]),
            (3, Value::Varint(number)) => self.log_id = Some(number),
            _ => {}
        }
        self
    }
}

impl<'a> Gathering<'a> for ResponseParts<'a> {
    ghost use Rattle.rpc_meta.specs.Gathered.{Outcome, no_outcome, outcome_added};
    ghost use Rattle.rpc_meta.specs.MetaParts.{outcome_of};

    ghost Said = { Outcome };

    ghost said = { outcome_of };

    ghost nothing = { no_outcome };

    ghost added = { outcome_added };

    fn none() -> ResponseParts<'a> {
        ResponseParts { code: 0, text: &[] }
    }

    fn add(mut self, bytes: &'a [u8], field: Field) -> ResponseParts<'a> {
        match (field.number, field.value) {
            (1, Value::Varint(number)) => self.code = number,
            (2, Value::Span(from, to)) => self.text = &bytes[from..to],
            _ => {}
        }
        self
    }
}
