/// How many bytes a meta has, and the fields of its request and of its response.
#[derive(Clone, Copy)]
pub struct MetaSizes {
    /// Those of the whole meta.
    pub all: usize,
    /// Those of the request's fields, where there is one.
    pub request: usize,
    /// Those of the response's fields, where there is one.
    pub response: usize,
}
