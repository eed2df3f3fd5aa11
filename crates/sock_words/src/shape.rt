ghost use Rattle.std.specs.Prelude.{◌≡◌};
ghost use Rattle.sock_words.specs.PlainShape.{plain_shape};

/// The shape of a link: how its puts behave, and what stands behind it. Puts are numbered from 1.
#[derive(Clone, Copy, Debug)]
pub struct Shape {
    /// How many bytes a put takes at most. Not 0; 1 to 65,536 in a script.
    pub piece: u32,
    /// Each put whose number this divides answers that it wants to be tried again, unless the one before it did. 0 where
    /// it isn't asked for.
    pub again: u32,
    /// The put from which on all fail. 0 where it isn't asked for.
    pub fail: u32,
    /// Whether the other end is the built-in server.
    pub serve: bool,
    /// After how many responses the server gives its end.
    pub end: Option<u32>,
}

impl Shape {
    /// No shape at all: no put takes less for it, none pauses, none fails, and no server stands behind it.
    pub fn plain() -> Self
        ensures { result ≡ plain_shape }
    {
        Shape {
            piece: u32::MAX,
            again: 0,
            fail: 0,
            serve: false,
            end: None,
        }
    }
}
