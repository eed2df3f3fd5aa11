ghost use Rattle.std.specs.Prelude.{◌≡◌, ◌≤◌, length};

use std::marker::Model;

/// So many bytes lie in place.
pub(crate) const MOST_FEW: usize = 40;

/// Few bytes in place, so that they take no memory. Contracts see the bytes.
#[derive(Drop)]
pub(crate) struct Few {
    len: usize,
    room: [u8; MOST_FEW],
}

impl Model for Few {
    ghost use Rattle.std.specs.Prelude.{ℕ, ◌≤◌, List, take};

    ghost Value = { List ℕ };

    ghost view = { λ f. take f.len f.room };

    ghost invariant = { λ f. f.len ≤ 40 };
}

impl Few {
    #[inline(always)]
    pub(crate) fn new(bytes: &[u8]) -> Few
        requires { length bytes.now ≤ 40 }
        ensures { result ≡ bytes.now }
    {
        let len = bytes.len();
        let mut room = [0u8; MOST_FEW];
        room[..len].copy_from_slice(bytes);
        Few { len, room }
    }

    #[inline(always)]
    pub(crate) fn len(&self) -> usize
        ensures { result ≡ length self.now }
    {
        self.len
    }

    #[inline(always)]
    pub(crate) fn as_slice(&self) -> &[u8]
        ensures bytes { result.now ≡ self.now }
        ensures few { length self.now ≤ 40 }
    {
        &self.room[..self.len]
    }
}
