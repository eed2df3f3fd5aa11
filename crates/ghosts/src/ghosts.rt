ghost use Rattle.std.specs.Prelude.{◌≡◌, List};
ghost use base.Stored.{coded_list};
ghost use Rattle.std.specs.Borrow.{ftrue};

use std::marker::{Model, PhantomData};

/// It has no bytes.
pub struct Ghosts<V> {
    marker: PhantomData<V>,
    pub ghost list: { List V } by { coded_list V.code },
}

impl<V> Model for Ghosts<V> {
    ghost also_owns = { λ _. ftrue };
}

impl<V> Ghosts<V> {
    /// The list is what the caller's proof says, of what `by` shows.
    pub fn of<X>(by: &X) -> Ghosts<V>
        ghost next: { List V }
        ensures { result.list ≡ next }
    {
        let _ = by;
        Ghosts {
            marker: PhantomData,
        }
    }
}

impl<V> Drop for Ghosts<V> {
    fn drop(self) {
        let Self { marker: _ } = self;
    }
}

unsafe impl<V> Send for Ghosts<V> {}

unsafe impl<V> Sync for Ghosts<V> {}
