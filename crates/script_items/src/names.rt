ghost use Rattle.std.specs.Prelude.{◌≡◌, ℕ, List, Option, Some, None, [], ◌∷◌};
ghost use Rattle.script_items.specs.NameList.{name_list};

use crate::line::Name;
use std::marker::Model;

/// The one or two names of a call. Contracts see the list of them.
#[derive(Debug, Drop)]
pub struct Names {
    first: Name,
    second: Option<Name>,
}

impl Model for Names {
    ghost Value = { List (List ℕ) };

    ghost view = { λ n. name_list n.first n.second };
}

impl Names {
    /// The name to which attempts with an even number go, and the one for the others, where there
    /// is one.
    pub fn new(first: Name, second: Option<Name>) -> Self
        ensures { result ≡ name_list first second }
    {
        Names { first, second }
    }

    /// The first name, and the second one where there is one.
    pub fn parts(&self) -> (&Name, Option<&Name>)
        ensures one { result.1 ≡ None → self.now ≡ result.0.now ∷ [] }
        ensures two { (n : _) → result.1 ≡ Some n → self.now ≡ result.0.now ∷ n.now ∷ [] }
    {
        (&self.first, self.second.as_ref())
    }
}
