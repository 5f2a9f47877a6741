// The names that a folder was asked for. Proofs alone read them: a value takes no memory, and its methods do nothing when run.

ghost use Rattle.std.specs.Prelude.{◌≡◌, ◌++◌, ◌∷◌, [], List, ℕ};
ghost use Rattle.std.specs.Borrow.{ftrue};

use std::marker::Model;

#[derive(Drop)]
pub(crate) struct Requests {
    ghost names: { List (List ℕ) },
}

impl Model for Requests {
    ghost also_owns = { λ _. ftrue };
}

impl Requests {
    /// Nothing was asked for.
    pub fn none() -> Requests
        ensures { result.names ≡ [] }
    {
        Requests {}
    }

    /// These, and this name after them.
    pub fn and(&self, name: &str) -> Requests
        ensures { result.names ≡ self.now.names ++ name.now ∷ [] }
    {
        Requests {}
    }
}
