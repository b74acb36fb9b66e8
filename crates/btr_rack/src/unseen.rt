// What only clauses see.
ghost use Rattle.std.specs.Prelude.{◌≡◌};
ghost use Rattle.std.specs.Borrow.{ftrue};

use std::marker::{Model, PhantomData};

/// A value that only clauses see, as they see a `T`. It takes no bytes.
#[derive(Drop)]
pub struct Unseen<T> {
    of: PhantomData<T>,
    ghost value: { T },
}

impl<T> Model for Unseen<T> {
    ghost Value = { T };

    ghost view = { λ u. u.value };

    ghost also_owns = { λ _. ftrue };
}

/// What happens to an unseen value: which one comes after it.
pub(crate) trait Change<T> {
    ghost after: { Self → T → T };
}

impl<T> Unseen<T> {
    /// The first value.
    pub(crate) fn new(_first: &T) -> Unseen<T>
        ensures { result ≡ _first.now }
    {
        Unseen { of: PhantomData }
    }

    /// The value that comes after this one.
    pub(crate) fn with<C: Change<T>>(&self, _change: &C) -> Unseen<T>
        ensures { result ≡ C.after _change.now self.now }
    {
        Unseen { of: PhantomData }
    }
}
