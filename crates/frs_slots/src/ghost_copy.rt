// A value for proofs alone, which may go to any thread.
ghost use Rattle.std.specs.Prelude.{◌≡◌};

use std::marker::{Model, PhantomData};

/// A copy of a value that only contracts see. It takes no bytes and owns nothing, so it may go to any thread,
/// whatever the value is, and what has one beside other things may go wherever these may.
#[derive(Drop)]
pub struct GhostCopy<T> {
    of: PhantomData<T>,
    pub ghost value: { T },
}

impl<T> Model for GhostCopy<T> {
    ghost use Rattle.std.specs.Borrow.{ftrue};

    ghost also_owns = { λ _. ftrue };
}

// It owns nothing.
unsafe impl<T> Send for GhostCopy<T> {}

impl<T> GhostCopy<T> {
    /// The value as it is now.
    pub fn of(value: &T) -> GhostCopy<T>
        ensures { result.value ≡ value.now }
    {
        let _ = value;
        GhostCopy { of: PhantomData }
    }
}
