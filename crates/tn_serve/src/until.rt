//! The condition that ends a server before its count.

ghost use Rattle.std.specs.Prelude.{◌≡◌, IsTrue};

/// A condition that ends a server before its count: it is asked whether no more connections are to
/// be accepted, before each of them, and about once a second, in the thread that accepts. Only its
/// answers give the relation `ends`.
pub trait Until {
    // the condition answered that no more are to come
    ghost ends: { Self → Type 0 };

    /// Returns whether no more connections are to come.
    fn is_over(&self) -> bool
        ensures { IsTrue result → ends self.now };
}

/// A condition that is never met: nothing ends a server before its count.
#[derive(Clone, Copy, Drop)]
pub struct Never;

impl Until for Never {
    ghost ends = { λ _. ⊥ };

    fn is_over(&self) -> bool {
        false
    }
}

/// A condition that may be absent. If it is, nothing ends the server before its count.
impl<U: Until> Until for Option<U> {
    ghost use Rattle.tn_serve.specs.Ends.{IfAny};

    ghost ends = { λ until. IfAny U.ends until };

    fn is_over(&self) -> bool {
        match self {
            Some(until) => until.is_over(),
            None => false,
        }
    }
}
