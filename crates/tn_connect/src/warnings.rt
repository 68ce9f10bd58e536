//! The number of warnings to a user, for contracts.

ghost use Rattle.std.specs.Prelude.{◌≡◌, ◌+◌};
ghost use Rattle.tn_connect.specs.Warnings.{count_in};

use std::mem;
use std::snapshot::Snapshot;

/// The number of warnings to a user, as contracts see it. At run time it is one byte long.
#[derive(Drop)]
pub enum Warnings {
    Empty,
    More(Snapshot<Warnings>),
}

impl Warnings {
    /// Makes the count of a user who was not warned yet.
    pub(crate) fn new() -> Warnings
        ensures { count_in result ≡ 0 }
    {
        Warnings::Empty
    }

    // Returns the count with one more warning.
    fn then(self) -> Warnings
        ensures { count_in result ≡ count_in self + 1 }
    {
        let before = Snapshot::of(&self);
        Warnings::More(before)
    }

    /// Counts one more.
    pub(crate) fn add(&mut self)
        ensures { count_in self.new ≡ count_in self.old + 1 }
    {
        *self = mem::replace(self, Warnings::Empty).then();
    }
}
