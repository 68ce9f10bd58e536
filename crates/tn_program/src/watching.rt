//! A file that ends a server.

ghost use Rattle.std.specs.Prelude.{◌≡◌, IsTrue};

use std::fs;
use std::fs::{File, Files};
use tn_serve::Until;

/// A machine whose files can be looked for. The relation holds of a path at which a file was seen; nothing
/// else gives it. A thread may rest on this trait: it names no types of the files.
pub trait Lookout {
    ghost use Rattle.std.specs.Prelude.{ℕ, List};

    // a file was seen at this path
    ghost sees: { Self → List ℕ → Type 0 };

    /// Returns whether a file is at this path. If that cannot be found out, none is.
    fn has_file(&self, path: &str) -> bool
        ensures { IsTrue result → sees self.now path.now };
}

impl<H: Files<File = File>> Lookout for H {
    ghost sees = { λ _ _. Unit {0} };

    fn has_file(&self, path: &str) -> bool {
        fs::exists(self, path).unwrap_or(false)
    }
}

/// Ends a server once a file is at this path.
#[derive(Drop)]
pub struct AtFile<H> {
    pub(crate) rt: H,
    pub(crate) path: String,
}

impl<H: Lookout> Until for AtFile<H> {
    ghost use Rattle.std.specs.Prelude.{string_bytes};

    ghost ends = { λ at. H.sees at.rt (string_bytes at.path) };

    fn is_over(&self) -> bool {
        self.rt.has_file(self.path.as_str())
    }
}
