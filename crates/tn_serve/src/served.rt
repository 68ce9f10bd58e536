//! The counts of the connections that were served.

ghost use Rattle.std.specs.Prelude.{◌≡◌, ◌+◌};

/// The counts of the accepted connections. Only a call that serves makes such a value.
#[derive(Clone, Copy, PartialEq, Eq)]
pub struct Served {
    pub(crate) accepted: u64,
    pub(crate) whole: u64,
    pub(crate) faulted: u64,
    pub(crate) refused: u64,
    pub ghost counted: { whole + faulted + refused ≡ accepted },
}

impl Served {
    /// Returns the number of connections that were accepted. Each is in exactly one of the counts
    /// `whole`, `faulted` and `refused`, too.
    pub fn accepted(self) -> u64
        ensures { result ≡ self.accepted }
    {
        self.accepted
    }

    /// Returns the number of connections whose sessions ended without a fault.
    pub fn whole(self) -> u64
        ensures { result ≡ self.whole }
    {
        self.whole
    }

    /// Returns the number of connections whose sessions ended in a fault, or could not be started.
    pub fn faulted(self) -> u64
        ensures { result ≡ self.faulted }
    {
        self.faulted
    }

    /// Returns the number of connections that got no session, since as many as allowed were
    /// running.
    pub fn refused(self) -> u64
        ensures { result ≡ self.refused }
    {
        self.refused
    }
}
