//! The end of the session that is joined to a service, by the end of that service.

ghost use Rattle.std.specs.Prelude.{◌≡◌, Bool, None, Option};
ghost use Rattle.tn_serve.specs.services.HangingUp.{hung_up_on};

use tn_net::Hook;

/// A hook by which a job ends its session from outside of the session, and sees that the session is
/// over.
pub trait HangUp {
    // Whether the session was hung up, if that is counted.
    ghost hung_up: { Self → Option Bool } = { λ _. None };

    /// Ends the session as if its client had hung up.
    fn hang_up(&mut self)
        ensures { hung_up self.new ≡ hung_up_on (hung_up self.old) };

    /// Returns whether nothing more comes from the session's client.
    fn is_over(&self) -> bool;
}

impl HangUp for Hook {
    fn hang_up(&mut self) {
        Hook::hang_up(self);
    }

    fn is_over(&self) -> bool {
        Hook::is_over(self)
    }
}
