//! The next action of a talk, which needs no waiting.

ghost use Rattle.std.specs.Prelude.{◌≡◌, ℕ, None, Option, true};
ghost use Rattle.tn_lines.specs.Openings.{warned_on};

/// The next action that a talk can take.
#[derive(Clone, Copy, PartialEq, Eq)]
pub enum Ready {
    /// Keys can be read.
    Keys,
    /// Bytes of the service can be read.
    Bytes,
    /// The service takes more.
    Room,
    /// The end of the stream is due to the service.
    End,
    /// The talk is to end: its user left by an interrupt or a quit, or typed the command for the
    /// end.
    Interrupt,
    Leave,
}

/// The actions that a talk wants to take, besides reading the service's bytes.
#[derive(Clone, Copy, PartialEq, Eq)]
pub struct Wants {
    /// Whether it wants to read keys.
    pub keys: bool,
    /// Whether it wants to send the service more.
    pub room: bool,
    /// Whether it wants to send the end of the stream.
    pub end: bool,
}

/// A watcher of a talk, which waits and decides what the talk does next.
pub trait Await {
    // The number of reports it got that the service speaks Telnet, if that is counted.
    ghost warned: { Self → Option ℕ } = { λ _. None };

    /// Returns what the talk can do next. If that cannot be done, the talk waits or does nothing,
    /// and goes on.
    fn next(&mut self, wants: Wants) -> Ready
        ensures { warned self.new ≡ warned self.old };

    /// Takes the report that the service speaks Telnet, as soon as that shows, and once: its first
    /// bytes are a command that negotiates an option.
    fn hear_telnet(&mut self)
        ensures { warned self.new ≡ warned_on true (warned self.old) };
}
