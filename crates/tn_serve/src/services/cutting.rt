//! Lines that may have been truncated at the terminal's limit.

ghost use Rattle.std.specs.Prelude.{◌≡◌, option_copied};
ghost use Rattle.tn_serve.specs.services.Cutting.{is_ending, is_full, missing};

use tn_discipline::Limit;
use tn_lines::LineEnd;

/// A receiver of the report that a line may have been truncated.
pub trait HearsCut {
    /// Takes the report that a line of this number of bytes is as long as one may be.
    fn hear_cut(&self, bytes: usize);
}

/// A receiver of the report that a service speaks Telnet.
pub trait HearsTelnet {
    fn hear_telnet(&self);
}

/// A holder of a text for a session's user.
pub trait Greets {
    /// Returns the text that the user reads before the service's bytes.
    fn banner(&self) -> &[u8];
}

/// The form in which lines go to a service.
#[derive(Clone, Copy, PartialEq, Eq)]
pub struct LineFormat {
    /// The bytes that end each line for the service.
    pub line_end: LineEnd,
    /// The limit of the terminal that they are edited for.
    pub limit: Limit,
    /// Whether a line that may have been truncated ends the session, in place of going to the
    /// service.
    pub ends_cut: bool,
    /// Whether signals and the end of file go to the service as the bytes of ^C, ^\, ^Z and ^D, and do nothing
    /// else.
    pub sends_signals: bool,
    /// Whether they go in Telnet, and what the service says is read as such.
    pub speaks_telnet: bool,
}

impl LineFormat {
    // Returns whether a line is as long as one may be. A terminal drops the keys that are typed
    // after that, wherever the line is edited, so a line that was typed to exactly that length
    // looks no different.
    pub(crate) fn is_full(self, line: &[u8]) -> bool
        ensures { result ≡ is_full self.limit line.now }
    {
        usize::from(self.limit.bytes()) <= line.len() + missing(line.last())
    }

    // Whether a line ends the session.
    pub(crate) fn is_ending(self, line: &[u8]) -> bool
        ensures { result ≡ is_ending self line.now }
    {
        let ends_cut = self.ends_cut;
        let is_full = self.is_full(line);
        ends_cut && is_full
    }
}

// Returns the number of bytes that a line lacks of those that its keys would give with a line feed:
// an end of file closes it with none.
fn missing(last: Option<&u8>) -> usize
    ensures { result ≡ missing (option_copied last.entry) }
{
    match last {
        Some(b'\n') => 0,
        _ => 1,
    }
}
