//! Readers and writers that may report how many of their calls failed, or will fail.
//!
//! Begin with `Source`, a reader, and `Drain`, a writer.
//!
//! ```
//! let answer = reader.read_some(&mut buf); // of any reader of the standard library
//! let tally = Tally::new().after_read(&answer);
//! tally.failed(); // 1 if the call failed, and no signal interrupted it
//! ```
//!
//! ```text
//! Read ----> Source ----> the threads of a session that read
//! Write ---> Drain -----> the threads of a session that write
//!               |
//!               +-------> in contracts: what they gave or hold, and how many calls failed or will
//! ```
//!
//! Every reader and writer of the standard library is one that reports nothing. The crate opens
//! nothing, holds nothing back, and calls nothing again: `is_interrupted` reports when to.

ghost use Rattle.std.specs.Prelude.{◌≡◌, ◌≢◌, ℕ, List, [], None, Some, Option, true, IsTrue, false, IsFalse};
ghost use Rattle.std.specs.{IoError.error_kind, Io.{ReadsAtMost, WritesAtMost}};
ghost use Rattle.std.specs.Io.KnownBytes.{ReadConsumes, WriteAppends, Keeps};
ghost use Rattle.tn_cores.specs.streams.Foretelling.{Failures, ForetellsCall};
ghost use Rattle.tn_cores.specs.streams.Sending.{Sending, written_on, finished_on};
ghost use Rattle.tn_cores.specs.streams.Beside.{IsOneOf, TellsNext, no_words};
ghost use Rattle.tn_cores.specs.declared.streams.control.Control.{Control as ControlT};
ghost use Rattle.tn_cores.specs.declared.streams.window.WindowSize.{WindowSize as WindowSizeT};
ghost use Rattle.tn_cores.specs.streams.Telling.{Calls, TellsCall, CountsRead, CountsWrite};

pub use control::Control;
use std::io::{Error, ErrorKind, Read, Result, Write};
pub use tally::Tally;
pub use window::WindowSize;
pub use writing::{write_all, write_front};

mod control;
mod tally;
mod window;
mod writing;

/// A reader that may report how many of its calls failed, and foretell how many will: one that is
/// given away cannot be asked afterwards. If its bytes are typed in a window, it reports the
/// window's size too, and the control functions that its user requests between them. The thread
/// that reads it may send its last words for it.
pub trait Source {
    // The bytes that reads will give from this state on, if they are known.
    ghost remaining: { Self → Option (List ℕ) } = { λ _. None };

    // The known facts of its calls.
    ghost told: { Self → Option Calls } = { λ _. None };

    // The facts that it foretells of the calls to come.
    ghost foretold: { Self → Option Failures } = { λ _. None };

    // The sizes that it will report from this state on, if they are known. Most readers have no
    // window.
    ghost sizes: { Self → Option (List WindowSizeT) } = { λ _. Some [] };

    // The control functions that it will report from this state on, if they are known. Most readers
    // have no user.
    ghost controls: { Self → Option (List ControlT) } = { λ _. Some [] };

    // The last words that it may have, each of which is known beforehand. Most readers have none.
    ghost words: { Self → List (List ℕ) } = { λ _. no_words };

    /// Returns the size of the window, if it differs from the one that was reported last.
    fn resized(&mut self) -> Option<WindowSize>
        ensures tells { TellsNext (sizes self.old) result (sizes self.new) }
        ensures bytes { remaining self.new ≡ remaining self.old }
        ensures told { told self.new ≡ told self.old }
        ensures foretold { foretold self.new ≡ foretold self.old }
        ensures controls { controls self.new ≡ controls self.old }
        ensures words { words self.new ≡ words self.old }
    {
        None
    }

    /// Returns the control function that is requested right after the bytes that were given, if
    /// there is one that was not reported.
    fn control(&mut self) -> Option<Control>
        ensures tells { TellsNext (controls self.old) result (controls self.new) }
        ensures bytes { remaining self.new ≡ remaining self.old }
        ensures told { told self.new ≡ told self.old }
        ensures foretold { foretold self.new ≡ foretold self.old }
        ensures sizes { sizes self.new ≡ sizes self.old }
        ensures words { words self.new ≡ words self.old }
    {
        None
    }

    /// Returns the text for its peer once it has come to its end: a line, or nothing.
    fn last_words(&self) -> &'static [u8]
        ensures one { IsOneOf (words self.now) result.now };

    /// Reads some bytes, none only at the end or if there is no room.
    fn read_some(&mut self, buf: &mut [u8]) -> Result<usize>
        ensures bound { ReadsAtMost result buf.new }
        ensures bytes { ReadConsumes (remaining self.old) (remaining self.new) result buf.new }
        ensures tells { TellsCall (CountsRead result) (told self.old) (told self.new) }
        ensures foretells { ForetellsCall result (foretold self.old) (foretold self.new) }
        ensures sizes { sizes self.new ≡ sizes self.old }
        ensures controls { controls self.new ≡ controls self.old }
        ensures words { words self.new ≡ words self.old };
}

/// A writer that may report how many of its calls failed.
pub trait Drain {
    // The bytes that the writer holds, if they are known.
    ghost contents: { Self → Option (List ℕ) } = { λ _. None };

    // The known facts of its calls.
    ghost told: { Self → Option Calls } = { λ _. None };

    // Whether more may come, if that is known.
    ghost sending: { Self → Option Sending } = { λ _. None };

    /// Writes the first of the bytes.
    fn write_some(&mut self, buf: &[u8]) -> Result<usize>
        ensures bound { WritesAtMost result buf.now }
        ensures bytes { WriteAppends (contents self.old) (contents self.new) result buf.now }
        ensures tells { TellsCall (CountsWrite buf.now result) (told self.old) (told self.new) }
        ensures goes { sending self.new ≡ written_on (sending self.old) };

    /// Passes on what it holds back until more comes. Most writers hold nothing back.
    fn pass_on(&mut self)
        ensures contents { Keeps (contents self.old) (contents self.new) }
        ensures told { told self.new ≡ told self.old }
        ensures going { sending self.new ≡ sending self.old }
    {}
}

/// A writer that is finished when no more comes from this end. Of that call contracts know only
/// that it is not counted among the writer's calls, and that a write after it differs from one
/// before.
pub trait Finish: Drain {
    fn finish(&mut self)
        ensures contents { Keeps (Self.contents self.old) (Self.contents self.new) }
        ensures told { Self.told self.new ≡ Self.told self.old }
        ensures finishes { Self.sending self.new ≡ finished_on (Self.sending self.old) };
}

/// A list of what was written, which keeps it.
impl Finish for Vec<u8> {
    fn finish(&mut self) {}
}

impl<R: Read> Source for R {
    ghost remaining = { R.Read.remaining };

    fn last_words(&self) -> &'static [u8] {
        nothing_to_say()
    }

    fn read_some(&mut self, buf: &mut [u8]) -> Result<usize> {
        self.read(buf)
    }
}

impl<W: Write> Drain for W {
    ghost contents = { W.Write.contents };

    fn write_some(&mut self, buf: &[u8]) -> Result<usize> {
        self.write(buf)
    }

    // The fault of a flush is not reported here: a screen whose flush fails ends its connection.
    fn pass_on(&mut self) {
        let _ = self.flush();
    }
}

/// Returns the last words of a reader that has none.
pub fn nothing_to_say() -> &'static [u8]
    ensures { IsOneOf no_words result.now }
{
    b""
}

/// Returns whether a signal interrupted the call, so that it is to be made again.
pub fn is_interrupted(error: &Error) -> bool
    ensures again { IsTrue result → error_kind error.now ≡ ErrorKind.Interrupted }
    ensures failed { IsFalse result → error_kind error.now ≢ ErrorKind.Interrupted }
{
    match error.kind() {
        ErrorKind::Interrupted => true,
        _ => false,
    }
}
