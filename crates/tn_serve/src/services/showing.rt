//! The job in the background, which shows the user the service's bytes.

ghost use Rattle.std.specs.Prelude.{◌≡◌, ◌+◌, ◌≤◌, ◌<◌, ◌++◌, [], ◌∷◌, false, IsFalse, IfOk, length};
ghost use Rattle.std.specs.Prelude.{vec_capacity, vec_len};
ghost use Rattle.tn_serve.specs.services.{NewLines.{ends_by_return, settled, waiting}, Showing.Shows};
ghost use Rattle.tn_cores.specs.streams.Known.{known_reader};

use std::alloc::{AllocError, Global};
use tn_cores::streams::{Source, is_interrupted};
use tn_discipline::Text;
use tn_jobs::{After, Reaction};

/// The number of bytes for which one read asks. As many reads as a session's mailbox holds may wait
/// for a user who reads slowly.
const PIECE_BYTES: usize = 1_024;

/// A job that shows the service's bytes. A carriage return waits for the next byte, for an
/// interruption or for the end: only then it is known whether it is one by itself.
#[derive(Drop)]
pub struct Showing<R> {
    pub(crate) reader: R,
    /// A carriage return waits.
    pub(crate) waits: bool,
}

impl<R: Source> Showing<R> {
    /// Waits for the service's next bytes. Their end ends the job, and so does a read that fails.
    /// The memory for the text that is shown is there before the read.
    pub(crate) fn step(&mut self, alloc: Global) -> Result<Reaction, AllocError>
        ensures { IfOk result (λ reaction. Shows self.old.waits reaction.text reaction.after self.new.waits
            (known_reader R.remaining R.foretold R.sizes R.words self.old.reader)
            (known_reader R.remaining R.foretold R.sizes R.words self.new.reader)) }
    {
        let text = Vec::with_capacity(alloc, PIECE_BYTES + 1)?;
        let mut bytes = [0; PIECE_BYTES];
        match self.reader.read_some(&mut bytes) {
            Ok(0) => Ok(self.release(text, After::Done)),
            Ok(n) => Ok(self.show(&bytes[..n], text)),
            Err(error) if is_interrupted(&error) => Ok(self.release(text, After::Stay)),
            Err(_) => Ok(self.release(text, After::Done)),
        }
    }

    // Shows these bytes; there is room for them and for what waited.
    fn show(&mut self, bytes: &[u8], text: Vec<u8>) -> Reaction
        requires empty { text.items ≡ [] }
        requires room { 1 + length bytes.now ≤ vec_capacity text }
        ensures text { result.text ≡ settled (waiting self.old.waits ++ bytes.now) }
        ensures after { result.after ≡ After.Stay }
        ensures waits { self.new.waits ≡ ends_by_return (waiting self.old.waits ++ bytes.now) }
        ensures reader { self.new.reader ≡ self.old.reader }
    {
        let (text, waits) = settle(self.waits, bytes, text);
        self.waits = waits;
        Reaction {
            text: Text::from(text),
            after: After::Stay,
        }
    }

    // Shows the carriage return that waits, if one does.
    fn release(&mut self, mut text: Vec<u8>, after: After) -> Reaction
        requires empty { text.items ≡ [] }
        requires room { 0 < vec_capacity text }
        ensures text { result.text ≡ waiting self.old.waits }
        ensures after { result.after ≡ after }
        ensures waits { IsFalse self.new.waits }
        ensures reader { self.new.reader ≡ self.old.reader }
    {
        if self.waits {
            text.push_reserved(b'\r');
        }
        self.waits = false;
        Reaction {
            text: Text::from(text),
            after,
        }
    }
}

// Appends the text of a byte and of the carriage return that waited before it, if one did. It
// returns whether one waits after the call.
fn settle_byte(waited: bool, byte: u8, text: &mut Vec<u8>) -> bool
    requires { vec_len text.old + length (waiting waited) + 1 ≤ vec_capacity text.old }
    ensures items { text.new.items ≡ text.old.items ++ settled (waiting waited ++ byte ∷ []) }
    ensures len { vec_len text.new + length (waiting result)
        ≤ vec_len text.old + length (waiting waited) + 1 }
    ensures capacity { vec_capacity text.new ≡ vec_capacity text.old }
    ensures waits { result ≡ ends_by_return (byte ∷ []) }
{
    match (waited, byte) {
        (false, b'\r') => true,
        (true, b'\r') => {
            text.push_reserved(b'\r');
            true
        },
        (true, b'\n') => {
            text.push_reserved(b'\n');
            false
        },
        (false, _) => {
            text.push_reserved(byte);
            false
        },
        (true, _) => {
            text.push_reserved(b'\r');
            text.push_reserved(byte);
            false
        },
    }
}

// Appends the text of these bytes and of the carriage return that waited before them, to a text
// that has room. It returns whether one waits after the call.
pub(crate) fn settle(waited: bool, bytes: &[u8], text: Vec<u8>) -> (Vec<u8>, bool)
    requires { vec_len text + 1 + length bytes.now ≤ vec_capacity text }
    ensures items { result.0.items ≡ text.items ++ settled (waiting waited ++ bytes.now) }
    ensures waits { result.1 ≡ ends_by_return (waiting waited ++ bytes.now) }
{
    let mut text = text;
    let mut waits = waited;
    for byte in bytes {
        waits = settle_byte(waits, *byte, &mut text);
    }
    (text, waits)
}
