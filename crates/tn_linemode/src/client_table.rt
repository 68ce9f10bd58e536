//! The table of local characters at the client.

ghost use Rattle.std.specs.Prelude.{◌≡◌, ◌+◌, ◌<◌, ◌++◌, length, OnOk, OnErr, IfOk, None, Some, vec_len};
ghost use Rattle.std.specs.{Prelude.vec_capacity, Result.result_err};
ghost use Rattle.tn_discipline.specs.Characters.{with_slot, char_fault, standard_characters};
ghost use Rattle.tn_linemode.specs.{Triples.{triple_of, IsOffer}, Exchange.{client_after, client_answers}};
ghost use Rattle.tn_linemode.specs.Exchange.{without_character, is_line_end, client_takes, client_replies};

use crate::answering::{Reacts, react_whole};
use crate::triples::{Saying, acknowledging, has_ack, reading_of, triple_of, unsupported};
use std::alloc::AllocError;
use std::marker::Model;
use tn_codes::{Func, Triple};
use tn_discipline::{CharFault, Chars};

/// The special characters as the client has them. The client takes those that the server sends, and
/// acknowledges each that changes its table.
#[derive(Clone, Copy, PartialEq, Eq)]
pub struct ClientTable {
    chars: Chars,
}

impl Model for ClientTable {
    ghost use Rattle.tn_discipline.specs.Characters.{Characters};

    ghost Value = { Characters };

    ghost view = { λ t. t.chars };

    ghost inverse = { λ c. record { chars = c } };
}

impl ClientTable {
    /// Makes a table of the standard characters.
    pub fn new() -> Self
        ensures { result ≡ standard_characters }
    {
        ClientTable {
            chars: Chars::standard(),
        }
    }

    pub fn chars(&self) -> Chars
        ensures { result ≡ self.now }
    {
        self.chars
    }

    /// Takes a list of triples from the server, and appends the answers to it (RFC 1184, section
    /// 2.4). The client acknowledges each triple that changed its table. A function that has no
    /// character in this table is answered as unsupported, unless its level is NOSUPPORT, which
    /// asks for no answer.
    ///
    /// # Errors
    ///
    /// - `AllocError`: the vector has no room for the answers, and there is no memory for more;
    ///   nothing has changed. No answers take no memory.
    #[tactic(auto, unfolding(crate::specs::Exchange::client_after, crate::specs::Exchange::client_answers))]
    pub fn got(&mut self, triples: &[Triple], answers: &mut Vec<Triple>) -> Result<(), AllocError>
        ensures table { OnOk result (self.new ≡ client_after self.old triples.now) }
        ensures answers { OnOk result
            (answers.new.items ≡ answers.old.items ++ client_answers self.old triples.now) }
        ensures err { OnErr result (self.new ≡ self.old) }
        ensures err_answers { OnErr result (answers.new.items ≡ answers.old.items) }
        ensures full { let replies = client_answers self.old triples.now in
            OnErr result (vec_capacity answers.old < vec_len answers.old + length replies) }
    {
        react_whole(self, triples, answers)
    }

    /// Returns the triple that proposes a character to the server, or none by `None`. Nothing
    /// changes until the server acknowledges it.
    ///
    /// # Errors
    ///
    /// - `CharFault`: the client's own table cannot have that character; the fault says why.
    pub fn propose(&self, func: Func, value: Option<u8>) -> Result<Triple, CharFault>
        ensures fault { result_err result ≡ char_fault self.now func value }
        ensures triple { IfOk result (λ triple. triple ≡ triple_of func value) }
    {
        let mut chars = self.chars;
        chars.set(func, value)?;
        Ok(triple_of(func, value))
    }

    // Takes a character, and returns what changed.
    fn told(&mut self, func: Func, value: Option<u8>) -> Option<Triple>
        requires { IsOffer func value }
        ensures table { self.new ≡ client_takes self.old (Saying.Character func value) }
        ensures answer { result ≡ client_replies self.old (Saying.Character func value) }
    {
        if is_line_end(value) {
            return None;
        }
        let present = self.chars.get(func);
        self.free(value);
        self.put(func, value);
        if present == value {
            None
        } else {
            Some(acknowledging(func, value))
        }
    }

    // Disables the character that is this byte, if there is one.
    fn free(&mut self, value: Option<u8>)
        ensures { self.new ≡ without_character self.old value }
    {
        let Some(byte) = value else {
            return;
        };
        if let Some(func) = self.chars.holder(byte) {
            self.put(func, None);
        }
    }

    // Changes a character that can be changed so.
    fn put(&mut self, func: Func, value: Option<u8>)
        requires { char_fault self.old func value ≡ None }
        ensures { self.new ≡ with_slot self.old func value }
    {
        let _ = self.chars.set(func, value);
    }
}

impl Reacts for ClientTable {
    ghost use Rattle.tn_linemode.specs.Exchange.{client_next, client_answer};

    ghost next = { client_next };

    ghost answer = { client_answer };

    // Takes one triple, and answers it.
    fn react(&mut self, triple: Triple) -> Option<Triple> {
        let answer = match reading_of(triple) {
            Saying::Character(func, value) => self.told(func, value),
            Saying::Unsupported(code) => Some(unsupported(code)),
            Saying::Standard | Saying::Table | Saying::Nothing => None,
        };
        if has_ack(triple) { None } else { answer }
    }
}

fn is_line_end(value: Option<u8>) -> bool
    ensures { result ≡ is_line_end value }
{
    value == Some(b'\n') || value == Some(b'\r')
}
