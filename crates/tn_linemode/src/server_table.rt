//! The table of local characters at the server.

ghost use Rattle.std.specs.Prelude.{◌≡◌, ◌+◌, ◌<◌, ◌++◌, length, OnOk, OnErr, IfOk, IfErr, None, Some, take};
ghost use Rattle.std.specs.Prelude.{vec_len, vec_capacity};
ghost use Rattle.tn_discipline.specs.Characters.{with_slot, char_fault};
ghost use Rattle.tn_linemode.specs.Exchange.{announcement, server_takes, server_replies, asks_for_table};
ghost use Rattle.tn_linemode.specs.Exchange.{server_after, server_answers, server_is_asked};

use crate::answering::{Reacts, react_whole};
use crate::triples::{
    Saying, acknowledging, has_ack, reading_of, table_of, triple_of, unsupported,
};
use std::alloc::AllocError;
use std::marker::Model;
use tn_codes::{Func, Triple};
use tn_discipline::{CharFault, Chars};

/// The special characters as the server has them. The server decides: it takes a proposal of the
/// client that its terminal allows, and acknowledges it.
#[derive(Clone, Copy, PartialEq, Eq)]
pub struct ServerTable {
    chars: Chars,
}

impl Model for ServerTable {
    ghost use Rattle.tn_discipline.specs.Characters.{Characters};

    ghost Value = { Characters };

    ghost view = { λ t. t.chars };

    ghost inverse = { λ c. record { chars = c } };
}

impl ServerTable {
    pub fn new(chars: Chars) -> Self
        ensures { result ≡ chars }
    {
        ServerTable { chars }
    }

    pub fn chars(&self) -> Chars
        ensures { result ≡ self.now }
    {
        self.chars
    }

    /// Changes the character of a function, or disables it by `None`. This call sends nothing to
    /// the client.
    ///
    /// # Errors
    ///
    /// - `CharFault`: the table cannot have that character; the fault says why, and nothing has
    ///   changed.
    pub fn set(&mut self, func: Func, value: Option<u8>) -> Result<(), CharFault>
        ensures accepted { OnOk result (char_fault self.old func value ≡ None) }
        ensures ok { OnOk result (self.new ≡ with_slot self.old func value) }
        ensures fault { IfErr result (λ fault. char_fault self.old func value ≡ Some fault) }
        ensures err { OnErr result (self.new ≡ self.old) }
    {
        self.chars.set(func, value)
    }

    /// Appends the whole table, which asks the client to take it (RFC 1184, section 2.4): eight
    /// triples, one for each special character.
    ///
    /// # Errors
    ///
    /// - `AllocError`: the vector has no room for the table, and there is no memory for more;
    ///   nothing was appended.
    pub fn announce(&self, triples: &mut Vec<Triple>) -> Result<(), AllocError>
        ensures ok { OnOk result (triples.new.items ≡ triples.old.items ++ announcement self.now) }
        ensures err { OnErr result (triples.new.items ≡ triples.old.items) }
        ensures full { let table = announcement self.now in
            OnErr result (vec_capacity triples.old < vec_len triples.old + length table) }
    {
        let table = table_of(&self.chars);
        triples.extend_from_slice(&table)
    }

    /// Takes a list of triples from the client, and appends the answers to it (RFC 1184, section
    /// 2.4). Returns whether the whole table is to be sent after them. The server acknowledges each
    /// character that it takes, and answers with its own for each that it does not. A function that
    /// has no character in this table is answered as unsupported, unless its level is NOSUPPORT,
    /// which asks for no answer.
    ///
    /// # Errors
    ///
    /// - `AllocError`: the vector has no room for the answers, and there is no memory for more;
    ///   nothing has changed. No answers take no memory.
    #[tactic(auto, unfolding(crate::specs::Exchange::server_after, crate::specs::Exchange::server_answers))]
    pub fn got(&mut self, triples: &[Triple], answers: &mut Vec<Triple>) -> Result<bool, AllocError>
        ensures table { OnOk result (self.new ≡ server_after self.old triples.now) }
        ensures answers { OnOk result
            (answers.new.items ≡ answers.old.items ++ server_answers self.old triples.now) }
        ensures asked { IfOk result (λ asked. asked ≡ server_is_asked triples.now) }
        ensures err { OnErr result (self.new ≡ self.old) }
        ensures err_answers { OnErr result (answers.new.items ≡ answers.old.items) }
        ensures full { let replies = server_answers self.old triples.now in
            OnErr result (vec_capacity answers.old < vec_len answers.old + length replies) }
    {
        react_whole(self, triples, answers)?;
        Ok(is_asked(triples))
    }

    // Takes a character if the table may have it.
    fn offered(&mut self, func: Func, value: Option<u8>) -> Option<Triple>
        ensures table { self.new ≡ server_takes self.old (Saying.Character func value) }
        ensures answer { result ≡ server_replies self.old (Saying.Character func value) }
    {
        let present = self.chars.get(func);
        let adopted = self.chars.set(func, value);
        if present == value {
            None
        } else if adopted.is_ok() {
            Some(acknowledging(func, value))
        } else {
            Some(triple_of(func, present))
        }
    }
}

impl Reacts for ServerTable {
    ghost use Rattle.tn_linemode.specs.Exchange.{server_next, server_answer};

    ghost next = { server_next };

    ghost answer = { server_answer };

    // Takes one triple, and answers it.
    fn react(&mut self, triple: Triple) -> Option<Triple> {
        if has_ack(triple) {
            return None;
        }
        match reading_of(triple) {
            Saying::Standard => {
                self.chars = Chars::standard();
                None
            },
            Saying::Character(func, value) => self.offered(func, value),
            Saying::Unsupported(code) => Some(unsupported(code)),
            Saying::Table | Saying::Nothing => None,
        }
    }
}

#[tactic(auto, unfolding(crate::specs::Exchange::server_is_asked))]
fn is_asked(triples: &[Triple]) -> bool
    ensures { result ≡ server_is_asked triples.now }
{
    triples.iter().any(|triple| asks_for_table(*triple))
}

fn asks_for_table(triple: Triple) -> bool
    ensures { result ≡ asks_for_table triple }
{
    !has_ack(triple) && matches!(reading_of(triple), Saying::Standard | Saying::Table)
}
