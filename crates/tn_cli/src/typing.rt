//! Types keys at one line, and prints the entries that they give.

ghost use Rattle.std.specs.Prelude.{◌≡◌, ◌+◌, ◌<◌, ◌≤◌, ℕ, List, [], ◌∷◌, ◌++◌, IsTrue, length, take, IfOk};
ghost use Rattle.std.specs.Prelude.{vec_len, vec_capacity};
ghost use Rattle.tn_discipline.specs.{Editing.{closing_byte, with_byte}, Entries.line_of};
ghost use Rattle.tn_discipline.specs.{HalfLine.empty_line, Keys.{gives_entry, role_of_key}};
ghost use Rattle.tn_cli.specs.{Printed.printed_entry, Typing.{LeadsTo, Types, max_entry, max_printed}};

use crate::printed::{put_line, put_signal};
use std::alloc::{AllocError, Global};
use tn_discipline::{Limit, Line, Role, Roles, Settings};

/// The number of bytes that join the line as they are, below which each is typed by itself.
const FEW_BYTES: usize = 4;

/// The number of bytes of printed entries that are kept before they are written.
const PRINTED_BYTES: usize = 65_536;

/// The most bytes of the line of an entry: of a text, two digits for each byte of the longest line.
const ENTRY_BYTES: usize = 8_198;

/// A line with standard settings, and the printed entries that it has given since the last were written.
/// All memory is taken at the beginning.
#[derive(Drop)]
pub(crate) struct Typing {
    roles: Roles,
    line: Line,
    printed: Vec<u8>,
}

impl Typing {
    pub(crate) fn new(alloc: Global) -> Result<Typing, AllocError>
        ensures leads { IfOk result (λ typing. LeadsTo [] [] typing) }
        ensures empty { IfOk result (λ typing. typing.printed.items ≡ []) }
        ensures len { IfOk result (λ typing. vec_len typing.printed ≡ 0) }
        ensures room { IfOk result (λ typing. max_printed ≤ vec_capacity typing.printed) }
    {
        Ok(Typing {
            roles: Roles::new(alloc, Settings::standard())?,
            line: Line::new(alloc, Limit::standard())?,
            printed: Vec::with_capacity(alloc, PRINTED_BYTES)?,
        })
    }

    /// Returns the printed entries that are to be written.
    pub(crate) fn printed(&self) -> &[u8]
        ensures { result.now ≡ self.now.printed.items }
    {
        self.printed.as_slice()
    }

    /// Removes the printed entries, which were written.
    pub(crate) fn clear(&mut self)
        ensures printed { self.new.printed.items ≡ [] }
        ensures len { vec_len self.new.printed ≡ 0 }
        ensures capacity { vec_capacity self.new.printed ≡ vec_capacity self.old.printed }
        ensures typed { (keys given : List ℕ) → LeadsTo keys given self.old →
            LeadsTo keys (given ++ self.old.printed.items) self.new }
    {
        self.printed.clear();
    }

    /// Types keys in turn, while there is room for what one of them prints, and returns how many were typed.
    pub(crate) fn fill(&mut self, keys: &[u8]) -> usize
        requires empty { vec_len self.old.printed ≡ 0 }
        requires room { max_printed ≤ vec_capacity self.old.printed }
        ensures within { result ≤ length keys.now }
        ensures some { 0 < length keys.now → 0 < result }
        ensures types { Types (take result keys.now) self.old self.new }
        ensures capacity { vec_capacity self.old.printed ≤ vec_capacity self.new.printed }
    {
        let mut typed = 0;
        while typed < keys.len() {
            if self.printed.len() > PRINTED_BYTES - ENTRY_BYTES {
                return typed;
            }
            typed += self.front(&keys[typed..]);
        }
        typed
    }

    // Types leading keys that make no entry, and then the next key; returns how many were typed.
    fn front(&mut self, keys: &[u8]) -> usize
        requires some { 0 < length keys.now }
        requires room { vec_len self.old.printed + max_entry ≤ vec_capacity self.old.printed }
        ensures some { 0 < result }
        ensures within { result ≤ length keys.now }
        ensures types { Types (take result keys.now) self.old self.new }
        ensures capacity { vec_capacity self.old.printed ≤ vec_capacity self.new.printed }
    {
        let count = self.edit(keys);
        if count == keys.len() {
            return count;
        }
        self.key(keys[count]);
        count + 1
    }

    // Types a key, and prints the entry that it makes.
    fn key(&mut self, key: u8)
        requires { vec_len self.old.printed + max_entry ≤ vec_capacity self.old.printed }
        ensures types { Types (key ∷ []) self.old self.new }
        ensures capacity { vec_capacity self.old.printed ≤ vec_capacity self.new.printed }
    {
        let role = self.roles.role(key);
        if role.gives_entry() {
            self.enter(role);
            return;
        }
        // Memory is wanted only for a text.
        let _effect = self.line.play(role);
    }

    // Types leading keys that make no entry, and returns how many were typed. Bytes that join the line as
    // they are go at once, unless they are few.
    fn edit(&mut self, keys: &[u8]) -> usize
        ensures within { result ≤ length keys.now }
        ensures types { Types (take result keys.now) self.old self.new }
        ensures printed { self.new.printed ≡ self.old.printed }
    {
        let count = self.roles.ordinary_front(keys);
        if count < FEW_BYTES {
            return self.line.edit_run(&self.roles, keys);
        }
        let _kept = self.line.keep_run(&keys[..count]);
        count
    }

    // Types a key of a role that makes an entry, and prints that.
    fn enter(&mut self, role: Role)
        requires gives { IsTrue (gives_entry role) }
        requires room { vec_len self.old.printed + max_entry ≤ vec_capacity self.old.printed }
        ensures types { (key : ℕ) → role ≡ role_of_key self.old.roles key →
            Types (key ∷ []) self.old self.new }
        ensures capacity { vec_capacity self.old.printed ≤ vec_capacity self.new.printed }
    {
        match role {
            Role::Signal(sig) => put_signal(sig, &mut self.printed),
            _ => self.close(closing(role)),
        }
    }

    // Prints the line with this byte after it, or with none, and empties it. No text is made of it.
    fn close(&mut self, last: Option<u8>)
        requires { vec_len self.old.printed + max_entry ≤ vec_capacity self.old.printed }
        ensures printed { let entry = line_of (with_byte self.old.line.held last) in
            self.new.printed.items ≡ self.old.printed.items ++ printed_entry entry }
        ensures line { self.new.line ≡ empty_line self.old.line.limit }
        ensures roles { self.new.roles ≡ self.old.roles }
        ensures capacity { vec_capacity self.old.printed ≤ vec_capacity self.new.printed }
    {
        // No code is needed; the proof that the line is short begins with the range of every limit.
        let _limit = self.line.limit().bytes();
        put_line(self.line.held(), last, &mut self.printed);
        let _killed = self.line.kill();
    }
}

// Returns the byte with which a key of this role closes a line, if it closes it with one.
fn closing(role: Role) -> Option<u8>
    ensures { result ≡ closing_byte role }
{
    match role {
        Role::Nl => Some(b'\n'),
        Role::Eol(byte) | Role::Eol2(byte) => Some(byte),
        _ => None,
    }
}
