//! The editor, which turns each typed key into keys of a plain terminal.

ghost use Rattle.std.specs.Prelude.{◌≡◌, ◌<◌, ◌↔◌, ℕ, List, [], ◌++◌, length, true, All, IfOk, IfSome};
ghost use Rattle.tn_editor.specs.{EditKeys.{Terminal, edit_role_of_key}, Expanding.{times, becomes}};
ghost use Rattle.tn_editor.specs.Edited.{Editing, after_half, nothing_typed, line_bytes, edited_next, no_character};
ghost use Rattle.tn_editor.specs.{Following.{Holds, GoesOn, Becomes}, EditedLines.{begun, is_taken}};
ghost use Rattle.tn_editor.specs.{EditedLines.{refused_next, line_next, times_typed}, Recalling.IsItself};
ghost use Rattle.tn_discipline.specs.declared.keys.Role.TheVariants as role;
ghost use Rattle.tn_editor.specs.declared.edit_keys.EditRole.TheVariants as edit_role;

use crate::characters::{Character, announced, continues};
use crate::edit_keys::{EditKeys, EditRole, edit_role};
use crate::edited_line::EditedLine;
use std::alloc::{AllocError, Global};
use tn_codes::Func;
use tn_discipline::{Chars, Limit, Role, Roles, Settings};

/// A key of the plain terminal, and how many times it is typed there.
#[derive(Clone, Copy, Debug, PartialEq, Eq)]
pub struct Presses {
    pub key: u8,
    pub count: u16,
}

/// The editing keys of a user's terminal in front of a plain one.
#[derive(Drop)]
pub struct Editor {
    pub(crate) roles: Roles,
    pub(crate) keys: EditKeys,
    pub(crate) line: EditedLine,
    pub(crate) refused: Character,
}

impl Editor {
    /// Makes an editor with an empty line. It takes the room for a whole line once, and wants no
    /// memory later.
    ///
    /// # Errors
    ///
    /// - Out of memory: there is no room for a line, or for the roles of the keys.
    pub fn new(
        alloc: Global,
        settings: Settings,
        keys: EditKeys,
        limit: Limit,
    ) -> Result<Editor, AllocError>
        ensures { (t : Terminal) → t.canon.settings ≡ settings →
            t.keys ≡ keys → t.canon.limit ≡ limit →
            IfOk result (Holds t nothing_typed) }
    {
        Ok(Editor {
            roles: Roles::new(alloc, settings)?,
            keys,
            line: EditedLine::new(alloc, limit)?,
            refused: Character::none(),
        })
    }

    /// Sets the settings of the plain terminal and the editing keys. The half-typed line stays as
    /// it is: characters that were typed before stay characters. No memory is wanted.
    pub fn set(&mut self, settings: Settings, keys: EditKeys)
        ensures { (t u : Terminal) (e : Editing) → Holds t e self.old →
            u.canon.settings ≡ settings → u.keys ≡ keys →
            u.canon.limit ≡ t.canon.limit → Holds u e self.new }
    {
        self.roles.set(settings);
        self.keys = keys;
    }

    /// Begins after a half-typed line of `ahead` bytes, which were typed before. Nothing is known
    /// of these bytes: ERASE and WERASE take back one of them if no other character is left, and
    /// KILL takes back all. If they are as many as the limit, or more, the line counts as full.
    pub fn resume(&mut self, ahead: u16)
        ensures { (t : Terminal) (e : Editing) (half : List ℕ) → Holds t e self.old →
            length half ≡ ahead → ahead < t.canon.limit → Holds t (after_half half) self.new }
    {
        let most = self.line.limit().bytes() - 1;
        self.line.resume(ahead.min(most));
        self.refused = Character::none();
    }

    /// Returns the half-typed line, without the bytes ahead.
    pub fn half_line(&self) -> &[u8]
        ensures { (t : Terminal) (e : Editing) → Holds t e self.now →
            line_bytes e ≡ e.ahead ++ result.now }
    {
        self.line.held()
    }

    /// Returns the role of a key that is typed next.
    pub fn role(&self, key: u8) -> EditRole
        ensures { (t : Terminal) (e : Editing) →
            Holds t e self.now → result ≡ edit_role_of_key t key }
    {
        edit_role(&self.roles.settings(), &self.keys, self.roles.role(key))
    }

    /// Returns the KILL character, if there is one, and if each byte of this line joins a line as
    /// it is: KILL and these bytes, typed as keys, then leave the line in place of the half-typed
    /// line (`laws::an_earlier_line_comes_back`).
    pub fn recalls(&self, line: &[u8]) -> Option<u8>
        ensures kill { (t : Terminal) (e : Editing) → Holds t e self.now →
            All (IsItself t) line.now → result ≡ t.canon.settings.chars.kill }
        ensures line { (t : Terminal) (e : Editing) → Holds t e self.now →
            IfSome result (λ _. All (IsItself t) line.now) }
    {
        for byte in line {
            if !self.is_itself(*byte) {
                return None;
            }
        }
        self.kill()
    }

    fn is_itself(&self, byte: u8) -> bool
        ensures { (t : Terminal) (e : Editing) →
            Holds t e self.now → (result ≡ true) ↔ IsItself t byte }
    {
        joins(self.role(byte), byte)
    }

    fn kill(&self) -> Option<u8>
        ensures { (t : Terminal) (e : Editing) → Holds t e self.now →
            result ≡ t.canon.settings.chars.kill }
    {
        self.roles.settings().chars.get(Func::El)
    }

    /// Types a key, and returns what it becomes at the plain terminal. That terminal then gives the entries that
    /// a terminal with the editing keys gives of the typed keys (`laws::expanded_keys_edit_the_line`).
    pub fn key(&mut self, key: u8) -> Presses
        ensures goes_on { GoesOn self.old key self.new }
        ensures becomes { Becomes self.old key result }
    {
        let settings = self.roles.settings();
        let role = self.role(key);
        Presses {
            key: pressed(&settings.chars, role, key),
            count: self.play(role),
        }
    }

    // Types a key of this role, and returns how many times it is typed at the plain terminal.
    fn play(&mut self, role: EditRole) -> u16
        ensures holds { (t : Terminal) (e : Editing) →
            Holds t e self.old → Holds t (edited_next t e role) self.new }
        ensures count { (t : Terminal) (e : Editing) →
            Holds t e self.old → result ≡ times t e role }
    {
        match role {
            EditRole::Plain(plain) => self.play_plain(plain),
            EditRole::EraseWord => self.erase_word(),
            EditRole::Reprint => 0,
        }
    }

    fn play_plain(&mut self, role: Role) -> u16
        ensures holds { (t : Terminal) (e : Editing) → Holds t e self.old →
            Holds t (edited_next t e (edit_role.Plain role)) self.new }
        ensures count { (t : Terminal) (e : Editing) → Holds t e self.old →
            result ≡ times t e (edit_role.Plain role) }
    {
        match role {
            Role::Ordinary(byte) => self.type_byte(byte),
            Role::Erase => self.erase(),
            Role::Ignored | Role::Signal(_) => 1,
            Role::Nl | Role::Eol(_) | Role::Eol2(_) | Role::Eof | Role::Kill => {
                self.line.clear();
                self.refused = Character::none();
                1
            }
        }
    }

    fn type_byte(&mut self, byte: u8) -> u16
        ensures roles { self.new.roles ≡ self.old.roles }
        ensures keys { self.new.keys ≡ self.old.keys }
        ensures line { self.new.line ≡
            line_next self.old.keys.iutf8 self.old.line self.old.refused byte }
        ensures refused { self.new.refused ≡
            refused_next self.old.keys.iutf8 self.old.line self.old.refused byte }
        ensures count { result ≡
            times_typed self.old.keys.iutf8 self.old.line self.old.refused byte }
    {
        let iutf8 = self.keys.iutf8;
        if self.takes(byte) {
            self.line.join(iutf8, byte);
            self.refused = Character::none();
            return 1;
        }
        self.refused = if continues(iutf8, self.refused, byte) {
            Character {
                first: self.refused.first,
                length: self.refused.length + 1,
            }
        } else {
            Character {
                first: byte,
                length: 1,
            }
        };
        // At a full line the plain terminal drops the byte by itself, with its bell.
        u16::from(self.line.bytes() == self.line.limit().bytes() - 1)
    }

    // Returns whether there is room for the byte and for the whole character that it begins.
    fn takes(&self, byte: u8) -> bool
        ensures { result ≡ is_taken self.now.keys.iutf8 self.now.line self.now.refused byte }
    {
        let iutf8 = self.keys.iutf8;
        let most = self.line.limit().bytes() - 1;
        let wanted = if continues(iutf8, self.line.newest(), byte) {
            1
        } else {
            announced(iutf8, byte)
        };
        let fits = self.line.bytes() + u16::from(wanted) <= most;
        fits && !continues(iutf8, self.refused, byte)
    }

    fn erase(&mut self) -> u16
        ensures holds { (t : Terminal) (e : Editing) → Holds t e self.old →
            Holds t (edited_next t e (edit_role.Plain role.Erase)) self.new }
        ensures count { (t : Terminal) (e : Editing) → Holds t e self.old →
            result ≡ times t e (edit_role.Plain role.Erase) }
    {
        let count = self.line.newest().erases();
        self.line.erase();
        self.refused = Character::none();
        count
    }

    fn erase_word(&mut self) -> u16
        ensures holds { (t : Terminal) (e : Editing) → Holds t e self.old →
            Holds t (edited_next t e edit_role.EraseWord) self.new }
        ensures count { (t : Terminal) (e : Editing) →
            Holds t e self.old → result ≡ times t e edit_role.EraseWord }
    {
        let before = self.line.bytes();
        self.line.erase_word(self.keys.words);
        self.refused = Character::none();
        before.saturating_sub(self.line.bytes())
    }
}

// Returns whether a key of this role joins the line with this byte.
fn joins(found: EditRole, byte: u8) -> bool
    ensures { (result ≡ true) ↔ (found ≡ edit_role.Plain (role.Ordinary byte)) }
{
    found == EditRole::Plain(Role::Ordinary(byte))
}

// Returns the key that is typed at the plain terminal.
fn pressed(chars: &Chars, role: EditRole, key: u8) -> u8
    ensures { result ≡ becomes chars.now role key }
{
    match (role, chars.get(Func::Ec)) {
        (EditRole::EraseWord, Some(erase)) => erase,
        _ => key,
    }
}
