//! The half-typed line.

ghost use Rattle.std.specs.Prelude.{◌≡◌, ◌==◌, ◌<◌, ◌≤◌, ◌+◌, ◌-◌, IsTrue, [], ◌∷◌, ◌++◌, All, length, take};
ghost use Rattle.std.specs.Prelude.{get_or, min, IfOk, OnOk, OnErr, vec_len, vec_capacity};
ghost use Rattle.tn_discipline.specs.Keys.{roles_of, role_of_key, literal_role, roles_from, gives_entry};
ghost use Rattle.tn_discipline.specs.{Limits.max_counted, Runs.{line_after_all, each_role, ordinary_roles}};
ghost use Rattle.tn_discipline.specs.{Entries.line_of, HalfLine.GivesText};
ghost use Rattle.tn_discipline.specs.HalfLine.{empty_line, line_length, line_released, line_resumed};
ghost use Rattle.tn_discipline.specs.HalfLine.{effect_of, line_after, line_kept, line_erased, effect_entries};
ghost use Rattle.tn_discipline.specs.Editing.{IsQuiet, IsClosing, with_byte};
ghost use Rattle.tn_discipline.specs.Advancing.{Advances, DropsExactly, KeepsHalf, LeadsWhereLong};
ghost use Rattle.tn_discipline.specs.declared.half_line.Effect.TheVariants as effect;
ghost use Rattle.tn_discipline.specs.declared.keys.Role.TheVariants as role;

use crate::editing::{Parts, edit_front};
use crate::keys::{Role, role_of, role_of_literal};
use crate::line_limit::Limit;
use crate::reads::{Entry, Text};
use crate::role_table::Roles;
use crate::termios::Settings;
use std::alloc::{AllocError, Global};
use std::marker::Model;
use std::mem;

/// The least length of a run of bytes that join the line as they are at which it is copied, and not
/// typed byte by byte.
const LONG_RUN: usize = 16;

/// The number of keys that are typed one after another before a long run is looked for again.
const EDITED_KEYS: usize = 64;

/// The effect of a key on the line.
#[derive(Debug, PartialEq, Eq, Drop)]
pub enum Effect {
    /// The key was dropped by its mapping, or there was nothing to erase.
    Nothing,
    /// The byte joined the bytes that are held.
    Kept,
    /// The last byte that was held is given up.
    Erased,
    /// Nothing was held, and the last of the bytes that were handed on is to be taken back.
    ErasedAhead,
    /// All bytes that were held are given up, and this number of bytes that were handed on is to be
    /// taken back.
    Killed(u16),
    /// The line has no room for the byte.
    Dropped,
    /// The key made an entry.
    Gives(Entry),
}

/// A half-typed line: the bytes that are held, after those that were handed on to the other editor
/// of the line.
#[derive(Drop)]
pub struct Line {
    held: Vec<u8>,
    ahead: u16,
    limit: Limit,
}

impl Model for Line {
    ghost use Rattle.std.specs.Prelude.{◌<◌, ◌≤◌, ◌+◌, vec_len, vec_capacity};
    ghost use Rattle.tn_discipline.specs.HalfLine.{HalfLine};

    ghost Value = { HalfLine };

    ghost view = { λ l. record { held = l.held.items; ahead = l.ahead; limit = l.limit } };

    ghost invariant = { λ l. (l.ahead + vec_len l.held < l.limit) × (l.limit ≤ vec_capacity l.held) };
}

impl Line {
    /// Makes an empty line, with room for a whole line, which it takes once.
    ///
    /// # Errors
    ///
    /// - `AllocError`: there is no memory for `limit` bytes.
    pub fn new(alloc: Global, limit: Limit) -> Result<Self, AllocError>
        ensures { IfOk result (λ line. line ≡ empty_line limit) }
    {
        Ok(Line {
            held: Vec::with_capacity(alloc, usize::from(limit.bytes()))?,
            ahead: 0,
            limit,
        })
    }

    /// Returns the bytes that are held.
    pub fn held(&self) -> &[u8]
        ensures value { result.now ≡ self.now.held }
        ensures within { line_length self.now < self.now.limit }
    {
        self.held.as_slice()
    }

    /// Returns the number of bytes of the half-typed line that were handed on before those that are
    /// held: 0 to 4,094.
    pub fn ahead(&self) -> u16
        ensures value { result ≡ self.now.ahead }
        ensures within { line_length self.now < self.now.limit }
    {
        self.ahead
    }

    /// Returns the number of bytes of the half-typed line, handed on or held: 0 to 4,094.
    pub fn length(&self) -> u16
        ensures value { result ≡ line_length self.now }
        ensures within { line_length self.now < self.now.limit }
    {
        // No code is needed; the proof that the sum fits begins with the range of every limit.
        let _limit = self.limit.bytes();
        self.ahead + self.held.len() as u16
    }

    /// Returns the most bytes that the line may have, with its closing byte.
    pub fn limit(&self) -> Limit
        ensures { result ≡ self.now.limit }
    {
        self.limit
    }

    /// Types a key, a byte from 0 to 255 as the terminal gets it: its role is that of `role_of`.
    ///
    /// # Errors
    ///
    /// - `AllocError`: there is no memory for the text of a closed line; the line is as it was.
    ///   Other keys take no memory.
    pub fn key(&mut self, settings: &Settings, key: u8) -> Result<Effect, AllocError>
        // After any keys that led to this half-typed line, this key gives the entries of the
        // effect, and leaves the line that is there after the call.
        ensures advances { let roles = roles_of settings.now (key ∷ []) in
            IfOk result (λ effect. Advances self.old roles (effect_entries effect) self.new) }
        ensures dropped { IfOk result (DropsExactly self.old (roles_of settings.now (key ∷ []))) }

        ensures effect { IfOk result
            (λ effect. effect ≡ effect_of self.old (role_of_key settings.now key)) }
        ensures line { OnOk result (self.new ≡ line_after self.old (role_of_key settings.now key)) }

        ensures only_a_text { OnErr result (GivesText self.old (role_of_key settings.now key)) }
        ensures err { OnErr result (self.new ≡ self.old) }
    {
        self.play(role_of(settings, key))
    }

    /// Types a byte of a line that was edited before it came (RFC 1184, section 2.2, EDIT): its
    /// role is that of `role_of_literal`, so that only a closing byte is not ordinary.
    ///
    /// # Errors
    ///
    /// - `AllocError`: there is no memory for the text of a closed line; the line is as it was.
    pub fn literal(&mut self, settings: &Settings, byte: u8) -> Result<Effect, AllocError>
        ensures advances { let roles = literal_role settings.now.chars byte ∷ [] in
            IfOk result (λ effect. Advances self.old roles (effect_entries effect) self.new) }
        ensures dropped { IfOk result
            (DropsExactly self.old (literal_role settings.now.chars byte ∷ [])) }

        ensures effect { let role = literal_role settings.now.chars byte in
            IfOk result (λ effect. effect ≡ effect_of self.old role) }
        ensures line { OnOk result
            (self.new ≡ line_after self.old (literal_role settings.now.chars byte)) }

        ensures only_a_text { OnErr result
            (GivesText self.old (literal_role settings.now.chars byte)) }
        ensures err { OnErr result (self.new ≡ self.old) }
    {
        self.play(role_of_literal(settings, byte))
    }

    /// Types a key whose role was looked up.
    ///
    /// # Errors
    ///
    /// - `AllocError`: there is no memory for the text of a closed line; the line is as it was.
    pub fn play(&mut self, role: Role) -> Result<Effect, AllocError>
        ensures advances { IfOk result
            (λ effect. Advances self.old (roles_from role) (effect_entries effect) self.new) }
        ensures dropped { IfOk result (DropsExactly self.old (roles_from role)) }

        ensures effect { IfOk result (λ effect. effect ≡ effect_of self.old role) }
        ensures line { OnOk result (self.new ≡ line_after self.old role) }

        ensures only_a_text { OnErr result (GivesText self.old role) }
        ensures err { OnErr result (self.new ≡ self.old) }
    {
        self.act(role)
    }

    /// Types ordinary bytes, one after another, and returns how many were kept: as many as fit. The
    /// others are dropped. It takes no memory.
    pub fn keep_run(&mut self, bytes: &[u8]) -> usize
        ensures advances { Advances self.old (ordinary_roles bytes.now) [] self.new }
        ensures each { self.new ≡ line_after_all self.old (ordinary_roles bytes.now) }

        ensures count { let room = max_counted self.old.limit - line_length self.old in
            result ≡ min room (length bytes.now) }
        ensures within { line_length self.old < self.old.limit }
        ensures line { self.new ≡
            record self.old { held = self.old.held ++ take result bytes.now } }
    {
        self.keep_front(bytes)
    }

    /// Types leading keys that make no entry, and returns how many were typed: at least one unless
    /// the first makes an entry. It takes no memory.
    pub fn edit_run(&mut self, roles: &Roles, keys: &[u8]) -> usize
        ensures advances { let typed = roles_of roles.now (take result keys.now) in
            Advances self.old typed [] self.new }
        ensures line { let typed = each_role roles.now (take result keys.now) in
            self.new ≡ line_after_all self.old typed }

        ensures within { result ≤ length keys.now }
        ensures quiet { All (IsQuiet roles.now) (take result keys.now) }
        ensures next { result ≡ 0 → 0 < length keys.now →
            IsTrue (gives_entry (role_of_key roles.now (get_or keys.now 0 0))) }
    {
        self.edit_some(roles, keys)
    }

    /// Takes back the last byte, as ERASE does (POSIX.1-2017, XBD 11.1.9): a held one, or else one
    /// that was handed on. On an empty line it returns `Nothing`.
    pub fn erase(&mut self) -> Effect
        ensures advances { Advances self.old (role.Erase ∷ []) [] self.new }
        ensures effect { result ≡ effect_of self.old role.Erase }
        ensures line { self.new ≡ line_after self.old role.Erase }
    {
        self.erase_byte()
    }

    /// Takes back the whole half-typed line, as KILL does (POSIX.1-2017, XBD 11.1.9), and returns
    /// `Killed` with how many bytes of it were handed on: 0 to 4,094, and 0 on an empty line too.
    pub fn kill(&mut self) -> Effect
        ensures advances { Advances self.old (role.Kill ∷ []) [] self.new }
        ensures effect { result ≡ effect_of self.old role.Kill }
        ensures line { self.new ≡ line_after self.old role.Kill }
    {
        let ahead = self.ahead;
        self.held.clear();
        self.ahead = 0;
        Effect::Killed(ahead)
    }

    /// Closes the line with no byte, as EOF does (POSIX.1-2017, XBD 11.1.9). If the line is empty,
    /// it gives the end of file, and else a text.
    ///
    /// # Errors
    ///
    /// - `AllocError`: there is no memory for the text; the line is as it was. The end of file
    ///   takes none.
    pub fn end_of_file(&mut self) -> Result<Effect, AllocError>
        ensures advances { IfOk result
            (λ effect. Advances self.old (role.Eof ∷ []) (effect_entries effect) self.new) }
        ensures effect { IfOk result (λ effect. effect ≡ effect_of self.old role.Eof) }
        ensures line { OnOk result (self.new ≡ line_after self.old role.Eof) }

        ensures only_a_text { OnErr result (GivesText self.old role.Eof) }
        ensures err { OnErr result (self.new ≡ self.old) }
    {
        self.play(Role::Eof)
    }

    /// Hands on the bytes that are held: they are appended to `out`, and are ahead from then on.
    ///
    /// # Errors
    ///
    /// - `AllocError`: `out` has no room for the bytes, and there is no memory for more; nothing
    ///   has changed.
    pub fn release(&mut self, out: &mut Vec<u8>) -> Result<(), AllocError>
        // No key is typed: any keys that led to this half-typed line lead to the one that is there
        // after the call.
        ensures half { OnOk result (KeepsHalf self.old self.new) }
        ensures line { OnOk result (self.new ≡ line_released self.old) }
        ensures out { OnOk result (out.new.items ≡ out.old.items ++ self.old.held) }

        ensures err { OnErr result (self.new ≡ self.old) }
        ensures err_out { OnErr result (out.new.items ≡ out.old.items) }
        ensures some { OnErr result (0 < length self.old.held) }
        ensures full { OnErr result
            (vec_capacity out.old < vec_len out.old + length self.old.held) }
    {
        out.extend_from_slice(self.held.as_slice())?;
        self.hand_on();
        Ok(())
    }

    /// Marks the bytes that are held as ahead, since the caller has handed them on.
    pub fn hand_on(&mut self)
        // No key is typed: any keys that led to this half-typed line lead to the one that is there
        // after the call.
        ensures half { KeepsHalf self.old self.new }
        ensures line { self.new ≡ line_released self.old }
    {
        self.ahead += self.held.len() as u16;
        self.held.clear();
    }

    /// Resumes a half-typed line that is elsewhere: `ahead` bytes of it were handed on, and none is
    /// held.
    pub fn resume(&mut self, ahead: u16)
        requires empty { self.old.held ≡ [] }
        requires fits { ahead < self.old.limit }
        // Any keys that led to a half-typed line of this length lead to the line that is there
        // after the call.
        ensures half { LeadsWhereLong self.old.limit ahead self.new }
        ensures line { self.new ≡ line_resumed self.old.limit ahead }
    {
        self.ahead = ahead;
    }

    // Applies a key of this role to the line.
    fn act(&mut self, role: Role) -> Result<Effect, AllocError>
        ensures effect { IfOk result (λ effect. effect ≡ effect_of self.old role) }
        ensures line { OnOk result (self.new ≡ line_after self.old role) }
        ensures only_a_text { OnErr result (GivesText self.old role) }
        ensures err { OnErr result (self.new ≡ self.old) }
    {
        match role {
            Role::Ignored => Ok(Effect::Nothing),
            Role::Nl | Role::Eol(_) | Role::Eol2(_) | Role::Eof => self.close_by(role),
            Role::Signal(sig) => Ok(Effect::Gives(Entry::Signal(sig))),
            Role::Erase => Ok(self.erase()),
            Role::Kill => Ok(self.kill()),
            Role::Ordinary(byte) => Ok(self.keep(byte)),
        }
    }

    // Types leading keys that make no entry: a long run of bytes that join the line as they are, or else
    // keys one after another.
    fn edit_some(&mut self, roles: &Roles, keys: &[u8]) -> usize
        ensures line { let typed = each_role roles.now (take result keys.now) in
            self.new ≡ line_after_all self.old typed }
        ensures within { result ≤ length keys.now }
        ensures quiet { All (IsQuiet roles.now) (take result keys.now) }
        ensures next { result ≡ 0 → 0 < length keys.now →
            IsTrue (gives_entry (role_of_key roles.now (get_or keys.now 0 0))) }
    {
        let count = roles.ordinary_front(keys);
        if count >= LONG_RUN {
            let _kept = self.keep_front(&keys[..count]);
            return count;
        }
        self.edit_parts(roles, &keys[..keys.len().min(EDITED_KEYS)])
    }

    // Types keys up to the first that makes an entry.
    fn edit_parts(&mut self, roles: &Roles, keys: &[u8]) -> usize
        ensures line { let typed = each_role roles.now (take result keys.now) in
            self.new ≡ line_after_all self.old typed }
        ensures within { result ≤ length keys.now }
        ensures quiet { All (IsQuiet roles.now) (take result keys.now) }
        ensures next { result < length keys.now →
            IsTrue (gives_entry (role_of_key roles.now (get_or keys.now result 0))) }
    {
        let alloc = *self.held.allocator();
        let parts = Parts {
            ahead: self.ahead,
            limit: self.limit.bytes(),
            held: mem::replace(&mut self.held, Vec::new(alloc)),
        };
        let (parts, count) = edit_front(parts, roles, keys);
        self.ahead = parts.ahead;
        self.held = parts.held;
        count
    }

    fn keep(&mut self, byte: u8) -> Effect
        ensures effect { result ≡ effect_of self.old (role.Ordinary byte) }
        ensures line { self.new ≡ line_kept self.old byte }
    {
        let max_counted = usize::from(self.limit.bytes()) - 1;
        if self.ahead as usize + self.held.len() == max_counted {
            return Effect::Dropped;
        }
        self.held.push_reserved(byte);
        Effect::Kept
    }

    // Keeps as many of the bytes as fit.
    fn keep_front(&mut self, bytes: &[u8]) -> usize
        ensures count { let room = max_counted self.old.limit - line_length self.old in
            result ≡ min room (length bytes.now) }
        ensures within { line_length self.old < self.old.limit }
        ensures line { self.new ≡
            record self.old { held = self.old.held ++ take result bytes.now } }
    {
        let max_counted = usize::from(self.limit.bytes()) - 1;
        let room = max_counted - (self.ahead as usize + self.held.len());
        let count = room.min(bytes.len());
        let _room = self.held.extend_from_slice(&bytes[..count]);
        count
    }

    fn erase_byte(&mut self) -> Effect
        ensures effect { result ≡ effect_of self.old role.Erase }
        ensures line { self.new ≡ line_erased self.old }
    {
        if self.held.pop().is_some() {
            return Effect::Erased;
        }
        if self.ahead == 0 {
            return Effect::Nothing;
        }
        self.ahead -= 1;
        Effect::ErasedAhead
    }

    // Closes the line by a key of this role.
    fn close_by(&mut self, role: Role) -> Result<Effect, AllocError>
        requires { IsClosing role }
        ensures effect { IfOk result (λ effect. effect ≡ effect_of self.old role) }
        ensures line { OnOk result (self.new ≡ line_after self.old role) }
        ensures only_a_text { OnErr result (GivesText self.old role) }
        ensures err { OnErr result (self.new ≡ self.old) }
    {
        Ok(Effect::Gives(self.close(role.closing())?))
    }

    // Closes the line with this byte, or with none.
    fn close(&mut self, closing: Option<u8>) -> Result<Entry, AllocError>
        ensures gives { IfOk result (λ entry. entry ≡ line_of (with_byte self.old.held closing)) }
        ensures line { OnOk result (self.new ≡ empty_line self.old.limit) }

        ensures only_a_text { OnErr result (0 < length (with_byte self.old.held closing)) }
        ensures err { OnErr result (self.new ≡ self.old) }
    {
        if self.held.is_empty() && closing.is_none() {
            self.ahead = 0;
            return Ok(Entry::Eof);
        }
        let text = self.closed_text(closing)?;
        self.held.clear();
        self.ahead = 0;
        Ok(Entry::Text(Text::from(text)))
    }

    // Returns a text of the bytes that are held, and of this byte after them.
    fn closed_text(&self, closing: Option<u8>) -> Result<Vec<u8>, AllocError>
        ensures { IfOk result (λ text. text.items ≡ with_byte self.now.held closing) }
    {
        let alloc = *self.held.allocator();
        let length = self.held.len() + usize::from(closing.is_some());
        let mut text = Vec::with_capacity(alloc, length)?;
        text.extend_from_slice(self.held.as_slice())?;
        if let Some(byte) = closing {
            text.push_reserved(byte);
        }
        Ok(text)
    }
}
