//! Takes the keys that are typed at a client end.

ghost use Rattle.std.specs.Prelude.{◌≡◌, ◌⊎◌, ◌<◌, ◌≤◌, ◌++◌, ℕ, [], true, false, IsFalse, length, IfOk};
ghost use Rattle.std.specs.Prelude.{OnOk, OnErr, if◌then◌else◌};
ghost use Rattle.tn_nvt.specs.{Room.LacksRoom, Spelling.spells};
ghost use Rattle.tn_client.specs.{Lines.{settings_by, key_settings}, Terms.is_echoed};
ghost use Rattle.tn_client.specs.Replies.{byte_items, raw_items, sent_as, edit_items};
ghost use Rattle.tn_client.specs.Screen.{passed_shown, edited_shown, echoed_edited};
ghost use Rattle.tn_client.specs.Steps.{role_now, end_after_count, line_typed, sends_where, Begins};
ghost use Rattle.tn_discipline.specs.{Characters.Characters, HalfLine.{line_released, effect_of, GivesText}};
ghost use Rattle.tn_discipline.specs.{Admitted.count_after, Keys.{roles_from, role_of_key}};
ghost use Rattle.tn_linemode.specs.Modes.{traps};

use crate::end::ClientEnd;
use crate::screen::{echo_raw, show_all};
use crate::sending::{put_bytes, put_edited, put_raw};
use std::alloc::AllocError;
use tn_discipline::{Effect, Limit, Line, Role, Settings, echo_of_role, role_of};
use tn_option::{ECHO, Side};

// Returns the plain count of a half-typed line after one more key (MAX_CANON; XBD 11.1.6).
fn count_after(limit: Limit, count: u16, role: Role) -> u16
    requires { count < limit }
    ensures value { result ≡ count_after limit count (roles_from role) }
    ensures within { result < limit }
{
    let max_counted = limit.bytes() - 1;
    match role {
        Role::Ordinary(_) if count == max_counted => count,
        Role::Ordinary(_) => count + 1,
        Role::Erase => count.saturating_sub(1),
        Role::Signal(_) | Role::Ignored => count,
        Role::Nl | Role::Eol(_) | Role::Eol2(_) | Role::Eof | Role::Kill => 0,
    }
}

// Returns the number of bytes that a key of this role shows of the line, if it is echoed.
fn shown_len(role: Role, line: &Line) -> usize
    ensures value { (m : ℕ) (c : Characters) →
        result ≡ length (echoed_edited (key_settings m c) role line.now) }
    ensures few { result ≤ 3 }
{
    match role {
        Role::Ordinary(_) | Role::Eol(_) | Role::Eol2(_) => 1,
        Role::Nl | Role::Kill => 2,
        Role::Erase if line.held().is_empty() && line.ahead() == 0 => 0,
        Role::Erase => 3,
        Role::Eof | Role::Signal(_) | Role::Ignored => 0,
    }
}

impl ClientEnd {
    // Returns the settings that give a key its role.
    fn settings(&self) -> Settings
        ensures { result ≡ key_settings self.now.mode self.now.table }
    {
        self.settings_under(self.mode.current().trapsig())
    }

    // Returns the settings that give a key its role under this ISIG.
    fn settings_under(&self, isig: bool) -> Settings
        ensures { result ≡ settings_by isig self.now.table }
    {
        let mut settings = Settings::standard();
        settings.flags.isig = isig;
        settings.chars = self.table.chars();
        settings
    }

    // Returns whether the server echoes.
    fn is_echoed(&self) -> bool
        ensures { result ≡ is_echoed self.now.options }
    {
        self.options.is_on(Side::Them, ECHO)
    }

    // Returns the number of bytes that a key of this role shows on the client's screen.
    fn echo_len(&self, role: Role) -> usize
        ensures value { let terminal = key_settings self.now.mode self.now.table in
            let text = edited_shown (is_echoed self.now.options) terminal role self.now.line in
            result ≡ length text }
        ensures here { 0 < result → IsFalse (is_echoed self.now.options) }
    {
        if self.is_echoed() {
            return 0;
        }
        shown_len(role, &self.line)
    }

    /// Types a key that is sent at once, as CR LF if it is a new line. After a refusal the bytes
    /// that were sent begin as they did.
    pub(crate) fn pass(
        &mut self,
        key: u8,
        is_line: bool,
        out: &mut Vec<u8>,
        screen: &mut Vec<u8>,
    ) -> Result<(), AllocError>
        ensures ok { OnOk result (self.new ≡ end_after_count self.old key) }
        ensures out { OnOk result
            (out.new.items ≡
            out.old.items ++ spells (raw_items (role_now self.old key) (sent_as is_line key))) }
        ensures screen { OnOk result
            (screen.new.items ≡ screen.old.items ++ passed_shown (is_echoed self.old.options) key) }
        ensures err { OnErr result (self.new ≡ self.old) }
        ensures err_out { OnErr result (Begins out.old.items out.new.items) }
        ensures err_screen { OnErr result (screen.new.items ≡ screen.old.items) }
        ensures full { let said = raw_items (role_now self.old key) (sent_as is_line key) in
            let text = passed_shown (is_echoed self.old.options) key in
            OnErr result (LacksRoom out.old (length (spells said)) ⊎ LacksRoom screen.old (length text)) }
    {
        let (trapping, plain) = self.roles(key);
        put_raw(self.role_among(trapping, plain), key, is_line, out)?;
        self.echo_passed(key, screen)?;
        self.count(trapping, plain);
        Ok(())
    }

    // Shows a key that is sent at once, unless the server echoes.
    fn echo_passed(&self, key: u8, screen: &mut Vec<u8>) -> Result<(), AllocError>
        ensures ok { OnOk result
            (screen.new.items ≡ screen.old.items ++ passed_shown (is_echoed self.now.options) key) }
        ensures err { OnErr result (screen.new.items ≡ screen.old.items) }
        ensures full { OnErr result
            (LacksRoom screen.old (length (passed_shown (is_echoed self.now.options) key))) }
    {
        if self.is_echoed() {
            return Ok(());
        }
        echo_raw(key, screen)
    }

    // Returns the roles of a key if ISIG is set, and if it is clear. Only those of a signal's
    // character differ.
    fn roles(&self, key: u8) -> (Role, Role)
        ensures trapping { result.0 ≡ role_of_key (settings_by true self.now.table) key }
        ensures plain { result.1 ≡ role_of_key (settings_by false self.now.table) key }
    {
        let trapping = role_of(&self.settings_under(true), key);
        if let Role::Signal(_) = trapping {
            return (trapping, role_of(&self.settings_under(false), key));
        }
        (trapping, trapping)
    }

    // Returns the one of the two roles that the mode names.
    fn role_among(&self, trapping: Role, plain: Role) -> Role
        ensures { result ≡ (if traps self.now.mode then trapping else plain) }
    {
        if self.mode.current().trapsig() {
            return trapping;
        }
        plain
    }

    // Counts a key of these roles in the half-typed line that the server edits.
    fn count(&mut self, trapping: Role, plain: Role)
        ensures { let limit = self.old.line.limit in
            self.new ≡ record self.old {
              trapped = count_after limit self.old.trapped (roles_from trapping);
              plain = count_after limit self.old.plain (roles_from plain);
            } }
    {
        let limit = self.line.limit();
        self.trapped = count_after(limit, self.trapped, trapping);
        self.plain = count_after(limit, self.plain, plain);
    }

    /// Types a key into the line that the client edits. After a refusal the bytes that were sent
    /// begin as they did.
    pub(crate) fn edit(
        &mut self,
        key: u8,
        out: &mut Vec<u8>,
        screen: &mut Vec<u8>,
    ) -> Result<(), AllocError>
        ensures ok { let line = line_typed true self.old.forward self.old.line (role_now self.old key) in
            OnOk result (self.new ≡ record self.old { line = line }) }
        ensures out { let role = role_now self.old key in
            OnOk result (out.new.items ≡
            out.old.items ++ spells (edit_items self.old.forward role self.old.line)) }
        ensures screen { let terminal = key_settings self.old.mode self.old.table in
            let role = role_now self.old key in
            let text = edited_shown (is_echoed self.old.options) terminal role self.old.line in
            OnOk result (screen.new.items ≡ screen.old.items ++ text) }
        ensures err { OnErr result (self.new ≡ self.old) }
        ensures err_out { OnErr result (Begins out.old.items out.new.items) }
        ensures err_screen { OnErr result (screen.new.items ≡ screen.old.items) }
        ensures full { let terminal = key_settings self.old.mode self.old.table in
            let role = role_now self.old key in
            let said = edit_items self.old.forward role self.old.line in
            let text = edited_shown (is_echoed self.old.options) terminal role self.old.line in
            OnErr result (LacksRoom out.old (length (spells said))
            ⊎ (LacksRoom screen.old (length text) ⊎ GivesText self.old.line role)) }
    {
        let settings = self.settings();
        let role = role_of(&settings, key);
        let echo = self.echo_len(role);
        screen.reserve(echo)?;
        let effect = self.type_edited(role, out)?;
        if echo > 0 {
            show_all(&echo_of_role(&effect, role, &settings.flags), screen);
        }
        Ok(())
    }

    // Types a key of this role into the line, and sends the bytes that it sends.
    fn type_edited(&mut self, role: Role, out: &mut Vec<u8>) -> Result<Effect, AllocError>
        ensures ok { OnOk result (self.new ≡
            record self.old { line = line_typed true self.old.forward self.old.line role }) }
        ensures effect { IfOk result (λ effect. effect ≡ effect_of self.old.line role) }
        ensures out { OnOk result (out.new.items ≡
            out.old.items ++ spells (edit_items self.old.forward role self.old.line)) }
        ensures err { OnErr result (self.new ≡ self.old) }
        ensures err_out { OnErr result (Begins out.old.items out.new.items) }
        ensures full { let said = edit_items self.old.forward role self.old.line in
            OnErr result (LacksRoom out.old (length (spells said)) ⊎ GivesText self.old.line role) }
    {
        put_edited(role, &self.line, out)?;
        let effect = self.line.play(role)?;
        if !self.is_sent_ahead(role, &effect) {
            return Ok(effect);
        }
        match self.send_held(out) {
            Ok(()) => Ok(effect),
            Err(fault) => {
                let _erased = self.line.erase();
                Err(fault)
            },
        }
    }

    // Returns whether a key of this role, which had this effect, sends all held bytes: its byte was
    // kept, and is in the forward mask.
    fn is_sent_ahead(&self, role: Role, effect: &Effect) -> bool
        ensures { result ≡ sends_where self.now.forward role effect.now }
    {
        match (role, effect, self.forward) {
            (Role::Ordinary(byte), Effect::Kept, Some(mask)) => mask.has(byte),
            _ => false,
        }
    }

    // Sends all held bytes. After a refusal the line is as it was, and the bytes that were sent
    // begin as they did.
    fn send_held(&mut self, out: &mut Vec<u8>) -> Result<(), AllocError>
        ensures ok { OnOk result (self.new ≡ record self.old { line = line_released self.old.line }) }
        ensures out { OnOk result (out.new.items ≡ out.old.items ++ spells (byte_items self.old.line.held)) }
        ensures err { OnErr result (self.new ≡ self.old) }
        ensures err_out { OnErr result (Begins out.old.items out.new.items) }
        ensures full { OnErr result (LacksRoom out.old (length (spells (byte_items self.old.line.held)))) }
    {
        put_bytes(self.line.held(), out)?;
        self.line.hand_on();
        Ok(())
    }
}
