//! Takes the items that came at a server end.

ghost use Rattle.std.specs.Prelude.{◌≡◌, ◌≢◌, ◌≤◌, ◌++◌, ℕ, List, true, IsTrue, Some, [], length, map, IfOk};
ghost use Rattle.std.specs.Prelude.{IfErr, OnOk, OnErr, IsErrOf};
ghost use Rattle.tn_codes.specs.Payloads.{max_triples};
ghost use Rattle.tn_codes.specs.declared.payloads.Payload.TheVariants as payload;
ghost use Rattle.tn_nvt.specs.{Room.LacksRoom, Spelling.spells};
ghost use Rattle.tn_nvt.specs.declared.items.Item.TheVariants as item;
ghost use Rattle.tn_pty.specs.{Typing.command_role, declared.pty.PtyFault.PtyFault};
ghost use Rattle.tn_server.specs.{Terms.{payload_at, mask_for}, Replies.list_replies, Lending.RefusesByte};
ghost use Rattle.tn_server.specs.Steps.{end_after_item, says_item, end_after_items, IsRefusedFor};
ghost use Rattle.tn_server.specs.Steps.{role_of_typed, end_after_byte, end_after_command, IsShut, IsKeyCause};
ghost use Rattle.tn_server.specs.Steps.{MayWantMemory, end_after_word, says_words, end_after_wish};
ghost use Rattle.tn_server.specs.Steps.{says_wished, sends_wished, end_after_mode, says_mode_got};
ghost use Rattle.tn_server.specs.{Steps.{end_after_list, end_after_payload, says_sub}, Events.breaks_after};
ghost use Rattle.tn_linemode.specs.Prefixes.{AppendsPrefix};

use crate::end::ServerEnd;
use crate::faults::ServerFault;
use crate::terms::announce;
use crate::wishes::Editing;
use std::alloc::AllocError;
use tn_codes::{Command, Payload, Triples, Verb};
use tn_linemode::{put_list, put_word, read_under};
use tn_nvt::{Item, Params};
use tn_option::Side;
use tn_pty::PtyFault;

impl ServerEnd {
    /// Takes bytes of data, one after another.
    pub(crate) fn bytes(&mut self, bytes: &[u8]) -> Result<(), PtyFault>
        ensures ok { OnOk result (self.new ≡ end_after_items self.old (map item.Byte bytes.now)) }
        ensures err { IfErr result (λ fault.
            RefusesByte self.old bytes.now (ServerFault.Pty fault) self.new) }
    {
        let mode = self.terms.modes.current();
        if mode.edit() {
            return self.pair.edited_run(bytes);
        }
        let echo = self.terms.echoes();
        self.pair.type_run(bytes, echo)
    }

    /// Takes one item.
    pub(crate) fn item(&mut self, item: Item, out: &mut Vec<u8>) -> Result<(), ServerFault>
        ensures ok { OnOk result (self.new ≡ end_after_item self.old item) }
        ensures out { OnOk result (out.new.items ≡ out.old.items ++ spells (says_item self.old item)) }
        ensures cut { OnErr result (AppendsPrefix (says_item self.old item) out.old.items out.new.items) }
        ensures cause { IfErr result (IsRefusedFor self.old item) }
        ensures err { OnErr result (IsShut self.old self.new) }
    {
        match item {
            Item::Byte(byte) => match self.byte(byte) {
                Ok(()) => Ok(()),
                Err(fault) => Err(ServerFault::Pty(fault)),
            },
            Item::Newline => match self.byte(b'\n') {
                Ok(()) => Ok(()),
                Err(fault) => Err(ServerFault::Pty(fault)),
            },
            Item::Cmd(command) => match self.command(command) {
                Ok(()) => Ok(()),
                Err(fault) => Err(ServerFault::Pty(fault)),
            },
            Item::Neg(verb, option) => match self.word(verb, option, out) {
                Ok(()) => Ok(()),
                Err(_) => Err(ServerFault::Memory),
            },
            Item::Sub(option, params) => match self.subnegotiation(option, &params, out) {
                Ok(()) => Ok(()),
                Err(_) => Err(ServerFault::Memory),
            },
        }
    }

    // Takes a byte of data: a key, or a byte of a line that the client edited.
    fn byte(&mut self, byte: u8) -> Result<(), PtyFault>
        ensures ok { OnOk result (self.new ≡ end_after_byte self.old byte) }
        ensures err { OnErr result (IsShut self.old self.new) }
        ensures cause { IfErr result (λ fault.
            IsKeyCause self.old.terminal (role_of_typed self.old byte) fault) }
    {
        if self.terms.modes.current().edit() {
            return self.pair.edited_byte(byte);
        }
        let echo = self.terms.echoes();
        self.pair.raw_key(byte, echo)
    }

    // Takes a command, and counts it if it is a BREAK.
    fn command(&mut self, command: Command) -> Result<(), PtyFault>
        ensures ok { OnOk result (self.new ≡ end_after_command self.old command) }
        ensures err { OnErr result (IsShut self.old self.new) }
        ensures cause { IfErr result (λ fault. IsKeyCause self.old.terminal (command_role command) fault) }
    {
        match self.pair.command(command) {
            Ok(()) => {
                self.breaks = breaks_after(self.breaks, command);
                Ok(())
            },
            Err(fault) => Err(fault),
        }
    }

    // Answers an option message, and appends all that follows from it.
    fn word(&mut self, verb: Verb, option: u8, out: &mut Vec<u8>) -> Result<(), AllocError>
        ensures ok { OnOk result (self.new ≡ end_after_word self.old verb option) }
        ensures out { OnOk result (out.new.items ≡
            out.old.items ++ spells (says_words self.old verb option)) }
        ensures cut { OnErr result
            (AppendsPrefix (says_words self.old verb option) out.old.items out.new.items) }
        ensures some { OnErr result (says_words self.old verb option ≢ []) }
        ensures err { OnErr result (self.new ≡ self.old) }
    {
        let was_on = self.terms.has_linemode();
        let flags = self.pair.settings().flags;
        let mut terms = self.terms;
        let said = terms.options.got(verb, option);
        put_word(said, out)?;
        let _sent = terms.settle(self.alloc, was_on, false, &flags, &self.table, out)?;
        self.terms = terms;
        Ok(())
    }

    /// Requests that one side edit lines, if the terminal's flags allow it, and appends all that
    /// follows. Returns whether a MODE was sent.
    pub(crate) fn wish_for(
        &mut self,
        editing: Editing,
        out: &mut Vec<u8>,
    ) -> Result<bool, AllocError>
        ensures ok { OnOk result (self.new ≡
            end_after_wish self.old (mask_for self.old.terminal.settings.flags editing)) }
        ensures sent { IfOk result (λ sent. sent ≡
            sends_wished self.old (mask_for self.old.terminal.settings.flags editing)) }
        ensures out { OnOk result (out.new.items ≡
            out.old.items ++
            spells (says_wished self.old (mask_for self.old.terminal.settings.flags editing))) }
        ensures cut { OnErr result
            (AppendsPrefix (says_wished self.old (mask_for self.old.terminal.settings.flags editing))
            out.old.items out.new.items) }
        ensures some { OnErr result
            (says_wished self.old (mask_for self.old.terminal.settings.flags editing) ≢ []) }
        ensures full { let said = says_wished self.old (mask_for self.old.terminal.settings.flags editing) in
            OnErr result (LacksRoom out.old (length (spells said))) }
        ensures err { OnErr result (self.new ≡ self.old) }
    {
        let flags = self.pair.settings().flags;
        let Some(mask) = editing.mask(&flags) else {
            return Ok(false);
        };
        let was_on = self.terms.has_linemode();
        let mut terms = self.terms;
        terms.wish = mask;
        let sent = terms.settle(self.alloc, was_on, false, &flags, &self.table, out)?;
        self.terms = terms;
        Ok(sent)
    }

    // Takes a MODE of the client: an acknowledgement is in force from then on, and any other MODE
    // is a request.
    fn mode_got(&mut self, mask: u8, out: &mut Vec<u8>) -> Result<(), AllocError>
        ensures ok { OnOk result (self.new ≡ end_after_mode self.old mask) }
        ensures out { OnOk result (out.new.items ≡ out.old.items ++ spells (says_mode_got self.old mask)) }
        ensures cut { OnErr result (AppendsPrefix (says_mode_got self.old mask) out.old.items out.new.items) }
        ensures some { OnErr result (says_mode_got self.old mask ≢ []) }
        ensures err { OnErr result (self.new ≡ self.old) }
    {
        let mut modes = self.terms.modes;
        match modes.got(mask) {
            None => {
                self.terms.modes = modes;
                Ok(())
            },
            Some(true) => {
                let _sent = self.wish_for(Editing::Local, out)?;
                Ok(())
            },
            Some(false) => {
                let _sent = self.wish_for(Editing::Remote, out)?;
                Ok(())
            },
        }
    }

    // Answers a list of local characters: the answers in one list, and the whole table if it was
    // asked for.
    fn list(&mut self, triples: &Triples, out: &mut Vec<u8>) -> Result<(), AllocError>
        requires { length triples.now ≤ max_triples }
        ensures ok { OnOk result (self.new ≡ end_after_list self.old triples.now) }
        ensures out { OnOk result (out.new.items ≡
            out.old.items ++ spells (list_replies self.old.table (Some (payload.Slc triples.now)))) }
        ensures cut { OnErr result
            (AppendsPrefix (list_replies self.old.table (Some (payload.Slc triples.now))) out.old.items
            out.new.items) }
        ensures some { OnErr result (triples.now ≢ []) }
        ensures err { OnErr result (self.new ≡ self.old) }
    {
        let mut table = self.table;
        let mut answers = Vec::new(self.alloc);
        let is_asked = table.got(triples.as_slice(), &mut answers)?;
        put_list(&answers, out)?;
        if is_asked {
            announce(self.alloc, &table, out)?;
        }
        self.table = table;
        self.pair.set_chars(table.chars());
        Ok(())
    }

    /// Takes a subnegotiation.
    pub(crate) fn subnegotiation(
        &mut self,
        option: u8,
        params: &Params,
        out: &mut Vec<u8>,
    ) -> Result<(), AllocError>
        ensures ok { OnOk result (self.new ≡
            end_after_payload self.old (payload_at self.old.terms.options (item.Sub option params.now))) }
        ensures out { OnOk result (out.new.items ≡
            out.old.items ++
            spells (says_sub self.old (payload_at self.old.terms.options (item.Sub option params.now)))) }
        ensures cut { OnErr result
            (AppendsPrefix
            (says_sub self.old (payload_at self.old.terms.options (item.Sub option params.now)))
            out.old.items out.new.items) }
        ensures some { OnErr result
            (MayWantMemory self.old (payload_at self.old.terms.options (item.Sub option params.now))) }
        ensures err { OnErr result (self.new ≡ self.old) }
    {
        let is_on = self.terms.options.is_on(Side::Them, option);
        match read_under(self.alloc, is_on, option, params)? {
            Some(Payload::Naws { width, height }) => {
                self.pair.resize(width, height);
                Ok(())
            },
            Some(Payload::Mode(mask)) => self.mode_got(mask, out),
            Some(Payload::Slc(triples)) => self.list(&triples, out),
            Some(
                Payload::ForwardOn(_)
                | Payload::ForwardOff
                | Payload::ForwardYes
                | Payload::ForwardNo,
            )
            | None => Ok(()),
        }
    }
}

// Returns the number of BREAKs after one more command.
fn breaks_after(breaks: u32, command: Command) -> u32
    ensures { result ≡ breaks_after breaks (item.Cmd command) }
{
    match command {
        Command::Brk => breaks.wrapping_add(1),
        _ => breaks,
    }
}
