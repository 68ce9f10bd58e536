//! The terms on which a server end has agreed with its client.

ghost use Rattle.std.specs.Prelude.{◌≡◌, ◌≢◌, ◌≤◌, ◌⊎◌, [], ◌++◌, true, is_some, length, vec_capacity, IfOk};
ghost use Rattle.std.specs.Prelude.{OnOk, OnErr};
ghost use Rattle.tn_linemode.specs.{Modes.no_mode, Words.list_items, Exchange.announcement};
ghost use Rattle.tn_linemode.specs.Prefixes.{AppendsPrefix};
ghost use Rattle.tn_nvt.specs.{Room.LacksRoom, Spelling.spells};
ghost use Rattle.tn_server.specs.Terms.{opening_options, linemode, echoes, options_with_echo, client_edits};
ghost use Rattle.tn_server.specs.{Replies.{new_table_items, echo_items}, Steps.negotiation_items};
ghost use Rattle.tn_server.specs.Steps.{told_now, masks_by, echo_wanted, negotiation_after};

use crate::openings::Opening;
use std::alloc::{AllocError, Global};
use tn_discipline::Flags;
use tn_linemode::{ServerMode, ServerTable, put_list, put_mode, put_word};
use tn_option::{Agree, ECHO, Engine, LINEMODE, NAWS, SUPPRESS_GO_AHEAD, Side};

/// The options, the masks, the mask of the last request that was allowed, and how the end opened.
#[derive(Clone, Copy)]
pub(crate) struct Negotiation {
    pub(crate) options: Engine,
    pub(crate) modes: ServerMode,
    pub(crate) wish: u8,
    pub(crate) opening: Opening,
}

impl Negotiation {
    /// Makes the terms after the opening requests were sent.
    pub(crate) fn new(opening: Opening) -> Negotiation
        ensures options { result.options ≡ opening_options opening }
        ensures modes { result.modes ≡ no_mode }
        ensures wish { result.wish ≡ 0 }
        ensures opening { result.opening ≡ opening }
    {
        Negotiation {
            options: opening_options(opening),
            modes: ServerMode::new(),
            wish: 0,
            opening,
        }
    }

    pub(crate) fn has_linemode(&self) -> bool
        ensures { result ≡ linemode self.now.options }
    {
        self.options.is_on(Side::Them, LINEMODE)
    }

    pub(crate) fn echoes(&self) -> bool
        ensures { result ≡ echoes self.now.options }
    {
        self.options.is_on(Side::Us, ECHO)
    }

    // Returns whether the client edits its lines: while LINEMODE is on, if the mask that it was
    // asked for has EDIT.
    fn client_edits(&self) -> bool
        ensures { result ≡ client_edits self.now.opening self.now.options self.now.modes.asked }
    {
        if self.has_linemode() {
            return self.modes.asked().edit();
        }
        self.opening.edits_unasked()
    }

    /// Asks for the requested mask if LINEMODE is on, and returns the MODE to send. A change of
    /// LINEMODE discards what was asked and acknowledged before.
    pub(crate) fn ask_mode(&mut self, was_on: bool) -> Option<u8>
        ensures told { result ≡ told_now was_on self.old }
        ensures masks { self.new ≡ record self.old { modes = masks_by was_on self.old } }
    {
        let is_on = self.has_linemode();
        if is_on != was_on {
            self.modes.reset();
        }
        if is_on {
            self.modes.wish(self.wish)
        } else {
            None
        }
    }

    /// Asks for the server's own ECHO, or to be rid of it, if that is due, and appends the message,
    /// if there is one.
    pub(crate) fn ask_echo(
        &mut self,
        is_due: bool,
        flags: &Flags,
        out: &mut Vec<u8>,
    ) -> Result<(), AllocError>
        ensures options { OnOk result (self.new ≡
            record self.old {
              options = options_with_echo is_due (echo_wanted self.old flags.now) self.old.options;
            }) }
        ensures out { OnOk result (out.new.items ≡
            out.old.items ++
            spells (echo_items is_due (echo_wanted self.old flags.now) self.old.options)) }
        ensures err { OnErr result (out.new.items ≡ out.old.items) }
        ensures some { OnErr result
            (echo_items is_due (echo_wanted self.old flags.now) self.old.options ≢ []) }
        ensures full { let wanted = echo_wanted self.old flags.now in OnErr result
            (LacksRoom out.old (length (spells (echo_items is_due wanted self.old.options)))) }
    {
        if !is_due {
            return Ok(());
        }
        let client_edits = self.client_edits();
        let wanted = !client_edits || !flags.echo;
        match self.options.ask(Side::Us, ECHO, wanted) {
            Ok(said) => {
                put_word(said, out)?;
                Ok(())
            },
            Err(_) => Ok(()),
        }
    }

    /// Appends all that follows from new options, a request or a flag: the table if LINEMODE came
    /// on, the MODE that was not asked before, and the message for ECHO. Returns whether a MODE was
    /// sent.
    pub(crate) fn settle(
        &mut self,
        alloc: Global,
        was_on: bool,
        is_set: bool,
        flags: &Flags,
        table: &ServerTable,
        out: &mut Vec<u8>,
    ) -> Result<bool, AllocError>
        ensures sent { IfOk result (λ sent. sent ≡ is_some (told_now was_on self.old)) }
        ensures terms { OnOk result (self.new ≡ negotiation_after was_on is_set flags.now self.old) }
        ensures out { OnOk result (out.new.items ≡
            out.old.items ++ spells (negotiation_items was_on is_set flags.now table.now self.old)) }
        ensures err { OnErr result
            (AppendsPrefix (negotiation_items was_on is_set flags.now table.now self.old) out.old.items
            out.new.items) }
        ensures some { OnErr result (negotiation_items was_on is_set flags.now table.now self.old ≢ []) }

        // If the table is sent, its triples are listed first, which takes memory of its own.
        ensures full { let said = negotiation_items was_on is_set flags.now table.now self.old in
            OnErr result (LacksRoom out.old (length (spells said))
            ⊎ (new_table_items was_on (linemode self.old.options) table.now ≢ [])) }
    {
        let is_on = self.has_linemode();
        put_table(alloc, was_on, is_on, table, out)?;
        let told = self.ask_mode(was_on);
        put_mode(told, out)?;
        let is_due = is_on != was_on || (told.is_some() || is_set);
        self.ask_echo(is_due, flags, out)?;
        Ok(told.is_some())
    }
}

// Appends the whole table, if LINEMODE came on.
fn put_table(
    alloc: Global,
    was_on: bool,
    is_on: bool,
    table: &ServerTable,
    out: &mut Vec<u8>,
) -> Result<(), AllocError>
    ensures ok { OnOk result (out.new.items ≡
        out.old.items ++ spells (new_table_items was_on is_on table.now)) }
    ensures err { OnErr result (out.new.items ≡ out.old.items) }
    ensures some { OnErr result (new_table_items was_on is_on table.now ≢ []) }
    ensures capacity { vec_capacity out.old ≤ vec_capacity out.new }
{
    if was_on || !is_on {
        return Ok(());
    }
    announce(alloc, table, out)
}

/// Appends the whole table.
pub(crate) fn announce(
    alloc: Global,
    table: &ServerTable,
    out: &mut Vec<u8>,
) -> Result<(), AllocError>
    ensures ok { OnOk result (out.new.items ≡ out.old.items ++ spells (list_items (announcement table.now))) }
    ensures err { OnErr result (out.new.items ≡ out.old.items) }
    ensures capacity { vec_capacity out.old ≤ vec_capacity out.new }
{
    let mut triples = Vec::new(alloc);
    table.announce(&mut triples)?;
    put_list(&triples, out)
}

// Returns the options after the opening requests.
fn opening_options(opening: Opening) -> Engine
    ensures { result ≡ opening_options opening }
{
    let mut options = Engine::new(Agree {
        us: [true, true, false, false],
        them: [false, true, true, true],
    });
    let _linemode = options.ask(Side::Them, LINEMODE, true);
    let _naws = options.ask(Side::Them, NAWS, true);
    if matches!(opening, Opening::Lines) {
        return options;
    }
    let _ours = options.ask(Side::Us, SUPPRESS_GO_AHEAD, true);
    let _theirs = options.ask(Side::Them, SUPPRESS_GO_AHEAD, true);
    let _echo = options.ask(Side::Us, ECHO, true);
    options
}
