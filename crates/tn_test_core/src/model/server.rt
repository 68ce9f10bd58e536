//! A server end, from all that came and all calls.

use crate::model::{say_list, say_sub, triples_of};
use crate::models::terminal::Terminal;
use std::alloc::Global;
use tn_codes::{Command, Func, Verb};
use tn_discipline::{CharFault, Role, Settings, Sig, Symbol};
use tn_linemode::{ServerTable, put_word, triple_of};
use tn_nvt::{Decoder, Item, put_byte, put_cmd, put_newline};
use tn_option::{Agree, ECHO, Engine, LINEMODE, NAWS, SUPPRESS_GO_AHEAD, Side};
use tn_server::{Editing, Opening};

/// A server agrees to ECHO and SUPPRESS-GO-AHEAD on its own side, and to all options but ECHO on the
/// client's.
const AGREED: Agree = Agree {
    us: [true, true, false, false],
    them: [false, true, true, true],
};

#[derive(Drop)]
pub(crate) struct Server {
    alloc: Global,
    decoder: Decoder,
    options: Engine,
    pub(crate) terminal: Terminal,
    wish: u8,
    asked: u8,
    pub(crate) mode: u8,
    pub(crate) size: (u16, u16),
    is_due: bool,
    opens_lines: bool,
    pub(crate) sent: Vec<u8>,
}

impl Server {
    pub(crate) fn new(alloc: Global, settings: &Settings, opening: Opening) -> Server {
        let mut server = Server {
            alloc,
            decoder: Decoder::new(alloc),
            options: Engine::new(AGREED),
            terminal: Terminal::new(alloc, settings),
            wish: 0,
            asked: 0,
            mode: 0,
            size: (0, 0),
            is_due: false,
            opens_lines: opening == Opening::Lines,
            sent: Vec::new(alloc),
        };
        server.wish_option(Side::Them, LINEMODE, true);
        server.wish_option(Side::Them, NAWS, true);
        if opening == Opening::Keys {
            server.wish_option(Side::Us, SUPPRESS_GO_AHEAD, true);
            server.wish_option(Side::Them, SUPPRESS_GO_AHEAD, true);
            server.wish_option(Side::Us, ECHO, true);
        }
        server
    }

    pub(crate) fn feed(&mut self, piece: &[u8]) {
        let mut items = Vec::new(self.alloc);
        let _refused = self.decoder.feed(piece, &mut items);
        for item in &items {
            self.got(item);
        }
    }

    fn got(&mut self, item: &Item) {
        match item {
            Item::Byte(byte) => self.typed(*byte),
            Item::Newline => self.typed(10),
            Item::Cmd(command) => self.commanded(*command),
            Item::Neg(verb, option) => self.heard(*verb, *option),
            Item::Sub(option, params) => self.told_by(*option, params.as_slice()),
        }
    }

    fn typed(&mut self, byte: u8) {
        if self.mode & 1 != 0 {
            self.terminal.edited_byte(byte);
        } else {
            self.terminal
                .raw_key(byte, self.options.is_on(Side::Us, ECHO));
        }
    }

    fn commanded(&mut self, command: Command) {
        match command {
            Command::Ayt => {
                let symbols = b"[Yes]".map(Symbol::Byte);
                let [a, b, c, d, e] = symbols;
                self.terminal.show(&[a, b, c, d, e, Symbol::Newline]);
            },
            _ => self.terminal.add(role_of_command(command)),
        }
    }
}

fn role_of_command(command: Command) -> Role {
    match command {
        Command::Eof => Role::Eof,
        Command::Ec => Role::Erase,
        Command::El => Role::Kill,
        Command::Ip | Command::Brk => Role::Signal(Sig::Int),
        Command::Abort => Role::Signal(Sig::Quit),
        Command::Susp => Role::Signal(Sig::Tstp),
        _ => Role::Ignored,
    }
}

// The options, and what LINEMODE begins with.
impl Server {
    fn has_linemode(&self) -> bool {
        self.options.is_on(Side::Them, LINEMODE)
    }

    fn wish_option(&mut self, side: Side, option: u8, on: bool) {
        let asked = self.options.ask(side, option, on).unwrap_or(None);
        let _refused = put_word(asked, &mut self.sent);
    }

    fn heard(&mut self, verb: Verb, option: u8) {
        let was_on = self.has_linemode();
        let answer = self.options.got(verb, option);
        let _refused = put_word(answer, &mut self.sent);
        if self.has_linemode() != was_on {
            self.asked = 0;
            self.mode = 0;
            self.begin_linemode();
            self.ask_echo();
        }
    }

    fn begin_linemode(&mut self) {
        if self.has_linemode() {
            self.say_table();
            let _sent = self.ask_mode();
        }
    }

    fn ask_echo(&mut self) {
        let edits = if self.has_linemode() {
            self.asked & 1 != 0
        } else {
            self.opens_lines
        };
        let wanted = !edits || !self.terminal.settings.flags.echo;
        self.wish_option(Side::Us, ECHO, wanted);
    }

    // Returns whether a mode was sent.
    fn ask_mode(&mut self) -> bool {
        if !self.has_linemode() || self.wish == self.asked {
            return false;
        }
        self.asked = self.wish;
        say_sub(34, &[1, self.wish], &mut self.sent);
        true
    }

    fn say_table(&mut self) {
        let mut triples = Vec::new(self.alloc);
        let table = ServerTable::new(self.terminal.settings.chars);
        let _refused = table.announce(&mut triples);
        say_list(self.alloc, &triples, &mut self.sent);
    }
}

// The server's part in LINEMODE and NAWS (RFC 1184, RFC 1073).
impl Server {
    fn told_by(&mut self, option: u8, params: &[u8]) {
        if !self.options.is_on(Side::Them, option) {
            return;
        }
        match (option, params) {
            (31, [wide, width, high, height]) => {
                let width = u16::from_be_bytes([*wide, *width]);
                self.size = (width, u16::from_be_bytes([*high, *height]));
            },
            (34, [1, mask]) => self.mode_came(*mask),
            (34, [3, list @ ..]) if list.len() % 3 == 0 => self.listed(list),
            _ => {},
        }
    }

    fn mode_came(&mut self, mask: u8) {
        if mask & 4 != 0 {
            self.mode = mask & 3;
        } else if mask & 1 != 0 {
            let _sent = self.wish(Editing::Local);
        } else {
            let _sent = self.wish(Editing::Remote);
        }
    }

    fn listed(&mut self, list: &[u8]) {
        let mut answers = Vec::new(self.alloc);
        let triples = triples_of(self.alloc, list);
        let mut table = ServerTable::new(self.terminal.settings.chars);
        let got = table.got(&triples, &mut answers);
        self.terminal.settings.chars = table.chars();
        say_list(self.alloc, &answers, &mut self.sent);
        if got.unwrap_or(false) {
            self.say_table();
        }
    }
}

// The calls.
impl Server {
    pub(crate) fn wish(&mut self, editing: Editing) -> bool {
        let flags = self.terminal.settings.flags;
        if editing == Editing::Local && (!flags.icrnl || flags.inlcr || flags.igncr) {
            return false;
        }
        self.wish = match editing {
            Editing::Remote => 0,
            Editing::Local if flags.isig => 3,
            Editing::Local => 1,
        };
        let is_sent = self.ask_mode();
        if is_sent {
            self.ask_echo();
        }
        is_sent
    }

    pub(crate) fn set_char(&mut self, func: Func, value: Option<u8>) -> Option<CharFault> {
        let mut chars = self.terminal.settings.chars;
        let set = chars.set(func, value);
        if chars != self.terminal.settings.chars {
            self.terminal.settings.chars = chars;
            self.say_char(func, value);
        }
        set.err()
    }

    fn say_char(&mut self, func: Func, value: Option<u8>) {
        if self.has_linemode() {
            let triples = [triple_of(func, value)];
            say_list(self.alloc, &triples, &mut self.sent);
        }
    }

    pub(crate) fn set_echo(&mut self, on: bool) {
        self.terminal.settings.flags.echo = on;
        self.ask_echo();
    }

    pub(crate) fn pull(&mut self, most: usize) -> usize {
        let symbols = self.terminal.pull(most);
        for symbol in &symbols {
            let _refused = match symbol {
                Symbol::Newline => put_newline(&mut self.sent),
                Symbol::Byte(byte) => put_byte(*byte, &mut self.sent),
            };
        }
        self.is_due |= !symbols.is_empty();
        symbols.len()
    }

    pub(crate) fn take(&mut self) -> bool {
        let is_found = self.terminal.take();
        if !is_found && self.is_due && !self.options.is_on(Side::Us, SUPPRESS_GO_AHEAD) {
            let _refused = put_cmd(Command::Ga, &mut self.sent);
            self.is_due = false;
        }
        is_found
    }
}
