//! A client end, from all that came, all keys and all sizes.

use crate::model::{say_list, say_sub, triples_of};
use crate::models::canonical::{half, role_of};
use std::alloc::Global;
use tn_codes::Verb;
use tn_discipline::{Role, Settings, Sig};
use tn_linemode::{ClientTable, put_word};
use tn_nvt::{Decoder, Item, put_byte};
use tn_option::{Agree, ECHO, Engine, LINEMODE, NAWS, Side};

/// A client agrees to all options but ECHO on its own side, and to ECHO and SUPPRESS-GO-AHEAD on
/// the server's.
const AGREED: Agree = Agree {
    us: [false, true, true, true],
    them: [true, true, false, false],
};

#[derive(Drop)]
pub(crate) struct Client {
    alloc: Global,
    decoder: Decoder,
    options: Engine,
    table: ClientTable,
    pub(crate) mode: u8,
    size: (u16, u16),
    mask: Vec<u8>,
    roles: Vec<Role>,
    /// The keys of the half-typed line that the server edits, were its ISIG set.
    trapping: Vec<Role>,
    /// The roles of the keys of the line that the server edits, if its ISIG were clear.
    plain: Vec<Role>,
    lengths: Vec<usize>,
    pub(crate) sent: Vec<u8>,
    pub(crate) shown: Vec<u8>,
}

impl Client {
    pub(crate) fn new(alloc: Global, size: (u16, u16)) -> Client {
        Client {
            alloc,
            decoder: Decoder::new(alloc),
            options: Engine::new(AGREED),
            table: ClientTable::new(),
            mode: 0,
            size,
            mask: Vec::new(alloc),
            roles: Vec::new(alloc),
            trapping: Vec::new(alloc),
            plain: Vec::new(alloc),
            lengths: Vec::new(alloc),
            sent: Vec::new(alloc),
            shown: Vec::new(alloc),
        }
    }

    pub(crate) fn feed(&mut self, piece: &[u8]) {
        let mut items = Vec::new(self.alloc);
        let _refused = self.decoder.feed(piece, &mut items);
        for item in &items {
            self.got(item);
        }
    }

    fn got(&mut self, item: &Item) {
        match item {
            Item::Byte(byte) => self.show(&[*byte]),
            Item::Newline => self.show(b"\r\n"),
            Item::Neg(verb, option) => self.heard(*verb, *option),
            Item::Sub(34, params) if self.options.is_on(Side::Us, LINEMODE) => self.told_by(
                params.as_slice(),
            ),
            Item::Sub(..) | Item::Cmd(_) => {},
        }
    }

    fn show(&mut self, bytes: &[u8]) {
        let _refused = self.shown.extend_from_slice(bytes);
    }

    fn edits(&self) -> bool {
        self.mode & 1 != 0
    }

    fn heard(&mut self, verb: Verb, option: u8) {
        let had_size = self.options.is_on(Side::Us, NAWS);
        if verb == Verb::DontIt && option == LINEMODE {
            self.leave(0);
            self.mask.clear();
        }
        let answer = self.options.got(verb, option);
        let _refused = put_word(answer, &mut self.sent);
        if !had_size && self.options.is_on(Side::Us, NAWS) {
            self.say_size();
        }
    }

    // Sets the mode. If EDIT ends, the held bytes are sent; if it begins, the half-typed line goes
    // on from the keys that the server edited, all of which were sent.
    fn leave(&mut self, mode: u8) {
        match (self.edits(), mode & 1 == 1) {
            (true, false) => self.end_editing(),
            (false, true) => self.begin_editing(mode & 2 != 0),
            _ => {},
        }
        self.mode = mode;
    }

    fn end_editing(&mut self) {
        self.send_line(&[]);
        self.trapping = self.copied(&self.roles);
        self.plain = self.copied(&self.roles);
        self.roles.clear();
        self.lengths.clear();
    }

    fn begin_editing(&mut self, is_trapping: bool) {
        self.roles = if is_trapping {
            self.copied(&self.trapping)
        } else {
            self.copied(&self.plain)
        };
        self.count_half();
    }

    // The half-typed line has had its length.
    fn count_half(&mut self) {
        let length = self.half().len();
        let _refused = self.lengths.push(length);
    }

    fn copied(&self, roles: &[Role]) -> Vec<Role> {
        roles.to_vec(self.alloc).unwrap_or(Vec::new(self.alloc))
    }

    /// Returns the length of the half-typed line that the server edits, if its ISIG were set, and
    /// if it were clear.
    pub(crate) fn counts(&self) -> (usize, usize) {
        if self.edits() {
            return (0, 0);
        }
        (
            half(self.alloc, 254, &self.trapping).len(),
            half(self.alloc, 254, &self.plain).len(),
        )
    }

    fn say_size(&mut self) {
        let (width, height) = self.size;
        let [wide, narrow] = width.to_be_bytes();
        let [high, low] = height.to_be_bytes();
        say_sub(31, &[wide, narrow, high, low], &mut self.sent);
    }

    pub(crate) fn resize(&mut self, width: u16, height: u16) {
        let is_new = self.size != (width, height);
        self.size = (width, height);
        if is_new && self.options.is_on(Side::Us, NAWS) {
            self.say_size();
        }
    }
}

// The client's part in LINEMODE (RFC 1184).
impl Client {
    fn told_by(&mut self, params: &[u8]) {
        match params {
            [1, mask] => self.mode_came(*mask),
            [253, 2, octets @ ..] if octets.len() <= 32 => self.masked(octets, 251),
            [254, 2] => self.masked(&[], 252),
            [3, list @ ..] if list.len() % 3 == 0 => self.listed(list),
            _ => {},
        }
    }

    fn mode_came(&mut self, mask: u8) {
        if mask & 4 == 0 && mask & 3 != self.mode {
            self.leave(mask & 3);
            say_sub(34, &[1, mask & 3 | 4], &mut self.sent);
        }
    }

    // A forward mask, or none any more, and the verb of the answer.
    fn masked(&mut self, octets: &[u8], verb: u8) {
        self.mask.clear();
        let _refused = self.mask.extend_from_slice(octets);
        say_sub(34, &[verb, 2], &mut self.sent);
    }

    fn listed(&mut self, list: &[u8]) {
        let mut answers = Vec::new(self.alloc);
        let triples = triples_of(self.alloc, list);
        let _refused = self.table.got(&triples, &mut answers);
        say_list(self.alloc, &answers, &mut self.sent);
    }
}

// The keys (POSIX.1-2017, XBD 11; RFC 1184, section 2).
impl Client {
    // The server's terminal as the client knows it, with this ISIG.
    fn settings(&self, isig: bool) -> Settings {
        let mut settings = Settings::standard();
        settings.flags.isig = isig;
        settings.chars = self.table.chars();
        settings
    }

    // Keeps a key that the server edits.
    fn keep(&mut self, key: u8) {
        let trapping = role_of(&self.settings(true), key);
        let plain = role_of(&self.settings(false), key);
        let _refused = self.trapping.push(trapping);
        let _refused = self.plain.push(plain);
    }

    pub(crate) fn key(&mut self, key: u8) {
        let settings = self.settings(self.mode & 2 != 0);
        let role = role_of(&settings, key);
        if self.edits() {
            self.edit(role);
        } else {
            self.pass(role, key);
            self.keep(key);
        }
    }

    fn edit(&mut self, role: Role) {
        let forwards = self.forwards(role);
        self.send_edited(role);
        self.echo(role);
        let _refused = self.roles.push(role);
        if forwards {
            self.send_line(&[]);
            self.lengths.clear();
        }
        self.count_half();
    }

    // An ordinary byte of the forward mask, for which the line has room.
    fn forwards(&self, role: Role) -> bool {
        let Role::Ordinary(byte) = role else {
            return false;
        };
        let octet = self.mask.get(usize::from(byte / 8)).copied().unwrap_or(0);
        octet & (128 >> (byte % 8)) != 0 && self.half().len() < 254
    }

    /// Returns how much of the half-typed line was sent: the least length that it has had since
    /// editing began, or since a byte sent all of it.
    pub(crate) fn ahead(&self) -> usize {
        self.lengths.iter().copied().min().unwrap_or(0)
    }

    /// Returns the held bytes: the rest of the half-typed line.
    pub(crate) fn held(&self) -> Vec<u8> {
        let half = self.half();
        let held = half.get(self.ahead()..).unwrap_or(&[]);
        held.to_vec(self.alloc).unwrap_or(Vec::new(self.alloc))
    }

    fn pass(&mut self, role: Role, key: u8) {
        self.send_key(role, key);
        self.show_key(key);
    }

    fn send_key(&mut self, role: Role, key: u8) {
        match role {
            Role::Signal(sig) => self.send_signal(sig),
            _ => self.send_byte(key),
        }
    }

    fn show_key(&mut self, key: u8) {
        match key {
            _ if self.options.is_on(Side::Them, ECHO) => {},
            10 | 13 => self.show(b"\r\n"),
            _ => self.show(&[key]),
        }
    }

    fn send_signal(&mut self, sig: Sig) {
        let command = match sig {
            Sig::Int => 244,
            Sig::Quit => 238,
            Sig::Tstp => 237,
        };
        self.send_command(command);
    }

    fn send_byte(&mut self, byte: u8) {
        let _refused = put_byte(byte, &mut self.sent);
    }

    fn send_edited(&mut self, role: Role) {
        match role {
            Role::Signal(sig) => self.send_signal(sig),
            Role::Nl => self.send_line(&[13, 10]),
            Role::Eol(byte) | Role::Eol2(byte) => self.send_line(&[byte]),
            Role::Eof => self.send_line(&[255, 236]),
            Role::Erase if self.held().is_empty() && self.ahead() > 0 => self.send_command(247),
            Role::Kill if self.ahead() > 0 => self.send_command(248),
            _ => {},
        }
    }

    fn send_command(&mut self, command: u8) {
        let _refused = self.sent.extend_from_slice(&[255, command]);
    }

    fn send_line(&mut self, closing: &[u8]) {
        for byte in &self.held() {
            self.send_byte(*byte);
        }
        let _refused = self.sent.extend_from_slice(closing);
    }

    // Shows the echo of a key that is about to join the roles, if the server has none.
    fn echo(&mut self, role: Role) {
        if self.options.is_on(Side::Them, ECHO) {
            return;
        }
        let counted = self.half().len();
        for byte in echo_of(role, counted).iter().flatten() {
            let _refused = self.shown.push(*byte);
        }
    }

    /// The half-typed line: what is kept of the keys after the last that closed a line.
    pub(crate) fn half(&self) -> Vec<u8> {
        half(self.alloc, 254, &self.roles)
    }
}

// Returns the echo of a key after this number of bytes of the half-typed line.
fn echo_of(role: Role, counted: usize) -> [Option<u8>; 3] {
    match role {
        Role::Ordinary(_) if counted >= 254 => [Some(7), None, None],
        Role::Ordinary(byte) | Role::Eol(byte) | Role::Eol2(byte) => [Some(byte), None, None],
        Role::Nl | Role::Kill => [Some(13), Some(10), None],
        Role::Erase if counted > 0 => [Some(8), Some(32), Some(8)],
        _ => [None; 3],
    }
}
