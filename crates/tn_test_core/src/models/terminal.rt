//! A terminal: the keys that were typed, and the screen's queue.

use crate::models::canonical::{closes, entries, half, role_of};
use std::alloc::Global;
use tn_codes::Func;
use tn_discipline::{Entry, Role, Settings, Symbol};

#[derive(Drop)]
pub struct Terminal {
    alloc: Global,
    pub settings: Settings,
    roles: Vec<Role>,
    taken: usize,
    queue: Vec<Symbol>,
}

impl Terminal {
    pub fn new(alloc: Global, settings: &Settings) -> Terminal {
        Terminal {
            alloc,
            settings: *settings,
            roles: Vec::new(alloc),
            taken: 0,
            queue: Vec::new(alloc),
        }
    }

    pub fn raw_key(&mut self, key: u8, echo: bool) {
        let role = role_of(&self.settings, key);
        if echo {
            self.echo(role);
        }
        self.add(role);
    }

    pub fn edited_byte(&mut self, byte: u8) {
        let role = match self.settings.chars.holder(byte) {
            _ if byte == 10 => Role::Nl,
            Some(Func::Forw1) => Role::Eol(byte),
            Some(Func::Forw2) => Role::Eol2(byte),
            _ => Role::Ordinary(byte),
        };
        self.add(role);
    }

    pub fn add(&mut self, role: Role) {
        let _refused = self.roles.push(role);
    }

    // The echo of a key that is about to join the others.
    fn echo(&mut self, role: Role) {
        let flags = self.settings.flags;
        let counted = self.half().len();
        match role {
            Role::Nl if flags.echo || flags.echonl => self.show(&[Symbol::Newline]),
            Role::Ordinary(_) if flags.echo && counted >= 254 => self.show(&[Symbol::Byte(7)]),
            Role::Ordinary(byte) | Role::Eol(byte) | Role::Eol2(byte) if flags.echo => {
                self.show(&[Symbol::Byte(byte)]);
            },
            Role::Kill if flags.echo && flags.echok => self.show(&[Symbol::Newline]),
            Role::Erase if flags.echo && flags.echoe && counted > 0 => {
                self.show(&[8, 32, 8].map(Symbol::Byte));
            },
            _ => {},
        }
    }

    /// Queues symbols if all of them fit, and else none.
    pub fn show(&mut self, symbols: &[Symbol]) {
        if self.room() >= symbols.len() {
            let _refused = self.queue.extend_from_slice(symbols);
        }
    }

    fn room(&self) -> usize {
        4096usize.saturating_sub(self.queue.len())
    }

    pub fn write(&mut self, bytes: &[u8]) -> usize {
        let flags = self.settings.flags;
        let count = bytes.len().min(self.room());
        for byte in bytes.iter().take(count) {
            self.show(&[if *byte == 10 && flags.opost && flags.onlcr {
                Symbol::Newline
            } else {
                Symbol::Byte(*byte)
            }]);
        }
        count
    }

    pub fn pull(&mut self, most: usize) -> Vec<Symbol> {
        let mut first = Vec::new(self.alloc);
        let mut rest = Vec::new(self.alloc);
        for (index, symbol) in self.queue.iter().enumerate() {
            let _refused = if index < most {
                first.push(*symbol)
            } else {
                rest.push(*symbol)
            };
        }
        self.queue = rest;
        first
    }

    /// Takes an entry. Returns whether one was waiting.
    pub fn take(&mut self) -> bool {
        let gives = |role: &&Role| closes(**role) || matches!(**role, Role::Signal(_));
        let given = self.roles.iter().filter(gives).count();
        let is_found = self.taken < given;
        self.taken = self.taken.saturating_add(usize::from(is_found));
        is_found
    }

    pub fn half(&self) -> Vec<u8> {
        half(self.alloc, 254, &self.roles)
    }

    /// All entries, the taken ones first.
    pub fn entries(&self) -> Vec<Entry> {
        entries(self.alloc, 254, &self.roles)
    }

    pub fn taken(&self) -> usize {
        self.taken
    }
}
